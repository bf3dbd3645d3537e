//! Which bytes a delivery touches: gate, descriptor, TSS word and frame. This project's own.

ghost use Rattle.std.specs.Prelude.{◌≡◌, ◌≤◌, ◌<◌, IfSome, option_copied};
ghost use Rattle.kc_regions.specs.Permission.{passes};
ghost use Rattle.kc_regions.specs.declared.touch.Touch.TheVariants.{Read};
ghost use Rattle.kc_state.specs.AbsDelivery.{may_read_word, may_touch, holds_below, may_push};
ghost use Rattle.kc_state.specs.Access.{may_bytes};
ghost use Rattle.kc_state.specs.Conditions.{stack_region};

use crate::floors::is_under_floor;
use kc_frames::Floors;
use kc_regions::{Config, Region, Touch};
use kc_space::MapState;
use kc_state::{Key, Location, may, word_of};

fn may_read(cfg: &Config, key: &Key, map: MapState, a: u64, size: u8) -> bool
    ensures { result ≡ may_bytes cfg.now map Read a size }
{
    may(cfg, key, map, Location::Number(a), size, Touch::Read)
}

fn may_read_word(cfg: &Config, key: &Key, map: MapState, word: Option<u8>) -> bool
    requires { IfSome word (λ n. n < 8) }
    ensures { result ≡ may_read_word cfg.now map word }
{
    match word {
        Some(n) => match word_of(cfg, key, u16::from(n)) {
            Some(l) => may(cfg, key, map, l, 8, Touch::Read),
            None => false,
        },
        None => true,
    }
}

/// Whether the gate of the vector, the descriptor of the kernel's CS and a TSS word that is taken may be
/// read.
pub(crate) fn may_touch(
    cfg: &Config,
    key: &Key,
    map: MapState,
    vector: u8,
    word: Option<u8>,
) -> bool
    requires { IfSome word (λ n. n < 8) }
    ensures { result ≡ may_touch cfg.now map vector word }
{
    let idt = cfg.cpu.idt.wrapping_add(16 * u64::from(vector));
    let gdt = cfg.cpu.gdt.wrapping_add(u64::from(cfg.cpu.star_kernel));
    may_read(cfg, key, map, idt, 16)
        && (may_read(cfg, key, map, gdt, 8) && may_read_word(cfg, key, map, word))
}

// Whether the `n` bytes below the base lie in the region.
fn holds_below(base: u64, n: u8, region: Option<&Region>) -> bool
    ensures { result ≡ passes (holds_below base n) (option_copied region.entry) }
{
    match region {
        Some(r) => match r.span.from.checked_add(u64::from(n)) {
            Some(least) => least <= base && base <= r.span.to,
            None => false,
        },
        None => false,
    }
}

// Whether they lie in this stack.
fn stack_holds(cfg: &Config, stack: Option<u8>, base: u64, n: u8) -> bool
    ensures { result ≡ passes (holds_below base n) (stack_region cfg.now stack) }
{
    match stack {
        Some(s) => holds_below(base, n, cfg.regions.stack(s)),
        None => false,
    }
}

/// Whether the `n` bytes below a constant base lie in one stack, may be written, and hold no live byte.
#[tactic(auto, using(kc_state::proofs::StackLemmas::is_place))]
pub(crate) fn may_push(
    cfg: &Config,
    key: &Key,
    map: MapState,
    floors: &Floors,
    base: u64,
    n: u8,
) -> bool
    ensures { result ≡ may_push cfg.now map floors.now base n }
{
    cfg.tell();
    let stack = cfg.regions.stack_of(base.wrapping_sub(8));
    let frame = Location::Number(base.wrapping_sub(u64::from(n)));
    stack_holds(cfg, stack, base, n)
        && (may(cfg, key, map, frame, n, Touch::Write) && is_under_floor(floors, base, stack))
}
