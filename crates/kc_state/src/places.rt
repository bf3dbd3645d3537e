//! Where values point and where the tracked words lie, this project's own.

ghost use Rattle.std.specs.Prelude.{◌≡◌, ◌<◌, ◌≤◌, Some};
ghost use Rattle.kc_bits.specs.Bits.{word};
ghost use Rattle.kc_regions.specs.Lookup.{tss_word};
ghost use Rattle.kc_state.specs.Places.{location_stack, is_interrupted_rsp, value_stack, home_stack, tracked_word, base_word, word_of};

use crate::key::Key;
use crate::location::{Location, loc};
use kc_regions::Config;
use kc_value::{Sym, Value};

/// The stack in which `v` points in a context with this key: that of the key for the interrupted RSP
/// and for an offset, and else the one that holds the number, if it is known.
pub fn place(cfg: &Config, key: &Key, v: &Value) -> Option<u8>
    ensures value { result ≡ value_stack cfg.now key.now v.now }
{
    if let Sym::Entry(4) = v.sym {
        return key.stack;
    }
    match loc(key, v) {
        Some(l) => stack_at(cfg, key, l),
        None => None,
    }
}

/// The stack of a location: that of the key for an offset, and else the one that holds the number.
pub fn stack_at(cfg: &Config, key: &Key, l: Location) -> Option<u8>
    ensures value { result ≡ location_stack cfg.now key.now (Some l) }
{
    match l {
        Location::Relative(_) => key.stack,
        Location::Number(a) => cfg.regions.stack_of(a),
    }
}

/// The stack on which the frame of an event with this key stands; none for SYSCALL.
pub fn home(cfg: &Config, key: &Key) -> Option<u8>
    ensures value { result ≡ home_stack cfg.now key.now }
{
    match key.base {
        Some(base) => cfg.regions.stack_of(base.wrapping_sub(8)),
        None if key.syscall => None,
        None => key.stack,
    }
}

// The word of a slot below 104, which stands for no word of a marked stack.
pub(crate) fn near_word(cfg: &Config, key: &Key, i: u16) -> Option<Location>
    requires { i < 104 }
    ensures { result ≡ word_of cfg.now key.now i }
{
    if i < 8 {
        Some(Location::Number(tss_address(cfg.cpu.tss, i)))
    } else if i < 40 {
        tracked(cfg, i - 8)
    } else {
        below_base(key, i - 39)
    }
}

// Where the TSS at `tss` holds RSP0 (0) or an IST (1 to 7).
fn tss_address(tss: u64, n: u16) -> u64
    requires { n < 8 }
    ensures { result ≡ word (tss_word tss n) }
{
    if n == 0 {
        tss.wrapping_add(4)
    } else {
        tss.wrapping_add(28 + 8 * u64::from(n))
    }
}

fn tracked(cfg: &Config, n: u16) -> Option<Location>
    ensures { result ≡ tracked_word cfg.now n }
{
    match cfg.words.get(usize::from(n)) {
        Some(w) => Some(Location::Number(w.at)),
        None => None,
    }
}

// The n-th word below the base.
fn below_base(key: &Key, n: u16) -> Option<Location>
    requires { n ≤ 64 }
    ensures { result ≡ base_word key.now.base key.now.syscall n }
{
    match key.base {
        Some(base) => Some(Location::Number(base.wrapping_sub(8 * u64::from(n)))),
        None if key.syscall => None,
        None => Some(Location::Relative(-8 * i64::from(n))),
    }
}
