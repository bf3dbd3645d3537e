//! C6, C7 and C8: a GS access uses the kernel's base, each access is permitted, and no live stack byte is
//! written. This project's own.

ghost use Rattle.std.specs.Prelude.{◌≡◌, List, not};
ghost use Rattle.std.specs.List.{list_all};
ghost use Rattle.kc_bits.specs.Bits.{bits_single};
ghost use Rattle.kc_regions.specs.Permission.{user_cs64};
ghost use Rattle.kc_space.specs.Spaces.{is_same_who};
ghost use Rattle.kc_state.specs.Conditions.{uses_kernel_gs, may_at, may_read_descriptor, may_read_cs32, may_read_descriptors, permits_more, is_permitted, is_write, clear_at, is_clear};

use crate::accesses::Accesses;
use crate::stack::stack_word;
use kc_frames::Floors;
use kc_insn::Insn;
use kc_regions::Touch;
use kc_space::Who;
use kc_state::{Location, Moment, clear, may};

fn has_no_gs(all: &Accesses) -> bool
    ensures { result ≡ list_all (λ a. not a.gs) all.now }
{
    all.items().iter().all(|a| !a.gs)
}

// C6.
pub(crate) fn uses_kernel_gs(m: &Moment, all: &Accesses) -> bool
    ensures { result ≡ uses_kernel_gs m.now all.now }
{
    let cpu = m.cpu;
    cpu.gs.active == Who::Kernel || has_no_gs(all)
}

fn may_at(m: &Moment, at: Option<Location>, size: u8, touch: Touch) -> bool
    ensures { result ≡ may_at m.now at size touch }
{
    let cpu = m.cpu;
    match at {
        Some(l) => may(m.cfg, m.key, cpu.map, l, size, touch),
        None => false,
    }
}

// Whether the descriptor that a selector names may be read.
fn may_read_descriptor(m: &Moment, selector: u16) -> bool
    ensures { result ≡ may_read_descriptor m.now selector }
{
    let cfg = m.cfg;
    let at = cfg.cpu.gdt.wrapping_add(u64::from(selector - selector % 8));
    may_at(m, Some(Location::Number(at)), 8, Touch::Read)
}

fn may_read_cs32(m: &Moment, cs: Option<u16>) -> bool
    ensures { result ≡ may_read_cs32 m.now cs }
{
    match cs {
        Some(cs) => may_read_descriptor(m, cs),
        None => true,
    }
}

// Whether the descriptors that a return may load may be read.
fn may_read_descriptors(m: &Moment) -> bool
    ensures { result ≡ may_read_descriptors m.now }
{
    let (cfg, key) = (m.cfg, m.key);
    if key.kernel {
        may_read_descriptor(m, cfg.cpu.star_kernel)
            && may_read_descriptor(m, cfg.cpu.star_kernel + 8)
    } else {
        may_read_cs32(m, cfg.cpu.user_cs32)
            && (may_read_descriptor(m, cfg.user_cs64()) && may_read_descriptor(m, cfg.user_ss()))
    }
}

fn permits_more(m: &Moment, insn: &Insn) -> bool
    ensures { result ≡ permits_more m.now insn.now }
{
    match *insn {
        Insn::Ret => stack_word(m).bits.single().is_some(),
        Insn::Iretq => may_read_descriptors(m),
        _ => true,
    }
}

fn may_each(m: &Moment, all: &Accesses) -> bool
    ensures { result ≡ list_all (λ a. may_at m.now a.at a.size a.touch) all.now }
{
    all.items().iter().all(|a| may_at(m, a.at, a.size, a.touch))
}

// C7.
pub(crate) fn is_permitted(m: &Moment, insn: &Insn, all: &Accesses) -> bool
    ensures { result ≡ is_permitted m.now insn.now all.now }
{
    may_each(m, all) && permits_more(m, insn)
}

fn is_write(touch: Touch) -> bool
    ensures { result ≡ is_write touch }
{
    matches!(touch, Touch::Write)
}

fn clear_at(m: &Moment, floors: &Floors, at: Option<Location>, size: u8) -> bool
    ensures { result ≡ clear_at m.now floors.now at size }
{
    match at {
        Some(l) => clear(m.cfg, m.key, floors, l, size),
        None => false,
    }
}

// C8.
pub(crate) fn is_clear(m: &Moment, floors: &Floors, all: &Accesses) -> bool
    ensures { result ≡ is_clear m.now floors.now all.now }
{
    all.items().iter().all(|a| !is_write(a.touch) || clear_at(m, floors, a.at, a.size))
}
