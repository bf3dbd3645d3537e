//! The states that have names.

use crate::states::with_all;
use kc_bits::Bits;
use kc_frames::{Floor, Floors};
use kc_lattice::Domain;
use kc_regions::Config;
use kc_space::{GsPair, Latches, MapState, Tri, Who};
use kc_state::{AbsState, number_value};
use kc_value::{Sym, Value};

// The flags of the model's mask may be set, and bit 1 is.
const FLAGS: Bits = Bits {
    zeros: 0xFFFF_FFFF_FFDB_F028,
    ones: 2,
};

// A number in stack 0.
const RSP: u64 = 0xFFFF_FFFF_8300_5F00;

// The numbers of slots 0 to 9 of `fixed`.
const WORDS: [u64; 10] = [
    0xFFFF_FFFF_8400_2000,
    0xFFFF_FFFF_8400_4000,
    0xFFFF_FFFF_8400_6000,
    0xFFFF_FFFF_8400_8000,
    0,
    0,
    0,
    0,
    0,
    0xFFFF_FFFF_8300_6000,
];

/// The name of a state, and what differs from it behind a blank. It is `top`; `ready`, of which the
/// spaces, the latches, the mask of the flags and a number for RSP are known, and no stack has a live
/// byte; `fixed`, which is `ready` with the first ten tracked words of the first sample; or `entered`,
/// which is `ready` with each register its own.
pub fn state(cfg: &Config, text: &str, out: &mut AbsState) -> Option<()> {
    match text.split_once(' ') {
        Some((name, assignments)) => {
            named(cfg, name, out)?;
            with_all(cfg, out, assignments)
        }
        None => named(cfg, text, out),
    }
}

fn named(cfg: &Config, name: &str, out: &mut AbsState) -> Option<()> {
    match name {
        "top" => out.set_top(),
        "ready" => ready(out),
        "fixed" => fixed(cfg, out),
        "entered" => enter(out),
        _ => return None,
    }
    Some(())
}

fn ready(out: &mut AbsState) {
    out.set_top();
    out.gs = GsPair {
        active: Who::Kernel,
        inactive: Who::User,
    };
    out.map = MapState::Kernel;
    out.latches = Latches {
        nmi_blocked: Tri::No,
        shadow: Tri::No,
        mcip: Tri::No,
    };
    out.floors = Floors {
        at: [Floor::At(u64::MAX); 16],
    };
    out.flags = Value {
        sym: Sym::Plain,
        bits: FLAGS,
        stacks: 0x1_FFFF,
    };
    out.regs[4] = Value::constant(RSP, Some(0));
}

fn fixed(cfg: &Config, out: &mut AbsState) {
    ready(out);
    for i in 0..10u16 {
        out.slots.set(i, number_value(cfg, WORDS[usize::from(i)]));
    }
}

fn enter(out: &mut AbsState) {
    ready(out);
    for w in 0..16u8 {
        out.regs[usize::from(w)] = Value {
            sym: Sym::Entry(w),
            bits: Bits { zeros: 0, ones: 0 },
            stacks: 0x1_FFFF,
        };
    }
}
