//! C4: the GS pair, CR3 and RSP are exact. This project's own.

ghost use Rattle.std.specs.Prelude.{◌≡◌};
ghost use Rattle.kc_space.specs.Spaces.{is_same_who, is_same_map};
ghost use Rattle.kc_state.specs.Conditions.{is_word, is_entry, is_exact_at, is_exact};

use crate::location::{Location, loc};
use crate::moment::{Moment, value_of};
use crate::shifts::is_only_stack;
use kc_insn::Reg;
use kc_space::{MapState, Who};
use kc_value::{Sym, Value};

// Whether the value is this word of the interrupted processor.
pub(crate) fn is_entry(v: &Value, w: u8) -> bool
    ensures { result ≡ is_entry v.now w }
{
    match v.sym {
        Sym::Entry(i) => i == w,
        _ => false,
    }
}

fn is_exact_at(m: &Moment, inside: bool, v: &Value, at: Option<Location>) -> bool
    ensures { result ≡ is_exact_at m.now inside v.now at }
{
    let key = m.key;
    match at {
        Some(Location::Number(_)) => true,
        Some(Location::Relative(k)) => -4096 <= k && is_only_stack(v.stacks, key.stack),
        None => !inside && is_entry(v, 4),
    }
}

/// C4: the GS pair and CR3 are exact, and RSP is a number, an offset of the key's stack or, before an
/// instruction and not inside a handler, the interrupted one.
pub fn is_exact(m: &Moment, inside: bool) -> bool
    ensures value { result ≡ is_exact m.now inside }
{
    let cpu = m.cpu;
    let rsp = value_of(m.cpu, Reg::RSP);
    (cpu.gs.active != Who::Any && (cpu.gs.inactive != Who::Any && cpu.map != MapState::Any))
        && is_exact_at(m, inside, &rsp, loc(m.key, &rsp))
}
