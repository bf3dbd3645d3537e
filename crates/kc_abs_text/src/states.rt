//! What differs from a state.

ghost use Rattle.std.specs.Prelude.{◌<◌, IfSome};

use crate::frames::floor;
use crate::numbers::count;
use crate::spaces::{gs, latches, map};
use crate::values::value;
use kc_regions::Config;
use kc_state::AbsState;

// The number of a general register by its name.
fn register(name: &str) -> Option<usize>
    ensures { IfSome result (λ r. r < 16) }
{
    let names = [
        "rax", "rcx", "rdx", "rbx", "rsp", "rbp", "rsi", "rdi", "r8", "r9", "r10", "r11", "r12",
        "r13", "r14", "r15",
    ];
    names.iter().position(|other| *other == name)
}

/// Makes the state differ as the assignments say, which are apart by blanks; `-` is none. Nothing comes
/// where one isn't read.
pub fn with_all(cfg: &Config, state: &mut AbsState, assignments: &str) -> Option<()> {
    if assignments != "-" {
        for assignment in assignments.split(' ') {
            let (name, text) = assignment.split_once('=')?;
            with(cfg, state, name, text)?;
        }
    }
    Some(())
}

fn with(cfg: &Config, state: &mut AbsState, name: &str, text: &str) -> Option<()> {
    match name {
        "flags" => state.flags = value(cfg, text)?,
        "gs" => state.gs = gs(text)?,
        "map" => state.map = map(text)?,
        "latch" => state.latches = latches(text)?,
        _ => with_numbered(cfg, state, name, text)?,
    }
    Some(())
}

// A register, the floor `fI` of stack I, or slot `sI`.
fn with_numbered(cfg: &Config, state: &mut AbsState, name: &str, text: &str) -> Option<()> {
    if let Some(r) = register(name) {
        state.regs[r] = value(cfg, text)?;
        return Some(());
    }
    match name.strip_prefix('f') {
        Some(stack) => with_floor(state, count(stack)?, text),
        None => with_slot(cfg, state, count(name.strip_prefix('s')?)?, text),
    }
}

fn with_floor(state: &mut AbsState, stack: u16, text: &str) -> Option<()> {
    if stack >= 16 {
        return None;
    }
    state.floors.at[usize::from(stack)] = floor(text)?;
    Some(())
}

fn with_slot(cfg: &Config, state: &mut AbsState, i: u16, text: &str) -> Option<()> {
    if i >= 296 {
        return None;
    }
    state.slots.set(i, value(cfg, text)?);
    Some(())
}
