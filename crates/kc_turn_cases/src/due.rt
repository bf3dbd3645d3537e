//! What is due of a state and of a turn, as their lines tell it.

use crate::reached::Reached;
use crate::words::{add_all, are_accesses, is_end, rest_of};
use kc_cases::{Processor, number};
use kc_cpu::Mode;
use kc_exec::{Access, State};
use kc_machine::{Machine, StepEnd};
use kc_mem::Memory;
use std::alloc::Global;

fn processor(state: &State) -> Processor {
    Processor {
        cpu: state.cpu,
        latch: state.latch,
    }
}

// In the mode that the words say: `user`, `code`, or `inside` and the parts of the handler's call.
fn in_mode(before: &Processor, words: &str) -> Option<Processor> {
    let mut after = *before;
    match words {
        "user" => after.cpu.mode = Mode::User,
        "code" => after.cpu.mode = Mode::Code,
        _ => after = before.inside(words.strip_prefix("inside ")?)?,
    }
    Some(after)
}

fn count(digits: &str) -> Option<usize> {
    usize::from_str_radix(digits, 10).ok()
}

/// Whether the state is as the words `MODE chain=COUNT ASSIGNMENTS` say.
pub(crate) fn is_state(state: &State, words: &str) -> Option<bool> {
    let (mode, rest) = words.split_once(" chain=")?;
    let (digits, assignments) = rest.split_once(' ')?;
    let now = processor(state);
    let due = in_mode(&now, mode)?.with_all(assignments)?;
    Some(now == due && state.chain.len() == count(digits)?)
}

// The processor after the turn: what its lines tell differs from before.
fn processor_due(before: &Processor, turn: &str) -> Option<Processor> {
    let mut due = *before;
    if let Some(assignments) = rest_of(turn, "out") {
        due = due.with_all(assignments)?;
    }
    match rest_of(turn, "mode") {
        Some(words) => in_mode(&due, words),
        None => Some(due),
    }
}

// Whether the chain has the activations that are due, of which there were so many before.
fn is_chain(state: &State, before: usize, turn: &str) -> Option<bool> {
    let len = match rest_of(turn, "chain") {
        Some(digits) => count(digits)?,
        None => before,
    };
    if state.chain.len() != len {
        return Some(false);
    }
    match (rest_of(turn, "activation"), state.chain.as_slice().last()) {
        (Some(base), Some(newest)) => Some(newest.base == number(base)?),
        (Some(_), None) => Some(false),
        (None, _) => Some(true),
    }
}

// Appends the bytes of the access, and four on either side.
fn add_near(mem: &Memory, list: &mut Vec<(u64, u8)>, access: &Access) -> Option<()> {
    let first = access.at.wrapping_sub(4);
    for i in 0..24u64 {
        let at = first.wrapping_add(i);
        list.push((at, mem.read1(at))).ok()?;
    }
    Some(())
}

fn are_alike(one: &Memory, other: &Memory, places: &[(u64, u8)]) -> bool {
    places
        .iter()
        .all(|place| one.read1(place.0) == other.read1(place.0))
}

// Whether the memory after differs by these writes alone, as far as the accesses and the writes reach.
fn are_bytes(
    alloc: Global,
    before: &Memory,
    after: &Machine,
    writes: &[(u64, u8)],
) -> Option<bool> {
    let mut near = Vec::new(alloc);
    for access in after.accesses() {
        add_near(before, &mut near, access)?;
    }
    let mut due = Memory::new(alloc);
    due.apply(&near).ok()?;
    due.apply(writes).ok()?;
    let mem = &after.state().mem;
    Some(are_alike(&due, mem, &near) && are_alike(&due, mem, writes))
}

// Whether the turn leaves what its lines tell, where it was done.
fn is_left(alloc: Global, before: &State, after: &Machine, turn: &str) -> Option<bool> {
    let state = after.state();
    if processor(state) != processor_due(&processor(before), turn)? {
        return Some(false);
    }
    if !is_chain(state, before.chain.len(), turn)? {
        return Some(false);
    }
    let mut writes = Vec::new(alloc);
    add_all(alloc, &mut writes, turn, "write")?;
    add_all(alloc, &mut writes, turn, "mem")?;
    are_bytes(alloc, &before.mem, after, &writes)
}

// Whether all is as before, where the turn may not come.
fn is_same(before: &State, after: &State) -> bool {
    processor(after) == processor(before) && after.chain.len() == before.chain.len()
}

// Takes the turn, and tells its end where it is the one that its lines tell.
fn end_as_due(there: &mut Reached, turn: &str) -> Option<Option<StepEnd>> {
    let Reached {
        machine,
        turn: next,
    } = there;
    let end = machine.step(next).ok()?;
    Some(is_end(end, rest_of(turn, "->")?).then_some(end))
}

/// Whether the turn ends as its lines tell.
pub(crate) fn ends_as_due(there: &mut Reached, turn: &str) -> Option<bool> {
    Some(end_as_due(there, turn)?.is_some())
}

/// Whether the turn of `after` does what its lines tell; `before` is the state before it.
pub(crate) fn does_as_due(
    alloc: Global,
    before: &State,
    after: &mut Reached,
    turn: &str,
) -> Option<bool> {
    let Some(end) = end_as_due(after, turn)? else {
        return Some(false);
    };
    let accesses = rest_of(turn, "access").unwrap_or("");
    if !are_accesses(after.machine.accesses(), accesses)? {
        return Some(false);
    }
    match end {
        StepEnd::Done => is_left(alloc, before, &after.machine, turn),
        StepEnd::NotAllowed => Some(is_same(before, after.machine.state())),
        StepEnd::Stopped | StepEnd::Broke(_) => Some(after.machine.state().stopped),
    }
}
