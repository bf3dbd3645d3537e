//! The turns of a trace's lines.

ghost use Rattle.std.specs.Prelude.{◌≡◌, IfOk, Some};
ghost use Rattle.std.specs.Option.{option_map};
ghost use Rattle.kc_events.specs.declared.turn.Turn.TheVariants.{User, Body};
ghost use Rattle.kc_replay.specs.Values.{user_set, body_set, writes_of};
ghost use Rattle.kc_replay.specs.Turns.{turn_at, steps_of, first_set};

use crate::values::{body_set, leave_set, user_set, writes_of};
use kc_cpu::Cpu;
use kc_events::{Turn, UserSet};
use kc_plain::{Items, NoMemory};
use kc_regions::Config;
use kc_trace::{Assignment, Line};
use std::alloc::Global;

// The step of user code of a line, with what the `mem` lines after it write.
fn user_turn(
    alloc: Global,
    cfg: &Config,
    set: &[Assignment],
    rest: &[Line],
) -> Result<Option<Turn>, NoMemory>
    ensures { IfOk result (λ t. t ≡ Some (User (user_set cfg.now set.now (writes_of rest.now)))) }
{
    let writes = writes_of(alloc, rest)?;
    Ok(Some(Turn::User(user_set(cfg, set, writes))))
}

// The handler's step of a line, with what the `mem` lines after it write.
fn body_turn(
    alloc: Global,
    cpu: &Cpu,
    set: &[Assignment],
    rest: &[Line],
) -> Result<Option<Turn>, NoMemory>
    ensures { IfOk result (λ t. t ≡ Some (Body (body_set cpu.now set.now (writes_of rest.now)))) }
{
    let writes = writes_of(alloc, rest)?;
    Ok(Some(Turn::Body(body_set(cpu, set, writes))))
}

/// The turn of a line that is one turn other than Go, on this processor. `rest` are the lines after
/// it, whose first `mem` lines say what it writes.
pub fn turn_at(
    alloc: Global,
    cfg: &Config,
    cpu: &Cpu,
    line: &Line,
    rest: &[Line],
) -> Result<Option<Turn>, NoMemory>
    ensures turn { IfOk result (λ t. t ≡ option_map (λ f. f cpu.now) (turn_at cfg.now line.now rest.now)) }
{
    match line {
        Line::Start(_) | Line::Mem(_, _) | Line::Go(_) => Ok(None),
        Line::Irq(vector) => Ok(Some(Turn::Irq(*vector))),
        Line::Nmi => Ok(Some(Turn::Nmi)),
        Line::Debug => Ok(Some(Turn::Debug)),
        Line::Check => Ok(Some(Turn::Check)),
        Line::Fault(address, code) => Ok(Some(Turn::Fault(*address, *code))),
        Line::Trap(vector, code) => Ok(Some(Turn::Trap(*vector, *code))),
        Line::Syscall => Ok(Some(Turn::Syscall)),
        Line::User(set) => user_turn(alloc, cfg, set.as_slice(), rest),
        Line::Body(set) => body_turn(alloc, cpu, set.as_slice(), rest),
        Line::Leave(set) => Ok(Some(Turn::Leave(leave_set(cfg, cpu, set.as_slice())))),
    }
}

/// How often the line is the turn Go.
pub(crate) fn steps_of(line: &Line) -> u32
    ensures { result ≡ steps_of line.now }
{
    match line {
        Line::Go(count) => *count,
        _ => 0,
    }
}

/// What the first line, `start`, and the `mem` lines after it put in place.
pub fn first_set(alloc: Global, cfg: &Config, lines: &[Line]) -> Result<UserSet, NoMemory>
    ensures first { IfOk result (λ u. u ≡ first_set cfg.now lines.now) }
{
    match lines {
        [Line::Start(set), rest @ ..] => {
            let writes = writes_of(alloc, rest)?;
            Ok(user_set(cfg, set.as_slice(), writes))
        }
        _ => Ok(user_set(cfg, &[], Items::new(alloc))),
    }
}
