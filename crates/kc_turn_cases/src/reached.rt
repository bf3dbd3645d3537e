//! The machine in the state of a block, and the turn that is tried.

use kc_config::read_config;
use kc_events::Turn;
use kc_image::{Image, read_image};
use kc_machine::{Machine, StepEnd};
use kc_regions::Config;
use kc_replay::{Script, first_set, read_trace, turn_at};
use kc_trace::Line;
use std::alloc::Global;

/// No trace of a case is longer.
const MOST_BYTES: usize = 100_000;

/// A machine, and the turn that comes next.
#[derive(Drop)]
pub(crate) struct Reached {
    pub(crate) machine: Machine,
    pub(crate) turn: Turn,
}

// The script of a short trace.
fn script_of(alloc: Global, config: &Config, text: &[u8]) -> Option<Script> {
    if text.len() > MOST_BYTES {
        return None;
    }
    read_trace(alloc, config, text).ok()
}

// Takes a turn, which has to be done.
fn take(machine: &mut Machine, turn: &Turn) -> Option<()> {
    match machine.step(turn).ok()? {
        StepEnd::Done => Some(()),
        StepEnd::NotAllowed | StepEnd::Stopped | StepEnd::Broke(_) => None,
    }
}

// Takes the turns of a line.
fn take_line(alloc: Global, machine: &mut Machine, line: &Line, rest: &[Line]) -> Option<()> {
    if let Line::Go(count) = line {
        for _ in 0..*count {
            take(machine, &Turn::Go)?;
        }
    }
    let cpu = machine.state().cpu;
    match turn_at(alloc, machine.config(), &cpu, line, rest).ok()? {
        Some(turn) => take(machine, &turn),
        None => Some(()),
    }
}

// The one turn of a line.
fn one_turn(alloc: Global, machine: &Machine, line: &Line, rest: &[Line]) -> Option<Turn> {
    match line {
        Line::Go(_) => Some(Turn::Go),
        _ => turn_at(alloc, machine.config(), &machine.state().cpu, line, rest).ok()?,
    }
}

fn is_bytes(line: &Line) -> bool {
    match line {
        Line::Mem(_, _) => true,
        _ => false,
    }
}

// The index of the last line that is a turn.
fn last_turn(lines: &[Line]) -> Option<usize> {
    lines.iter().rposition(|line| !is_bytes(line))
}

// Takes the turns of the lines before this index, and tells the turn there.
fn take_lines(alloc: Global, machine: &mut Machine, lines: &[Line], last: usize) -> Option<Turn> {
    for (i, line) in lines.iter().enumerate() {
        let rest = &lines[i + 1..];
        if i == last {
            return one_turn(alloc, machine, line, rest);
        }
        take_line(alloc, machine, line, rest)?;
    }
    None
}

// The turn at the last line that is one, after those before it.
fn run(alloc: Global, machine: &mut Machine, lines: &[Line]) -> Option<Turn> {
    let last = last_turn(lines)?;
    take_lines(alloc, machine, lines, last)
}

// The machine at the start of the script.
fn start(alloc: Global, image: Image, config: Config, lines: &[Line]) -> Option<Machine> {
    let first = first_set(alloc, &config, lines).ok()?;
    Machine::start(alloc, config, image, &first).ok()
}

// The machine at the last turn of the lines.
fn reach_by(alloc: Global, image: Image, config: Config, lines: &[Line]) -> Option<Reached> {
    let mut machine = start(alloc, image, config, lines)?;
    let turn = run(alloc, &mut machine, lines)?;
    Some(Reached { machine, turn })
}

fn image_of(alloc: Global, bytes: &[u8]) -> Option<Image> {
    read_image(alloc, Vec::from_slice(alloc, bytes).ok()?).ok()
}

/// The machine at the last turn of a trace on this image under this description.
pub(crate) fn reach(alloc: Global, image: &[u8], config: &str, trace: &str) -> Option<Reached> {
    let image = image_of(alloc, image)?;
    let config = read_config(alloc, config.as_bytes(), &image).ok()?;
    let script = script_of(alloc, &config, trace.as_bytes())?;
    reach_by(alloc, image, config, script.lines())
}
