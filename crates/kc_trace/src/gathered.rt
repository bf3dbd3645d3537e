//! The lines of a trace, gathered up to the first fault.

ghost use Rattle.std.specs.Prelude.{◌≡◌, ◌≢◌, ℕ, Err, ◌+◌, ◌-◌, ◌<◌, ◌≤◌, ◌^◌, length, IfOk};
ghost use Rattle.kc_trace.specs.declared.fault.TraceFault.TheVariants.{NotAdmitted};
ghost use Rattle.kc_trace.specs.Words.{lines_of};
ghost use Rattle.kc_trace.specs.Faults.{ReadsTrace};
ghost use Rattle.kc_trace.specs.Script.{fault_at, add_line, gathered, scripted, count_of};

use crate::fault::{LineFault, TraceFault};
use crate::form::read_line;
use crate::line::{Line, Place};
use crate::words::{cut_line, is_passed_over};
use kc_plain::Items;
use std::alloc::Global;

/// The turns that a trace may have.
pub(crate) const MOST_TURNS: u32 = 1_000_000;

/// What was read of a trace.
#[derive(Debug, Drop)]
pub struct Gathered {
    /// How many lines were read, those that say nothing too.
    pub count: u32,
    /// The number of the line `start`, counted from 1.
    pub start: u32,
    /// The place after these lines.
    pub(crate) place: Place,
    /// The lines that count.
    pub lines: Items<Line>,
}

/// The fault of the line of this number.
fn fault_at(number: u32, fault: LineFault) -> TraceFault
    ensures { result ≡ fault_at number fault }
{
    match fault {
        LineFault::Form => TraceFault::BadLine(number),
        LineFault::Number => TraceFault::BadNumber(number),
        LineFault::NoMemory => TraceFault::NoMemory,
    }
}

impl Gathered {
    /// Reads the next line.
    fn add(mut self, alloc: Global, text: &[u8]) -> Result<Gathered, TraceFault>
        requires room { self.count + 1 < 2 ^ 32 }
        ensures { ReadsTrace (λ g. g) result (add_line self text.now) }
    {
        let number = self.count + 1;
        self.count = number;
        if is_passed_over(text) {
            return Ok(self);
        }
        let line = match read_line(alloc, &self.place, text) {
            Ok(line) => line,
            Err(fault) => return Err(fault_at(number, fault)),
        };
        if !self.place.begun {
            self.start = number;
        }
        self.place = self.place.after(&line);
        self.lines.push(line)?;
        Ok(self)
    }
}

/// The lines of the text, up to the first fault.
fn gather(alloc: Global, text: &[u8]) -> Result<Gathered, TraceFault>
    requires { length (lines_of text.now) < 2 ^ 32 - 1 }
    ensures read { ReadsTrace (λ g. g) result (gathered text.now) }
    ensures count { IfOk result (λ g. g.count + 1 < 2 ^ 32) }
{
    let mut found = Gathered {
        count: 0,
        start: 0,
        place: Place {
            begun: false,
            takes_bytes: false,
            left: MOST_TURNS,
        },
        lines: Items::new(alloc),
    };
    let mut rest = text;
    while !rest.is_empty() {
        let (line, after) = cut_line(rest);
        found = found.add(alloc, line)?;
        rest = after;
    }
    Ok(found)
}

/// What the text says, or its first fault by line. It says nothing of whether a machine may start so.
#[tactic(auto, unfolding(crate::specs::Script::scripted))]
pub fn read_lines(alloc: Global, text: &[u8]) -> Result<Gathered, TraceFault>
    requires lines { length (lines_of text.now) < 2 ^ 32 - 1 }
    ensures read { ReadsTrace (λ g. g) result (scripted text.now) }
    ensures few { IfOk result (λ g. count_of g.lines ≤ 1000000) }
    ensures by_line { (n : ℕ) → result ≢ Err (NotAdmitted n) }
{
    let found = gather(alloc, text)?;
    if found.place.begun {
        Ok(found)
    } else {
        Err(TraceFault::BadLine(found.count + 1))
    }
}
