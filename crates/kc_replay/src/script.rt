//! Reading a trace for a description.

ghost use Rattle.std.specs.Prelude.{◌≡◌, ◌<◌, ◌-◌, ◌^◌, ◌≤◌, length};
ghost use Rattle.kc_trace.specs.Words.{lines_of};
ghost use Rattle.kc_trace.specs.Script.{count_of};
ghost use Rattle.kc_replay.specs.Script.{Reads};

use crate::turns::first_set;
use kc_machine::may_start;
use kc_plain::Items;
use kc_regions::Config;
use kc_trace::{Line, TraceFault, read_lines};
use std::alloc::Global;
use std::marker::Model;

/// The lines of a trace, `start` first. They are at most 1,000,000 turns.
#[derive(Drop)]
pub struct Script {
    lines: Items<Line>,
}

impl Model for Script {
    ghost use Rattle.std.specs.Prelude.{List, ◌≤◌};
    ghost use Rattle.kc_trace.specs.declared.line.Line.{Line};
    ghost use Rattle.kc_trace.specs.Script.{count_of};

    ghost Value = { List Line };

    ghost view = { λ s. s.lines };

    ghost invariant = { λ s. count_of s.lines ≤ 1000000 };
}

impl Script {
    /// The lines in their order.
    pub fn lines(&self) -> &[Line]
        ensures lines { result.now ≡ self.now }
        ensures few { count_of self.now ≤ 1000000 }
    {
        self.lines.as_slice()
    }
}

/// Reads the text: its lines, or its first fault. `NotAdmitted` comes where no line has a fault and
/// user code can't start under the description as the first lines say.
pub fn read_trace(alloc: Global, cfg: &Config, text: &[u8]) -> Result<Script, TraceFault>
    requires lines { length (lines_of text.now) < 2 ^ 32 - 1 }
    ensures reads { Reads cfg.now text.now result }
{
    let found = read_lines(alloc, text)?;
    let first = first_set(alloc, cfg, found.lines.as_slice())?;
    if may_start(cfg, &first) {
        Ok(Script { lines: found.lines })
    } else {
        Err(TraceFault::NotAdmitted(found.start))
    }
}
