//! Why a trace is refused, this project's own.

ghost use Rattle.std.specs.Prelude.{◌≡◌};
ghost use Rattle.kc_trace.specs.Faults.{no_line_memory, no_trace_memory};

use kc_plain::NoMemory;
use std::alloc::{AllocError, AllocFailed};

/// The first fault of a trace, with the number of its line, counted from 1.
#[derive(Clone, Copy, PartialEq, Eq, Debug)]
pub enum TraceFault {
    /// The line has no form of the table, or one that may not stand there. Where no line counts,
    /// this is the number after the last line.
    BadLine(u32),
    /// A word in a number's place is no number, or is out of its range.
    BadNumber(u32),
    /// The machine may not start so; this is the number of the line `start`.
    NotAdmitted(u32),
    /// Memory ran out; nothing is said of the text.
    NoMemory,
}

impl From<NoMemory> for TraceFault {
    ghost from_gives = { λ _ e. e ≡ no_trace_memory };

    fn from(_error: NoMemory) -> TraceFault {
        TraceFault::NoMemory
    }
}

/// Why a line is refused.
#[derive(Clone, Copy, PartialEq, Eq, Debug)]
pub(crate) enum LineFault {
    /// It has no form, or one that may not stand there.
    Form,
    /// A word in a number's place is none, or is out of its range.
    Number,
    /// Memory ran out.
    NoMemory,
}

impl From<NoMemory> for LineFault {
    ghost from_gives = { λ _ e. e ≡ no_line_memory };

    fn from(_error: NoMemory) -> LineFault {
        LineFault::NoMemory
    }
}

impl From<AllocError> for LineFault {
    ghost from_gives = { λ _ e. e ≡ no_line_memory };

    fn from(_error: AllocError) -> LineFault {
        LineFault::NoMemory
    }
}

impl<T: Drop> From<AllocFailed<T>> for LineFault {
    ghost from_gives = { λ _ e. e ≡ no_line_memory };

    fn from(_error: AllocFailed<T>) -> LineFault {
        LineFault::NoMemory
    }
}
