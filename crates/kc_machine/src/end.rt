//! How a step and a start end.

ghost use Rattle.std.specs.Prelude.{◌≡◌};
ghost use Rattle.kc_events.specs.Run.{halted};

use kc_exec::State;

/// How a step ends.
#[derive(Clone, Copy, PartialEq, Eq, Debug)]
pub enum StepEnd {
    /// The turn may not come here. Nothing changed.
    NotAllowed,
    /// The turn was taken.
    Done,
    /// An access has a byte in a guard. The machine is stopped.
    Stopped,
    /// The least break, 1 to 8. The machine is stopped.
    Broke(u8),
}

/// Why a machine doesn't start.
#[derive(Clone, Copy, PartialEq, Eq, Debug)]
pub enum StartEnd {
    /// The processor isn't an admitted one, or a write names a byte of a word that the description
    /// sets.
    NotAdmitted,
    /// Out of memory.
    NoMemory,
}

/// Stops the machine with this end.
pub(crate) fn halt(state: &mut State, end: StepEnd) -> StepEnd
    ensures state { state.new ≡ halted state.old }
    ensures end { result ≡ end }
{
    state.stopped = true;
    end
}
