//! What the definitions of returns mean on the machine.

ghost use Rattle.kc_returns.specs.Returns.{FlagsReload, SelectorsAreDue, SpacesAreKept, LatchesFollow};
ghost use Rattle.kc_returns.specs.Whole.{StepPassesReturn, FrameIsDue, ReturnIsCovered};

/// Laws on definitions, with nothing to run: what a return loads is what the interrupted context had,
/// where the words and the spaces are that context's.
pub fn loads()
    ensures flags { FlagsReload }
    ensures selectors { SelectorsAreDue }
    ensures spaces { SpacesAreKept }
    ensures latches { LatchesFollow }
{}

/// A whole return: where the conditions on it hold, it breaks nothing, and leads to a stopped machine or
/// to the context that is due.
pub fn returned()
    // They hold where the step of the analysis is answered.
    ensures passes { StepPassesReturn }
    ensures covered { ReturnIsCovered }
    // The words that an IRETQ reads are those of that context.
    ensures frame { FrameIsDue }
{}
