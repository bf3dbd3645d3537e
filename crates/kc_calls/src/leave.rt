//! The end of a handler.

ghost use Rattle.kc_calls.specs.Laws.{LeaveIsCovered};

/// A handler's end breaks nothing, and the state after it describes the code that goes on.
pub fn left()
    ensures covered { LeaveIsCovered }
{}
