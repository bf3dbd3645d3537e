//! The call of a handler.

ghost use Rattle.kc_calls.specs.Entered.{CallIsCovered};

/// After the call of a handler the state with the call's changes describes the machine while it runs.
pub fn entered()
    ensures covered { CallIsCovered }
{}
