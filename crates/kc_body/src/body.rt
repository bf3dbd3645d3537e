//! A step of a handler.

ghost use Rattle.kc_body.specs.Body.{BodyIsCovered};

/// A handler's step breaks nothing, and the state that held before it describes what it leaves.
pub fn ran()
    ensures covered { BodyIsCovered }
{}
