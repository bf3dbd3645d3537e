//! What the state after an event's return says of the machine.

ghost use Rattle.kc_after.specs.After.{AfterReturnDescribes};

/// Where an event comes back to the context that it interrupted, with the latches of its summary, and has
/// changed nothing but what its clobber holds, the state after its return describes the machine.
pub fn after_event()
    ensures described { AfterReturnDescribes }
{}
