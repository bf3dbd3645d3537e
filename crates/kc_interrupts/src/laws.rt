//! What an event finds that interrupts the kernel: where RSP lies, and which bytes are live.

ghost use Rattle.kc_interrupts.specs.Interrupts.{PlaceIsStack, FloorsBoundAll, PushedFrameIsFree};

/// Where C4 holds, RSP lies in the stack in which the state says that it does.
pub fn found_rsp()
    ensures stack { PlaceIsStack }
{}

/// The floors of all that is interrupted bound the live bytes of the chain with the new activation.
pub fn floored()
    ensures bound { FloorsBoundAll }
{}

/// A frame that may be pushed below a constant base has no live byte.
pub fn pushed()
    ensures free { PushedFrameIsFree }
{}
