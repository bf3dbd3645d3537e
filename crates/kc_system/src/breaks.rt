//! Instructions break nothing where the conditions on them hold.

ghost use Rattle.kc_system.specs.Forbidden.{BreaksNothing};

/// B6, B7 and B8, of every instruction.
pub fn unbroken()
    ensures nothing { BreaksNothing }
{}
