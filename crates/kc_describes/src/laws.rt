//! What the definitions of the analysis mean on the machine.

ghost use Rattle.kc_describes.specs.Laws.{LocationIsAddress, MayIsPermitted, ClearIsNotLive, LoadStands, StoreStands, CalledStands, ShiftStands, GreaterDescribes};

/// Laws on definitions, with nothing to run: where a value points, what may be accessed there, and
/// which bytes aren't live.
pub fn places()
    ensures address { LocationIsAddress }
    ensures permitted { MayIsPermitted }
    ensures not_live { ClearIsNotLive }
{}

/// The same of the tracked words: loads, stores, and the changes of a handler's call.
pub fn slots()
    ensures load { LoadStands }
    ensures store { StoreStands }
    ensures call { CalledStands }
{}

/// The same of values that are moved by a number.
pub fn moves()
    ensures shift { ShiftStands }
{}

/// The same of a state above one that describes.
pub fn greater()
    ensures describes { GreaterDescribes }
{}
