//! An edit of the user's saved frame.

ghost use Rattle.kc_body.specs.Edit.{EditIsDescribed};

/// A handler's edit of the user's frame leaves a machine that the same state describes.
pub fn edited()
    ensures described { EditIsDescribed }
{}
