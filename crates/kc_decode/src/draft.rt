//! An instruction before its address is known.

use crate::form::Jump;
use kc_insn::Insn;

/// An instruction, or a jump and the distance of its target from its end.
#[derive(Clone, Copy)]
pub enum Draft {
    Whole(Insn),
    Jump(Jump, i32),
}
