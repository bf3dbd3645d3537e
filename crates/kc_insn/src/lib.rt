//! The instructions of kernel entry code that entrycert knows.
#![tactic(auto)]

mod encodable;
mod insn;
mod rex;

pub use insn::{AluOp, Base, BitOp, Insn, Mem, Place, Reg, Source};
pub use rex::Rex;
