//! The text of an instruction, as an assembler's listing has it.
#![tactic(auto)]

mod digits;
mod line;
mod names;
mod operands;
mod write;

pub use digits::write_digits;
pub use line::LONGEST_TEXT;
pub use write::write_insn;
