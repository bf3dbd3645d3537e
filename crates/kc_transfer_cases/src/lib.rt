//! Cases of instructions and of handlers' ends: a description, a key, a state before and an instruction
//! at its address, ` -> `, and what `transfer` or `leave_abs` answers, a line.
#![tactic(auto)]

mod answers;
mod transfer_cases;

pub use answers::Answer;
pub use transfer_cases::TransferCases;
