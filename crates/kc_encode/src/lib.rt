//! Instructions to bytes: the chosen spelling of each.
#![tactic(auto)]

mod encodable;
mod encoder;
mod fault;
mod forms;
mod jump;
mod number;
mod opcode;
mod operand;
mod rex;

pub use encodable::has_spelling;
pub use encoder::{encode, round_trip};
pub use fault::EncodeFault;
