//! Bytes to instructions: the decoder of the instruction grammar.
#![tactic(auto)]

mod decoder;
mod draft;
mod fault;
mod fields;
mod form;
mod immediate;
mod length;
mod operand;
mod prefixes;
mod reading;
mod table;
mod tail;

pub use decoder::{decode, one_reading};
pub use fault::DecodeFault;
