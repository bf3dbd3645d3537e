//! What is printed of a trace says the trace. This project's own.
#![tactic(auto)]

mod laws;

pub use laws::printed_then_read;
