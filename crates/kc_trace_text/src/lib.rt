//! The text of a trace, written to a sink without memory. This project's own.
#![tactic(auto)]

mod assignments;
mod bytes;
mod line;
mod print;
mod turns;

pub use line::LONGEST_LINE;
pub use print::print_trace;
