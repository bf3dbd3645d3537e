//! Traces: the text of a run's turns, and its reader. This project's own.
#![tactic(auto)]

mod assignment;
mod fault;
mod form;
mod gathered;
mod line;
mod number;
mod words;

pub use assignment::Assignment;
pub use fault::TraceFault;
pub use gathered::{Gathered, read_lines};
pub use line::Line;
