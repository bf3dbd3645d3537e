//! Laws of the stack: what the analysis knows after pushes, pops, calls and RET stands for what the
//! processor leaves. Nothing here runs.
#![tactic(auto)]

mod rows;

pub use rows::{call_rows, pop_rows, push_rows};
