//! Laws of moves and of the stack: what the analysis knows after such an instruction stands for what the
//! processor leaves. Nothing here runs.
#![tactic(auto)]

mod rows;

pub use rows::{move_rows, plain_rows};
