//! Laws of arithmetic: what the analysis knows of numbers, flags and conditions covers what the
//! processor has. Nothing here runs.
#![tactic(auto)]

mod flags;
mod masks;
mod operations;
mod rows;

pub use flags::{conditions, flag_changes, modelled_flags};
pub use masks::{flags_replaced, halves, widths, words};
pub use operations::{arithmetic, bit_tests};
pub use rows::{arithmetic_rows, branch_rows, flag_rows, operands};
