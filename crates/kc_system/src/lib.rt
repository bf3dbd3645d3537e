//! Laws of GS bases, model-specific registers and CR3: what the analysis knows of them, and after the
//! instructions that read and write them, stands for the processor. Nothing here runs.
#![tactic(auto)]

mod breaks;
mod rows;
mod spaces;

pub use breaks::unbroken;
pub use rows::{cr3_rows, gs_rows, msr_rows};
pub use spaces::{cr3_values, gs_bases, msr_bits};
