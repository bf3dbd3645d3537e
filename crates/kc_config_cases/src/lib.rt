//! Cases of descriptions from outside this repository: edits of a file, and what is read or the fault that
//! comes of it.
#![tactic(auto)]

mod answers;
mod case;
mod files;
mod lines;
mod values;

pub use files::run;
