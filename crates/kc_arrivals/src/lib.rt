//! Which events may come: laws on definitions of the model and of the analysis. Nothing here runs.
#![tactic(auto)]

mod laws;

pub use laws::{in_kernel, in_user};
