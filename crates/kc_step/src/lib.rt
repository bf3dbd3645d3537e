//! The step of one instruction: laws on definitions of the model and of the analysis. Nothing here runs.
#![tactic(auto)]

mod laws;

pub use laws::{quiet, stepped};
