//! Deliveries of events: laws on the definitions of the model and of the analysis. Nothing here runs.
#![tactic(auto)]

mod laws;

pub use laws::{by_syscall, from_user};
