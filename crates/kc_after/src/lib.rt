//! What is known after an event's return: a law on definitions of the model and of the analysis. Nothing here runs.
#![tactic(auto)]

mod laws;

pub use laws::after_event;
