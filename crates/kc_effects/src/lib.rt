//! Laws of all instructions but returns: what the analysis knows after one stands for what the processor
//! leaves. Nothing here runs.
#![tactic(auto)]

mod laws;

pub use laws::{covered, spelled};
