//! What IRETQ and SYSRETQ give back: laws on definitions of the model and of the analysis.
#![tactic(auto)]

mod laws;

pub use laws::{loads, returned};
