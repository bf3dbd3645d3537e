//! Laws of what an event finds that interrupts the kernel. Nothing here runs.
#![tactic(auto)]

mod laws;

pub use laws::{floored, found_rsp, pushed};
