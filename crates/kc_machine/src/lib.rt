//! The machine: a description, an image and a state, the start of a run and one step of it.
#![tactic(auto)]

mod cause;
mod chain;
mod code;
mod end;
mod event;
mod fetcher;
mod handler;
mod judge;
mod machine;
mod one_region;
mod start;
mod user;

pub use end::{StartEnd, StepEnd};
pub use machine::Machine;
pub use start::may_start;
