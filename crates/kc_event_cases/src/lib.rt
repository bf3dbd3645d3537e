//! Cases of events: which may come, what a delivery enters, what holds after an event's return, and the
//! test of a return; a call with its arguments, ` -> `, and the result, a line.
#![tactic(auto)]

mod deliveries;
mod event_cases;
mod events;
mod returns;

pub use event_cases::EventCases;
