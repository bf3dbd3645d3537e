//! Replaying a trace: its lines as turns, the run on a machine, and what is told of it. This project's own.
#![tactic(auto)]

mod lines;
mod run;
mod script;
mod turns;
mod values;

pub use run::{Replayed, one_text, replay_text};
pub use script::{Script, read_trace};
pub use turns::{first_set, turn_at};
