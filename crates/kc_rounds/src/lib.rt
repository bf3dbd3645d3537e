//! The law of a search that visits in each round what has changed.
#![tactic(auto)]

mod laws;

pub use laws::listed_round;
