//! Laws of the rounds that lead to the iteration limit: tables that rise by demands, and where the rounds end.
#![tactic(auto)]

mod laws;

pub use laws::{demands_joined, iteration_limit, shorter_round};
