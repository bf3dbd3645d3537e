//! Laws of what a C handler does while it runs. Nothing here runs.
#![tactic(auto)]

mod body;
mod edit;

pub use body::ran;
pub use edit::edited;
