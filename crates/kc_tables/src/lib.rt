//! Tables and files of cases, as tests and benches read them.
#![tactic(auto)]

mod case;
mod file;

pub use case::{Case, Unread, case_of, number};
pub use file::{Tally, beside};
