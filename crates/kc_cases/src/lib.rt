//! Cases of the model from outside this repository, in the form in which files and tables write them.
#![tactic(auto)]

mod exec_case;
mod files;
mod lines;
mod states;

pub use exec_case::ExecCase;
pub use files::run;
pub use lines::{hex_bytes, number};
pub use states::Processor;
