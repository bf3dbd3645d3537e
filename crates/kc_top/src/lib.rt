//! The program as one call: from words and files to a status and what is written.
#![tactic(auto)]

mod cert;
mod check;
mod command;
mod explain;
mod find;
mod generated;
mod lines;
mod load;
mod memory;
mod numbers;
mod operand;
mod outcome;
mod print;
mod process;
mod replay;
mod request;
mod search;
mod status;
mod stop;
mod upgrade;
mod verdict;
mod words;

pub use command::{one_outcome, run};
pub use memory::run_in_memory;
pub use outcome::Outcome;
pub use print::print_checked;
pub use process::run_process;
pub use status::Status;
pub use words::Words;
