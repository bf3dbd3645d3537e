//! Laws of C handlers, which kernel code calls: what the analysis says of the machine while one runs, it
//! says after the handler's turns too. Nothing here runs.
#![tactic(auto)]

mod enter;
mod leave;

pub use enter::entered;
pub use leave::left;
