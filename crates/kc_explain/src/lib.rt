//! What a refused certificate is explained by: the line of the refusal, what is known where the condition fails, and
//! what the condition asks.
#![tactic(auto)]

mod because;
mod explanation;
mod known;
mod line;
mod refused;

pub use explanation::explain;
pub use line::LONGEST_LINE;
pub use refused::write_refusal;
