//! A law of certificates: what is read has a spelling.
#![tactic(auto)]

mod laws;

pub use laws::read_has_spelling;
