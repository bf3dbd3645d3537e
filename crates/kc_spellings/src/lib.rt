//! A law of certificates: each of the two spellings is read as the certificate, and nothing else is read.
#![tactic(auto)]

mod laws;

pub use laws::two_spellings;
