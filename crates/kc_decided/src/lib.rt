//! Laws: the rules of a description and the conditions on a certificate always come to one answer, and to no other.
#![tactic(auto)]

mod laws;

pub use laws::{one_refusal, one_rule_fault};
