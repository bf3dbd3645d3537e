//! Known bits of 64-bit words, with logic, sums and differences that are sound and monotone.
#![tactic(auto)]

mod bits;

pub use bits::Bits;
