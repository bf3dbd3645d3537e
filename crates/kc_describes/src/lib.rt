//! What an abstract state says of the machine: `specs`, the laws of `laws`, and the lemmas on accesses
//! and operands of `proofs`, on which the soundness of the abstract steps rests.
#![tactic(auto)]

mod laws;

pub use laws::{greater, moves, places, slots};
