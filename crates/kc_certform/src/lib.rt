//! What a writer and a reader of a certificate's bytes share: the form of the bytes, and the states
//! that were written so far, found by an order of states.
#![tactic(auto)]

mod form;
mod order;
mod written;

pub use form::{MAGIC, MAX_STACKS, PLAIN, SHARED};
pub use order::order_states;
pub use written::{Found, Written};
