//! Cases of turns: a state that a short trace reaches, and turns that are tried there, each from that state alone. A
//! block of lines says a state and its turns; a line's first word says what it tells.
#![tactic(auto)]

mod block;
mod due;
mod reached;
mod words;

pub use block::{Block, Samples};
