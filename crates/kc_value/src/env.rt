//! What the symbols of values name, this project's own.

use kc_words::Span;

/// The concrete side of a value: an interrupted processor, an activation's base, and the stacks.
#[derive(Clone, Copy, PartialEq, Eq, Debug)]
pub struct ValueEnv {
    /// The interrupted processor of the newest activation: its 16 registers, RIP, RFLAGS, CS and SS.
    pub words: [u64; 20],
    /// The newest activation's base.
    pub base: u64,
    /// The active GS base of the processor that the chain's oldest activation interrupted.
    pub user_gs: u64,
    /// The stacks in order; those past the last stack are empty.
    pub stacks: [Span; 16],
}
