//! The lines of a listing.

use kc_insn::Insn;

/// A line of a listing.
#[derive(Clone, Copy, PartialEq, Eq, Debug)]
pub enum Line {
    /// What follows stands at this address; the gap before it is filled with NOPs.
    At(u64),
    /// An instruction.
    Code(Insn),
}
