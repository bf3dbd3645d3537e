//! Where the program goes on, this project's own.

/// The successors of an instruction.
#[derive(Clone, Copy, PartialEq, Eq, Debug)]
pub enum Succ {
    /// The instruction after it.
    Falls,
    /// The one at this address.
    Jumps(u64),
    /// Either of the two.
    Branches(u64),
    /// The body of the handler of this number.
    Calls(u16),
    /// The interrupted context.
    Returns,
}
