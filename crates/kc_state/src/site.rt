//! Program points, this project's own.

/// An instruction's address, or the body of the handler that the call there enters. Sites are
/// ordered by address, the instruction before the body.
#[derive(Clone, Copy, PartialEq, Eq, PartialOrd, Ord, Debug)]
pub struct Site {
    pub at: u64,
    pub inside: bool,
}
