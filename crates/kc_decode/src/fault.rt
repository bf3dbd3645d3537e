//! Why bytes could not be decoded.

/// Why no prefix of the bytes is spelled, whatever the number of its bytes.
#[derive(Clone, Copy)]
pub enum DraftFault {
    /// The bytes are a proper prefix of what is spelled.
    Short,
    /// Nothing that is spelled begins so.
    Unknown,
}

/// Why no prefix of the bytes is an instruction of the grammar.
#[derive(Clone, Copy, PartialEq, Eq, Debug)]
pub enum DecodeFault {
    /// The bytes are a proper prefix of an instruction.
    Short = 1,
    /// No instruction begins so.
    Unknown = 2,
    /// An instruction would begin so if more than fifteen bytes were allowed.
    TooLong = 3,
}
