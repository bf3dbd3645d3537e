//! Why an encodable instruction has no bytes.

/// Why an encodable instruction wasn't encoded.
#[derive(Clone, Copy, PartialEq, Eq, Debug)]
pub enum EncodeFault {
    /// The target's distance from the end of the instruction isn't a signed 32-bit number.
    OutOfReach,
    /// There was no memory for the bytes.
    NoMemory,
}
