//! The constants of a certificate's bytes.

/// The first bytes of each certificate.
pub const MAGIC: [u8; 8] = *b"ENTRYCRT";

/// The most stacks of a certificate.
pub const MAX_STACKS: u8 = 16;

/// The version in which each node has its state.
pub const PLAIN: u32 = 1;

/// The version in which a node may share the state of an earlier one.
pub const SHARED: u32 = 2;
