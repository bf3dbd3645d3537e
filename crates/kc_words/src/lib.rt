//! Machine words: operand widths, address spans, little-endian numbers and status flags.
#![tactic(auto)]

mod flags;
mod little_endian;
mod sign;
mod span;
mod width;

pub use flags::{add_flags, logic_flags, sub_flags};
pub use little_endian::le64;
pub use sign::sign32;
pub use span::Span;
pub use width::Width;
