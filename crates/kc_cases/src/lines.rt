//! Numbers and bytes as files of cases write them.

use hex::FromHexError;
use kc_plain::NoMemory;
use std::alloc::Global;

/// `0x` and hexadecimal digits.
pub fn number(text: &str) -> Option<u64> {
    match u64::from_str_radix(text.strip_prefix("0x")?, 16) {
        Ok(n) => Some(n),
        Err(_) => None,
    }
}

/// The bytes of a text of pairs of hexadecimal digits; none of another text.
pub fn hex_bytes(alloc: Global, text: &str) -> Result<Vec<u8>, NoMemory> {
    match hex::decode(alloc, text) {
        Ok(bytes) => Ok(bytes),
        Err(FromHexError::OutOfMemory) => Err(NoMemory),
        Err(_) => Ok(Vec::new(alloc)),
    }
}
