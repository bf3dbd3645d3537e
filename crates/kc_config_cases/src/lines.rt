//! Words of the files of test data.

use std::alloc::Global;
use std::io;

/// What a byte of an escaped text stands for, by those before it.
#[derive(Clone, Copy)]
enum Escape {
    None,
    Backslash,
    High,
    Low(u8),
}

/// The bytes of a text, where `\n`, `\r`, `\t`, `\\` and `\xHH` stand for what they stand for in Rust.
pub(crate) fn unescape(alloc: Global, text: &str) -> io::Result<Vec<u8>> {
    let mut bytes = Vec::new(alloc);
    let mut escape = Escape::None;
    for byte in text.as_bytes() {
        match escape {
            Escape::None => {
                if *byte == b'\\' {
                    escape = Escape::Backslash;
                } else {
                    bytes.push(*byte)?;
                }
            }
            Escape::Backslash => {
                if *byte == b'x' {
                    escape = Escape::High;
                } else {
                    bytes.push(escaped(*byte))?;
                    escape = Escape::None;
                }
            }
            Escape::High => escape = Escape::Low(digit(*byte)),
            Escape::Low(high) => {
                bytes.push(high.wrapping_mul(16) | digit(*byte))?;
                escape = Escape::None;
            }
        }
    }
    Ok(bytes)
}

/// What the byte after a backslash stands for.
fn escaped(byte: u8) -> u8 {
    match byte {
        b'n' => b'\n',
        b'r' => b'\r',
        b't' => b'\t',
        _ => byte,
    }
}

/// The value of a hexadecimal digit in lower case.
fn digit(byte: u8) -> u8 {
    if b'a' <= byte {
        byte.wrapping_sub(b'a').wrapping_add(10)
    } else {
        byte.wrapping_sub(b'0')
    }
}

/// The text with `new` in the place of `old`, where `old` stands in it.
pub(crate) fn replace(
    alloc: Global,
    text: &[u8],
    old: &[u8],
    new: &[u8],
) -> io::Result<Option<Vec<u8>>> {
    let Some((front, back)) = around(text, old) else {
        return Ok(None);
    };
    let mut bytes = Vec::from_slice(alloc, front)?;
    bytes.extend_from_slice(new)?;
    bytes.extend_from_slice(back)?;
    Ok(Some(bytes))
}

/// What stands before and after the first `old`.
fn around<'a>(text: &'a [u8], old: &[u8]) -> Option<(&'a [u8], &'a [u8])> {
    for at in 0..text.len() {
        if let Some(back) = text[at..].strip_prefix(old) {
            return Some((&text[..at], back));
        }
    }
    None
}
