//! Words of the lines of a block.

use kc_cases::{hex_bytes, number};
use kc_exec::{Access, Touch};
use kc_machine::StepEnd;
use std::alloc::Global;

/// What stands after this word in the first line that begins with it.
pub(crate) fn rest_of<'a>(text: &'a str, word: &str) -> Option<&'a str> {
    for line in text.lines() {
        if let Some((first, rest)) = line.split_once(' ') {
            if first == word {
                return Some(rest);
            }
        }
    }
    None
}

// Appends the bytes that a line tells: an address, and the bytes from there on.
fn add_bytes(alloc: Global, list: &mut Vec<(u64, u8)>, rest: &str) -> Option<()> {
    let (at, digits) = rest.split_once(' ')?;
    let mut at = number(at)?;
    let bytes = hex_bytes(alloc, digits).ok()?;
    for byte in bytes.iter() {
        list.push((at, *byte)).ok()?;
        at = at.wrapping_add(1);
    }
    Some(())
}

/// Appends the bytes of all lines that begin with this word, in their order.
pub(crate) fn add_all(
    alloc: Global,
    list: &mut Vec<(u64, u8)>,
    text: &str,
    word: &str,
) -> Option<()> {
    for line in text.lines() {
        if let Some((first, rest)) = line.split_once(' ') {
            if first == word {
                add_bytes(alloc, list, rest)?;
            }
        }
    }
    Some(())
}

fn touch_word(touch: Touch) -> &'static str {
    match touch {
        Touch::Fetch => "fetch",
        Touch::Read => "read",
        Touch::Write => "write",
    }
}

// Whether the words say the size, and whether GS went into the address.
fn has_size(access: &Access, words: &str) -> Option<bool> {
    let (digits, gs) = match words.strip_suffix(" gs") {
        Some(digits) => (digits, true),
        None => (words, false),
    };
    let size = u8::from_str_radix(digits, 10).ok()?;
    Some(access.size == size && access.gs == gs)
}

// Whether the words `TOUCH ADDRESS SIZE`, with ` gs` where GS went into the address, say the access.
fn is_access(access: &Access, words: &str) -> Option<bool> {
    let (touch, rest) = words.split_once(' ')?;
    let (at, rest) = rest.split_once(' ')?;
    let is_there = touch == touch_word(access.touch) && number(at)? == access.at;
    Some(is_there && has_size(access, rest)?)
}

/// Whether the words, apart by `; `, say the accesses in their order.
pub(crate) fn are_accesses(accesses: &[Access], words: &str) -> Option<bool> {
    if words.is_empty() {
        return Some(accesses.is_empty());
    }
    let mut left = accesses.iter();
    for part in words.split("; ") {
        let Some(access) = left.next() else {
            return Some(false);
        };
        if !is_access(access, part)? {
            return Some(false);
        }
    }
    Some(left.next().is_none())
}

/// Whether the word says the end of a turn.
pub(crate) fn is_end(end: StepEnd, word: &str) -> bool {
    match end {
        StepEnd::Done => word == "done",
        StepEnd::NotAllowed => word == "not allowed",
        StepEnd::Stopped => word == "stopped",
        StepEnd::Broke(number) => is_break(number, word),
    }
}

fn is_break(number: u8, word: &str) -> bool {
    match word.strip_prefix("break B") {
        Some(digits) => u8::from_str_radix(digits, 10).ok() == Some(number),
        None => false,
    }
}
