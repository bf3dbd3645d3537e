//! Edits of bytes, as tables tell them: with ` ; ` between them, `put AT BYTES` in the place of as many, `ins AT BYTES` before
//! the one at AT, `del AT COUNT`, `dup FROM COUNT AT` a copy of bytes before the one at AT, `cut LENGTH` the first ones alone,
//! `add BYTES` behind all. Numbers are hexadecimal, and so are the digits of bytes; `-` is no edit.

use kc_tables::{Unread, number};
use std::alloc::Global;

/// The bytes, where `gone` from the one at `at` on are replaced by `new`.
pub fn replaced(
    alloc: Global,
    bytes: &[u8],
    at: usize,
    gone: usize,
    new: &[u8],
) -> Result<Vec<u8>, Unread> {
    let (Some(head), Some(tail)) = (bytes.get(..at), bytes.get(at.saturating_add(gone)..)) else {
        return Err(Unread::Column);
    };
    let mut all = Vec::from_slice(alloc, head)?;
    all.extend_from_slice(new)?;
    all.extend_from_slice(tail)?;
    Ok(all)
}

/// The bytes of a word of digits.
fn digits(alloc: Global, word: &str) -> Result<Vec<u8>, Unread> {
    match hex::decode(alloc, word) {
        Ok(bytes) => Ok(bytes),
        Err(_) => Err(Unread::Column),
    }
}

/// The bytes after one edit.
fn edited_once(alloc: Global, bytes: &[u8], edit: &str) -> Result<Vec<u8>, Unread> {
    let mut words = edit.split(' ');
    let kind = words.next().unwrap_or("");
    let first = words.next().unwrap_or("");
    let second = words.next().unwrap_or("");
    if kind == "add" {
        return replaced(alloc, bytes, bytes.len(), 0, &digits(alloc, first)?);
    }
    let at = number(first)? as usize;
    match kind {
        "put" => {
            let new = digits(alloc, second)?;
            replaced(alloc, bytes, at, new.len(), &new)
        }
        "ins" => replaced(alloc, bytes, at, 0, &digits(alloc, second)?),
        "del" => replaced(alloc, bytes, at, number(second)? as usize, b""),
        "cut" => replaced(alloc, bytes, at, bytes.len().saturating_sub(at), b""),
        "dup" => {
            let end = at.saturating_add(number(second)? as usize);
            let Some(copy) = bytes.get(at..end) else {
                return Err(Unread::Column);
            };
            let to = number(words.next().unwrap_or(""))? as usize;
            replaced(alloc, bytes, to, 0, copy)
        }
        _ => Err(Unread::Column),
    }
}

/// The bytes after these edits, one after another.
pub fn edited(alloc: Global, bytes: &[u8], edits: &str) -> Result<Vec<u8>, Unread> {
    let mut all = Vec::from_slice(alloc, bytes)?;
    if edits != "-" {
        for edit in edits.split(" ; ") {
            all = edited_once(alloc, &all, edit)?;
        }
    }
    Ok(all)
}

/// The text after these edits, one after another: each replaces what stands there first.
pub fn edited_text(alloc: Global, text: &[u8], edits: &str) -> Result<Vec<u8>, Unread> {
    let mut all = Vec::from_slice(alloc, text)?;
    if edits != "-" {
        for edit in edits.split(" ;; ") {
            let Some((old, new)) = edit.split_once(" => ") else {
                return Err(Unread::Column);
            };
            all = replaced_text(alloc, &all, old, new)?;
        }
    }
    Ok(all)
}

/// The text with `new` in the place of `old`.
fn replaced_text(alloc: Global, text: &[u8], old: &str, new: &str) -> Result<Vec<u8>, Unread> {
    let Ok(text) = std::str::from_utf8(text) else {
        return Err(Unread::Column);
    };
    let Some((front, back)) = text.split_once(old) else {
        return Err(Unread::Column);
    };
    let mut all = Vec::from_slice(alloc, front.as_bytes())?;
    all.extend_from_slice(new.as_bytes())?;
    all.extend_from_slice(back.as_bytes())?;
    Ok(all)
}
