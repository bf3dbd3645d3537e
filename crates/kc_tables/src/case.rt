//! Tables as text: a case a line, its columns apart by ` | `. Bytes are two hexadecimal digits each with a
//! space between them, numbers are hexadecimal, with or without `0x`. An empty line and a line that begins
//! with `#` are no case.

use std::alloc::{AllocError, Global};
use std::num::ParseIntError;

/// Why a column isn't read.
#[derive(Clone, Copy, Debug, Drop)]
pub enum Unread {
    /// It has another form.
    Column,
    NoMemory,
}

impl From<AllocError> for Unread {
    fn from(_fault: AllocError) -> Unread {
        Unread::NoMemory
    }
}

impl From<ParseIntError> for Unread {
    fn from(_fault: ParseIntError) -> Unread {
        Unread::Column
    }
}

/// A case of a table, whose columns are read from left to right.
#[derive(Clone, Copy)]
pub struct Case<'a> {
    left: &'a str,
}

/// The case that a line of a table holds, if it holds one.
pub fn case_of(line: &str) -> Option<Case<'_>> {
    if line.is_empty() || line.starts_with('#') {
        None
    } else {
        Some(Case { left: line })
    }
}

/// A number: hexadecimal digits, with or without `0x`.
pub fn number(text: &str) -> Result<u64, Unread> {
    let digits = text.strip_prefix("0x").unwrap_or(text);
    Ok(u64::from_str_radix(digits, 16)?)
}

impl<'a> Case<'a> {
    /// The next column; empty after the last one.
    pub fn text(&mut self) -> &'a str {
        let whole = self.left;
        match whole.split_once(" | ") {
            Some((column, rest)) => {
                self.left = rest;
                column
            }
            None => {
                self.left = "";
                whole
            }
        }
    }

    /// The next column, a number.
    pub fn number(&mut self) -> Result<u64, Unread> {
        number(self.text())
    }

    /// The next column, a number; `-` is none.
    pub fn number_or_none(&mut self) -> Result<Option<u64>, Unread> {
        let mut ahead = *self;
        if ahead.text() == "-" {
            *self = ahead;
            Ok(None)
        } else {
            Ok(Some(self.number()?))
        }
    }

    /// The next column, `yes` or `no`.
    pub fn answer(&mut self) -> Result<bool, Unread> {
        match self.text() {
            "yes" => Ok(true),
            "no" => Ok(false),
            _ => Err(Unread::Column),
        }
    }

    /// The next column, any number of bytes; `-` is none.
    pub fn bytes(&mut self, alloc: Global) -> Result<Vec<u8>, Unread> {
        let mut bytes = Vec::new(alloc);
        let column = self.text();
        if column != "-" {
            for digits in column.split_whitespace() {
                let byte = u8::from_str_radix(digits, 16)?;
                if bytes.push(byte).is_err() {
                    return Err(Unread::NoMemory);
                }
            }
        }
        Ok(bytes)
    }

    /// The next column, lines with ` / ` between them; each ends with a newline.
    pub fn lines(&mut self, alloc: Global) -> Result<String, Unread> {
        let mut text = String::new(alloc);
        for line in self.text().split(" / ") {
            text.push_str(line)?;
            text.push('\n')?;
        }
        Ok(text)
    }
}
