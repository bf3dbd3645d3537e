//! A case of a description, read line by line.

use crate::lines::unescape;
use std::alloc::Global;
use std::io;

/// A description as edits of a file, and what is read or the fault that comes of it.
#[derive(Drop)]
pub(crate) struct Case {
    pub(crate) name: String,
    pub(crate) base: String,
    pub(crate) image: String,
    /// Texts that are replaced, each with what takes its place.
    pub(crate) edits: Vec<(Vec<u8>, Vec<u8>)>,
    old: Vec<u8>,
    pub(crate) appended: Vec<u8>,
    pub(crate) answer: String,
    /// Paths with the values that are read there.
    pub(crate) values: Vec<String>,
}

impl Case {
    /// The case without a line.
    pub(crate) fn new(alloc: Global) -> io::Result<Case> {
        Ok(Case {
            name: String::new(alloc),
            base: String::from_str(alloc, "s1.toml")?,
            image: String::from_str(alloc, "s1.img")?,
            edits: Vec::new(alloc),
            old: Vec::new(alloc),
            appended: Vec::new(alloc),
            answer: String::new(alloc),
            values: Vec::new(alloc),
        })
    }

    /// Reads a line of the case: its first word says what it tells.
    pub(crate) fn read_line(&mut self, alloc: Global, line: &str) -> io::Result<()> {
        let (word, rest) = line.split_once(' ').unwrap_or((line, ""));
        match word {
            "case" => self.name = String::from_str(alloc, rest)?,
            "base" => self.base = String::from_str(alloc, rest)?,
            "image" => self.image = String::from_str(alloc, rest)?,
            "old" => self.old = unescape(alloc, rest)?,
            "new" => self.add_edit(alloc, rest)?,
            "append" => self.appended = unescape(alloc, rest)?,
            "->" => self.answer = String::from_str(alloc, rest)?,
            "value" => self.values.push(String::from_str(alloc, rest)?)?,
            _ => {}
        }
        Ok(())
    }

    /// The old text that was read last, and what takes its place.
    fn add_edit(&mut self, alloc: Global, new: &str) -> io::Result<()> {
        let old = Vec::from_slice(alloc, &self.old)?;
        self.edits.push((old, unescape(alloc, new)?))?;
        Ok(())
    }
}
