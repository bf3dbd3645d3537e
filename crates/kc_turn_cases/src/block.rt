//! A block: the state that it says, and what is tried there.

use crate::due::{does_as_due, ends_as_due, is_state};
use crate::reached::{Reached, reach};
use crate::words::rest_of;
use kc_cases::{hex_bytes, number};
use kc_exec::State;
use std::alloc::Global;

// A sample: its image, and the text of its description.
#[derive(Drop)]
struct Named {
    name: String,
    image: Vec<u8>,
    text: String,
}

/// The samples that blocks name.
#[derive(Drop)]
pub struct Samples {
    all: Vec<Named>,
}

/// The state of a block, as edits of a sample and a trace.
#[derive(Drop)]
pub struct Block {
    image: Vec<u8>,
    config: String,
    trace: String,
    /// What the state is.
    due: String,
}

impl Samples {
    /// No sample.
    pub fn new(alloc: Global) -> Samples {
        Samples {
            all: Vec::new(alloc),
        }
    }

    /// Adds the sample of the files `name.img` and `name.toml`; nothing where memory is out.
    pub fn add(&mut self, alloc: Global, name: &str, image: Vec<u8>, text: String) -> Option<()> {
        let name = String::from_str(alloc, name).ok()?;
        self.all.push(Named { name, image, text }).ok()
    }

    fn get(&self, name: &str) -> Option<&Named> {
        self.all.iter().find(|sample| sample.name.as_str() == name)
    }
}

// Puts the bytes of the words `OFFSET BYTES` into the image.
fn patch(alloc: Global, image: &mut Vec<u8>, words: &str) -> Option<()> {
    let (at, digits) = words.split_once(' ')?;
    let at = number(at)?;
    let bytes = hex_bytes(alloc, digits).ok()?;
    for (i, byte) in bytes.iter().enumerate() {
        if let Some(place) = image.get_mut((at as usize).wrapping_add(i)) {
            *place = *byte;
        }
    }
    Some(())
}

// The sample's image with the patches.
fn patched(alloc: Global, image: &[u8], head: &str) -> Option<Vec<u8>> {
    let mut image = Vec::from_slice(alloc, image).ok()?;
    for line in head.lines() {
        if let Some(words) = line.strip_prefix("patch ") {
            patch(alloc, &mut image, words)?;
        }
    }
    Some(image)
}

// The text with the end of a line for each `\n`.
fn unescaped(alloc: Global, text: &str) -> Option<String> {
    let mut whole = String::new(alloc);
    for (i, part) in text.split("\\n").enumerate() {
        if i > 0 {
            whole.push('\n').ok()?;
        }
        whole.push_str(part).ok()?;
    }
    Some(whole)
}

// The text with `new` in the place of `old`.
fn replaced(alloc: Global, text: &str, old: &str, new: &str) -> Option<String> {
    let (front, back) = text.split_once(old)?;
    format!(in alloc; "{front}{new}{back}").ok()
}

// The text after the edit of the lines `OLD` and `new NEW`.
fn edited_by(alloc: Global, text: &str, edit: &str) -> Option<String> {
    let (old, rest) = edit.split_once("\nnew ")?;
    let old = unescaped(alloc, old)?;
    let new = unescaped(alloc, rest.lines().next()?)?;
    replaced(alloc, text, old.as_str(), new.as_str())
}

// The sample's description, where each `old` is replaced by the `new` after it.
fn edited(alloc: Global, text: &str, head: &str) -> Option<String> {
    let mut text = String::from_str(alloc, text).ok()?;
    let mut edits = head.split("\nold ");
    let _before = edits.next();
    for edit in edits {
        text = edited_by(alloc, text.as_str(), edit)?;
    }
    Some(text)
}

fn add_line(text: &mut String, line: &str) -> Option<()> {
    text.push_str(line).ok()?;
    text.push('\n').ok()
}

// The lines of the trace.
fn trace_of(alloc: Global, head: &str) -> Option<String> {
    let mut text = String::new(alloc);
    for line in head.lines() {
        if let Some(words) = line.strip_prefix("trace ") {
            add_line(&mut text, words)?;
        }
    }
    Some(text)
}

impl Block {
    /// The name of the state that the block's lines before its turns say, where they say one.
    pub fn name_of(head: &str) -> Option<&str> {
        rest_of(head, "state")
    }

    /// The state that the lines before the turns say; nothing where they aren't read.
    pub fn read(alloc: Global, samples: &Samples, head: &str) -> Option<Block> {
        let image = samples.get(rest_of(head, "image")?.strip_suffix(".img")?)?;
        let config = samples.get(rest_of(head, "config")?.strip_suffix(".toml")?)?;
        Some(Block {
            image: patched(alloc, &image.image, head)?,
            config: edited(alloc, config.text.as_str(), head)?,
            trace: trace_of(alloc, head)?,
            due: String::from_str(alloc, rest_of(head, "at")?).ok()?,
        })
    }

    // The trace with the turn, and with its `mem` lines.
    fn trace_with(&self, alloc: Global, turn: &str) -> Option<String> {
        let mut text = String::from_str(alloc, self.trace.as_str()).ok()?;
        add_line(&mut text, turn.lines().next()?)?;
        for line in turn.lines() {
            if line.starts_with("mem ") {
                add_line(&mut text, line)?;
            }
        }
        Some(text)
    }

    // The machine in the state, and the turn.
    fn reach(&self, alloc: Global, turn: &str) -> Option<Reached> {
        let trace = self.trace_with(alloc, turn)?;
        reach(alloc, &self.image, self.config.as_str(), trace.as_str())
    }

    /// Whether the trace leads to the state that is due; nothing where it leads to none.
    pub fn is_reached(&self, alloc: Global) -> Option<bool> {
        let there = self.reach(alloc, "nmi")?;
        is_state(there.machine.state(), self.due.as_str())
    }

    /// Whether a turn from that state does what its lines tell: the turn as a trace has it, and the lines after it.
    /// Nothing where they aren't read.
    pub fn agrees(&self, alloc: Global, turn: &str) -> Option<bool> {
        let before = self.reach(alloc, turn)?;
        self.agrees_after(alloc, before.machine.state(), turn)
    }

    // The same, where this is the state before the turn.
    fn agrees_after(&self, alloc: Global, before: &State, turn: &str) -> Option<bool> {
        let mut after = self.reach(alloc, turn)?;
        does_as_due(alloc, before, &mut after, turn)
    }

    /// Whether a turn from that state ends as its lines tell: done, not allowed, stopped or with a break.
    pub fn ends_so(&self, alloc: Global, turn: &str) -> Option<bool> {
        let mut there = self.reach(alloc, turn)?;
        ends_as_due(&mut there, turn)
    }
}
