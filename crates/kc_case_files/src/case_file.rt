//! The lines of a file of cases.

use crate::descriptions::{Descriptions, Draft};
use kc_plain::NoMemory;
use std::alloc::Global;

/// A file of cases as it is read, line by line. `config NAME BASE` begins a description from the text
/// of an earlier one, and each line `toml OLD => NEW` behind it replaces a text that stands there, with
/// `\n` for the end of a line.
#[derive(Drop)]
pub struct CaseFile {
    pub all: Descriptions,
    draft: Option<Draft>,
}

impl CaseFile {
    /// A file over these descriptions.
    pub fn new(all: Descriptions) -> CaseFile {
        CaseFile { all, draft: None }
    }

    /// Reads a line, and tells whether it says a case. An empty line and one that begins with `#` don't.
    pub fn is_case(&mut self, alloc: Global, line: &str) -> Result<bool, NoMemory> {
        if let Some(edit) = line.strip_prefix("toml ") {
            self.edit(alloc, edit)?;
            return Ok(false);
        }
        self.finish(alloc)?;
        if let Some(names) = line.strip_prefix("config ") {
            self.begin(alloc, names)?;
            return Ok(false);
        }
        Ok(!line.is_empty() && !line.starts_with('#'))
    }

    fn begin(&mut self, alloc: Global, names: &str) -> Result<(), NoMemory> {
        if let Some((name, base)) = names.split_once(' ') {
            self.draft = self.all.draft(alloc, name, base)?;
        }
        Ok(())
    }

    fn finish(&mut self, alloc: Global) -> Result<(), NoMemory> {
        if let Some(draft) = self.draft.take() {
            let _is_good = self.all.add_draft(alloc, draft)?;
        }
        Ok(())
    }

    fn edit(&mut self, alloc: Global, edit: &str) -> Result<(), NoMemory> {
        if let (Some(draft), Some((old, new))) = (&mut self.draft, edit.split_once(" => ")) {
            draft.text = edited(alloc, &draft.text, old, new)?;
        }
        Ok(())
    }
}

// The text with `new` in the place of `old`, where it stands there.
fn edited(alloc: Global, text: &String, old: &str, new: &str) -> Result<String, NoMemory> {
    let (old, new) = (lines(alloc, old)?, lines(alloc, new)?);
    match text.as_str().split_once(old.as_str()) {
        Some((front, back)) => joined(alloc, [front, new.as_str(), back]),
        None => Ok(text.clone()?),
    }
}

fn joined(alloc: Global, parts: [&str; 3]) -> Result<String, NoMemory> {
    let mut whole = String::new(alloc);
    for part in parts {
        whole.push_str(part)?;
    }
    Ok(whole)
}

// The text with the end of a line for each `\n`.
fn lines(alloc: Global, text: &str) -> Result<String, NoMemory> {
    let mut whole = String::new(alloc);
    for (i, part) in text.split("\\n").enumerate() {
        if i > 0 {
            whole.push('\n')?;
        }
        whole.push_str(part)?;
    }
    Ok(whole)
}
