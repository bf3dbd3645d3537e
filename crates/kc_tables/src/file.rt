//! Files of cases: what agrees and what differs, and the files that they name.

use std::alloc::Global;
use std::io;

/// How many cases agree, and how many don't.
#[derive(Clone, Copy)]
pub struct Tally {
    pub agree: u64,
    pub differ: u64,
}

impl Tally {
    /// No case yet.
    pub fn new() -> Tally {
        Tally {
            agree: 0,
            differ: 0,
        }
    }

    /// Counts a case.
    pub fn add(&mut self, agrees: bool) {
        if agrees {
            self.agree = self.agree.saturating_add(1);
        } else {
            self.differ = self.differ.saturating_add(1);
        }
    }
}

/// The path of a file that a line names, in the folder of the file that has the line.
pub fn beside(alloc: Global, file: &str, name: &str) -> io::Result<String> {
    let folder = match file.rsplit_once('/') {
        Some((folder, _)) => folder,
        None => ".",
    };
    Ok(format!(in alloc; "{folder}/{name}")?)
}
