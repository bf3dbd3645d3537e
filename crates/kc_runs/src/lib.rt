//! Runs of the program over objects in memory, as tables of tests say them; edits of their files; small certificates.
#![tactic(auto)]

mod edits;
mod packed;
mod small;
mod trial;

pub use edits::{edited, edited_text, replaced};
use kc_io::{MemFiles, MemSink};
use kc_plain::NoMemory;
use kc_tables::{Case, Unread};
use kc_top::{Words, run_in_memory};
pub use packed::unpack;
pub use small::{MIX, S0, S0_SHARED};
use std::alloc::Global;
pub use trial::{Trial, each_holds};

/// A file by its name.
#[derive(Clone, Copy)]
pub struct Held<'a> {
    pub name: &'a str,
    pub bytes: &'a [u8],
}

/// The exit code of a run and what it wrote.
#[derive(Drop)]
pub struct Ending {
    pub code: u8,
    pub written: Vec<u8>,
}

impl Ending {
    /// Whether it has this exit code, and wrote this text.
    pub fn is(&self, code: u8, text: &str) -> bool {
        self.code == code && self.written.as_slice() == text.as_bytes()
    }
}

/// The most bytes that a run may write.
const ROOM: usize = 2_000_000;

/// The words of a column, ` / ` between them; `-` is none.
fn words_of(alloc: Global, column: &str) -> Result<Words, NoMemory> {
    let mut all = Words::new(alloc);
    if column != "-" {
        for word in column.split(" / ") {
            all.push(word)?;
        }
    }
    Ok(all)
}

/// Files in memory; the reads of these numbers fail.
fn files_of(alloc: Global, held: &[Held<'_>], failing: &[u64]) -> Result<MemFiles, NoMemory> {
    let mut names = Vec::new(alloc);
    let mut bytes = Vec::new(alloc);
    for file in held {
        names.push(String::from_str(alloc, file.name)?)?;
        bytes.push(Vec::from_slice(alloc, file.bytes)?)?;
    }
    Ok(MemFiles::new(names, bytes, Vec::from_slice(alloc, failing)?))
}

/// Runs the program on the words of a column and on these files; the reads and the writes of these
/// numbers fail.
pub fn ended(
    alloc: Global,
    words: &str,
    held: &[Held<'_>],
    reads: &[u64],
    writes: &[u64],
) -> Result<Ending, NoMemory> {
    let mut files = files_of(alloc, held, reads)?;
    ended_over(alloc, words, &mut files, writes)
}

/// The same over files that are made already.
pub fn ended_over(
    alloc: Global,
    words: &str,
    files: &mut MemFiles,
    writes: &[u64],
) -> Result<Ending, NoMemory> {
    let words = words_of(alloc, words)?;
    let mut out = MemSink::new(alloc, ROOM, Vec::from_slice(alloc, writes)?)?;
    let status = run_in_memory(alloc, &words, files, &mut out);
    Ok(Ending {
        code: status.code(),
        written: Vec::from_slice(alloc, out.bytes())?,
    })
}

/// Whether the run that a case's next columns tell ends as those behind them say: the words, the read and
/// the write that fail, then the exit code and the lines that are written, with `-` for none.
pub fn ends_so(alloc: Global, case: &mut Case<'_>, held: &[Held<'_>]) -> Result<bool, Unread> {
    let words = case.text();
    let reads = list_of(alloc, case.number_or_none()?)?;
    let writes = list_of(alloc, case.number_or_none()?)?;
    match ended(alloc, words, held, &reads, &writes) {
        Ok(end) => is_told(alloc, case, &end),
        Err(NoMemory) => Err(Unread::NoMemory),
    }
}

/// Whether a case's next columns are the exit code and the lines of this ending, with `-` for no line.
pub fn is_told(alloc: Global, case: &mut Case<'_>, end: &Ending) -> Result<bool, Unread> {
    let code = case.number()?;
    let mut ahead = *case;
    let lines = if ahead.text() == "-" {
        String::new(alloc)
    } else {
        case.lines(alloc)?
    };
    Ok(u64::from(end.code) == code && end.written.as_slice() == lines.as_bytes())
}

/// The list of this number, or of none.
pub fn list_of(alloc: Global, number: Option<u64>) -> Result<Vec<u64>, Unread> {
    match number {
        Some(number) => Ok(Vec::from_slice(alloc, &[number])?),
        None => Ok(Vec::new(alloc)),
    }
}
