//! Tables of cases as text. A line that begins with two blanks goes on with the one before it, behind one
//! blank.

use crate::descriptions::DESCRIPTIONS;
use kc_case_files::{CaseFile, Descriptions, Judge};
use kc_domain_cases::DomainCases;
use kc_event_cases::EventCases;
use kc_gen::{Sample, sample};
use kc_transfer_cases::TransferCases;
use std::alloc::Global;
use std::test::Fail;

/// Which calls the cases of a table are of.
#[derive(Clone, Copy)]
pub enum Kind {
    Domain,
    Transfer,
    Event,
}

/// Compares each case of a table; the failure says the case.
pub fn compare(alloc: Global, kind: Kind, table: &'static str) -> Result<(), Fail> {
    let mut file = CaseFile::new(samples(alloc)?);
    read(alloc, &mut file, &mut Nothing, DESCRIPTIONS)?;
    match kind {
        Kind::Domain => read(
            alloc,
            &mut file,
            &mut DomainCases::new(alloc).ok().ok_or("memory")?,
            table,
        ),
        Kind::Transfer => read(
            alloc,
            &mut file,
            &mut TransferCases::new(alloc, 2).ok().ok_or("memory")?,
            table,
        ),
        Kind::Event => read(
            alloc,
            &mut file,
            &mut EventCases::new(alloc).ok().ok_or("memory")?,
            table,
        ),
    }
}

// The descriptions of the first two samples.
fn samples(alloc: Global) -> Result<Descriptions, Fail> {
    let mut all = Descriptions::new(alloc);
    for (name, which) in [("s1", Sample::S1), ("s2", Sample::S2)] {
        let (image, text) = sample(alloc, which).ok().ok_or("memory")?;
        let text = std::str::from_utf8(&text)?;
        let is_good = all.add(alloc, name, image, text).ok().ok_or("memory")?;
        if !is_good {
            Err("a sample isn't read")?;
        }
    }
    Ok(all)
}

// Of a table without cases.
#[derive(Drop)]
struct Nothing;

impl Judge for Nothing {
    fn agrees(&mut self, _all: &Descriptions, _line: &str) -> Option<bool> {
        None
    }
}

fn read<J: Judge>(
    alloc: Global,
    file: &mut CaseFile,
    judge: &mut J,
    table: &str,
) -> Result<(), Fail> {
    let mut whole = String::new(alloc);
    for line in table.lines() {
        match line.strip_prefix("  ") {
            Some(more) => {
                whole.push(' ')?;
                whole.push_str(more)?;
            }
            None => {
                judge_line(alloc, file, judge, whole.as_str())?;
                whole = String::from_str(alloc, line)?;
            }
        }
    }
    judge_line(alloc, file, judge, whole.as_str())
}

fn judge_line<J: Judge>(
    alloc: Global,
    file: &mut CaseFile,
    judge: &mut J,
    line: &str,
) -> Result<(), Fail> {
    if file.is_case(alloc, line).ok().ok_or("memory")? {
        match judge.agrees(&file.all, line) {
            Some(true) => {}
            Some(false) => Err(String::from_str(alloc, line)?)?,
            None => Err("a line isn't read")?,
        }
    }
    Ok(())
}
