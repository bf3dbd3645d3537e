//! Cases of the analysis, under the descriptions beside their file and those that its lines make.

use kc_case_files::{CaseFile, Descriptions, Judge};
use kc_domain_cases::DomainCases;
use kc_event_cases::EventCases;
use kc_plain::NoMemory;
use kc_tables::beside;
use kc_transfer_cases::TransferCases;
use std::alloc::AllocError;
use std::fs::{self, Files};
use std::io;

/// Known bits, values, spaces, floors and states.
pub(crate) fn run_domains<R: Print + Files + AllocGlobal>(
    rt: &R,
    file: &str,
    text: &str,
) -> io::Result<()> {
    let judge = kept(DomainCases::new(rt.alloc()))?;
    run(rt, judge, file, text)
}

/// Instructions and ends of handlers; each call is made `times` times.
pub(crate) fn run_transfers<R: Print + Files + AllocGlobal>(
    rt: &R,
    file: &str,
    text: &str,
    times: Option<String>,
) -> io::Result<()> {
    let times = match times {
        Some(digits) => u32::from_str_radix(digits.as_str(), 10).unwrap_or(1),
        None => 1,
    };
    let judge = kept(TransferCases::new(rt.alloc(), times))?;
    run(rt, judge, file, text)
}

/// Events, deliveries and returns.
pub(crate) fn run_events<R: Print + Files + AllocGlobal>(
    rt: &R,
    file: &str,
    text: &str,
) -> io::Result<()> {
    let judge = kept(EventCases::new(rt.alloc()))?;
    run(rt, judge, file, text)
}

// Prints each case that differs or isn't read, and last how many there are of each kind.
fn run<R: Print + Files + AllocGlobal, J: Judge + Drop>(
    rt: &R,
    mut judge: J,
    file: &str,
    text: &str,
) -> io::Result<()> {
    let alloc = rt.alloc();
    let mut cases = CaseFile::new(descriptions(rt, file)?);
    let (mut agree, mut differ, mut unread) = (0u64, 0u64, 0u64);
    for line in text.lines() {
        if kept(cases.is_case(alloc, line))? {
            match judge.agrees(&cases.all, line) {
                Some(true) => agree = agree.saturating_add(1),
                Some(false) => {
                    differ = differ.saturating_add(1);
                    println!(rt; "differs: {line}")?;
                }
                None => {
                    unread = unread.saturating_add(1);
                    println!(rt; "isn't read: {line}")?;
                }
            }
        }
    }
    println!(rt; "agree {agree} differ {differ} unread {unread}")
}

// The samples' descriptions in the folder of the file.
fn descriptions<R: Files + AllocGlobal>(rt: &R, file: &str) -> io::Result<Descriptions> {
    let alloc = rt.alloc();
    let mut all = Descriptions::new(alloc);
    for name in ["s1", "s2"] {
        let image = fs::read(rt, named(rt, file, name, "img")?.as_str())?;
        let text = fs::read_to_string(rt, named(rt, file, name, "toml")?.as_str())?;
        let _is_good = kept(all.add(alloc, name, image, text.as_str()))?;
    }
    Ok(all)
}

fn named<R: AllocGlobal>(rt: &R, file: &str, name: &str, ending: &str) -> io::Result<String> {
    let alloc = rt.alloc();
    let name = format!(in alloc; "{name}.{ending}")?;
    beside(alloc, file, name.as_str())
}

fn kept<T: Drop>(done: Result<T, NoMemory>) -> io::Result<T> {
    match done {
        Ok(value) => Ok(value),
        Err(NoMemory) => Err(io::Error::from(AllocError)),
    }
}
