//! Compares the cases of a file, under the description `s1.toml` beside it.

use crate::exec_case::ExecCase;
use kc_config::read_config;
use kc_image::read_image;
use kc_plain::NoMemory;
use kc_regions::Config;
use kc_tables::{Tally, beside};
use std::alloc::AllocError;
use std::fs::{self, Files};
use std::io;

/// Runs each case of the file, prints each that differs, and last how many agree and how many don't.
pub fn run<R: Print + Files + AllocGlobal>(rt: &R, file: &str, text: &str) -> io::Result<()> {
    let alloc = rt.alloc();
    let image = fs::read(rt, beside(alloc, file, "s1.img")?.as_str())?;
    let description = fs::read(rt, beside(alloc, file, "s1.toml")?.as_str())?;
    let Ok(image) = read_image(alloc, image) else {
        return println!(rt; "no image");
    };
    match read_config(alloc, &description, &image) {
        Ok(config) => run_all(rt, &config, text),
        Err(_) => println!(rt; "no description"),
    }
}

fn run_all<R: Print + AllocGlobal>(rt: &R, config: &Config, text: &str) -> io::Result<()> {
    let alloc = rt.alloc();
    let mut tally = Tally::new();
    let mut case = kept(ExecCase::new(alloc))?;
    for line in text.lines() {
        if line.is_empty() {
            finish(rt, config, &case, &mut tally)?;
            case = kept(ExecCase::new(alloc))?;
        } else {
            kept(case.read_line(alloc, line))?;
        }
    }
    finish(rt, config, &case, &mut tally)?;
    println!(rt; "agree {} differ {}", tally.agree, tally.differ)
}

/// Compares what the case leaves; a block that says no end is no case.
fn finish<R: Print + AllocGlobal>(
    rt: &R,
    config: &Config,
    case: &ExecCase,
    tally: &mut Tally,
) -> io::Result<()> {
    if !case.is_whole() {
        return Ok(());
    }
    let found = kept(case.difference(rt.alloc(), config))?;
    if !found.is_empty() {
        println!(rt; "{}: {found}", case.name)?;
    }
    tally.add(found.is_empty());
    Ok(())
}

fn kept<T: Drop>(done: Result<T, NoMemory>) -> io::Result<T> {
    match done {
        Ok(value) => Ok(value),
        Err(NoMemory) => Err(io::Error::from(AllocError)),
    }
}
