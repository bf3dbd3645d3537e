//! Compares the cases of a file.

use crate::answers::{accepted, fault_line};
use crate::case::Case;
use crate::lines::replace;
use kc_config::read_config;
use kc_image::read_image;
use kc_tables::{Tally, beside};
use std::fs::{self, Files};
use std::io;

/// Compares each case of the file's text, prints each that differs, and last how many agree and how many don't.
pub fn run<R: Print + Files + AllocGlobal>(rt: &R, file: &str, text: &str) -> io::Result<()> {
    let alloc = rt.alloc();
    let mut tally = Tally::new();
    let mut case = Case::new(alloc)?;
    for line in text.lines() {
        if line.is_empty() {
            finish(rt, file, &case, &mut tally)?;
            case = Case::new(alloc)?;
        } else {
            case.read_line(alloc, line)?;
        }
    }
    finish(rt, file, &case, &mut tally)?;
    println!(rt; "agree {} differ {}", tally.agree, tally.differ)
}

/// Compares what comes of the case; a block without an answer is no case.
fn finish<R: Print + Files + AllocGlobal>(
    rt: &R,
    file: &str,
    case: &Case,
    tally: &mut Tally,
) -> io::Result<()> {
    if case.answer.is_empty() {
        return Ok(());
    }
    let found = found(rt, file, case)?;
    let agrees = found.as_str() == case.answer.as_str();
    if !agrees {
        println!(rt; "{}: {} and not {}", case.name, found, case.answer)?;
    }
    tally.add(agrees);
    Ok(())
}

/// The line of what comes of the case's description over its image.
fn found<R: Print + Files + AllocGlobal>(rt: &R, file: &str, case: &Case) -> io::Result<String> {
    let alloc = rt.alloc();
    let text = text_of(rt, file, case)?;
    let image = fs::read(rt, beside(alloc, file, case.image.as_str())?.as_str())?;
    match read_image(alloc, image) {
        Ok(image) => match read_config(alloc, &text, &image) {
            Ok(config) => accepted(alloc, case, &config),
            Err(fault) => fault_line(alloc, &fault),
        },
        Err(fault) => Ok(format!(in alloc; "bad image {:?}", fault.kind)?),
    }
}

/// The description that the case's edits make.
fn text_of<R: Print + Files + AllocGlobal>(rt: &R, file: &str, case: &Case) -> io::Result<Vec<u8>> {
    let alloc = rt.alloc();
    let mut text = fs::read(rt, beside(alloc, file, case.base.as_str())?.as_str())?;
    for (old, new) in &case.edits {
        match replace(alloc, &text, old, new)? {
            Some(edited) => text = edited,
            None => println!(rt; "{}: its old text isn't there", case.name)?,
        }
    }
    text.extend_from_slice(&case.appended)?;
    Ok(text)
}
