//! Cases of turns, over the samples beside their file.

use kc_tables::{Tally, beside};
use kc_turn_cases::{Block, Samples};
use std::alloc::AllocError;
use std::fs::{self, Files};
use std::io;

/// How many states and how many turns agree, and how many don't or aren't read.
#[derive(Clone, Copy)]
struct Tallies {
    states: Tally,
    turns: Tally,
}

/// Compares each state and each turn of the file, prints each that differs, and last how many there are of each kind.
pub(crate) fn run<R: Print + Files + AllocGlobal>(
    rt: &R,
    file: &str,
    text: &str,
) -> io::Result<()> {
    let samples = samples(rt, file)?;
    let mut all = Tallies {
        states: Tally::new(),
        turns: Tally::new(),
    };
    for block in text.split("\n\n") {
        run_block(rt, &samples, block, &mut all)?;
    }
    let Tallies { states, turns } = all;
    println!(rt; "states: agree {} differ {}", states.agree, states.differ)?;
    println!(rt; "turns: agree {} differ {}", turns.agree, turns.differ)
}

fn run_block<R: Print + AllocGlobal>(
    rt: &R,
    samples: &Samples,
    block: &str,
    all: &mut Tallies,
) -> io::Result<()> {
    let mut parts = block.split("\nturn ");
    let head = parts.next().unwrap_or("");
    let Some(name) = Block::name_of(head) else {
        return Ok(());
    };
    let Some(state) = Block::read(rt.alloc(), samples, head) else {
        return add(rt, &mut all.states, None, name, "");
    };
    add(rt, &mut all.states, state.is_reached(rt.alloc()), name, "")?;
    for turn in parts {
        let found = state.agrees(rt.alloc(), turn);
        let words = turn.lines().next().unwrap_or("");
        add(rt, &mut all.turns, found, name, words)?;
    }
    Ok(())
}

// Counts a case, and prints one that doesn't agree.
fn add<R: Print>(
    rt: &R,
    tally: &mut Tally,
    found: Option<bool>,
    name: &str,
    turn: &str,
) -> io::Result<()> {
    tally.add(found == Some(true));
    match found {
        Some(true) => Ok(()),
        Some(false) => println!(rt; "differs: {name}: {turn}"),
        None => println!(rt; "isn't read: {name}: {turn}"),
    }
}

// The samples in the folder of the file.
fn samples<R: Files + AllocGlobal>(rt: &R, file: &str) -> io::Result<Samples> {
    let alloc = rt.alloc();
    let mut all = Samples::new(alloc);
    for name in ["s0", "s1", "s2"] {
        let image = fs::read(rt, named(rt, file, name, "img")?.as_str())?;
        let text = fs::read_to_string(rt, named(rt, file, name, "toml")?.as_str())?;
        if all.add(alloc, name, image, text).is_none() {
            return Err(io::Error::from(AllocError));
        }
    }
    Ok(all)
}

fn named<R: AllocGlobal>(rt: &R, file: &str, name: &str, ending: &str) -> io::Result<String> {
    let alloc = rt.alloc();
    let name = format!(in alloc; "{name}.{ending}")?;
    beside(alloc, file, name.as_str())
}
