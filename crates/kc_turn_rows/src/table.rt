//! Tables of blocks, with an empty line between them. A line that begins with two blanks goes on with the one before
//! it, behind one blank. A block of comments is no case.

use kc_gen::{Sample, sample};
use kc_turn_cases::{Block, Samples};
use std::alloc::Global;
use std::test::Fail;

/// What of each turn is compared.
#[derive(Clone, Copy)]
pub enum Compared {
    /// How it ends.
    End,
    /// All that its lines tell.
    All,
}

// The samples that the blocks name.
fn samples(alloc: Global) -> Result<Samples, Fail> {
    let mut all = Samples::new(alloc);
    for (name, which) in [("s1", Sample::S1), ("s2", Sample::S2)] {
        let (image, text) = sample(alloc, which).ok().ok_or("memory")?;
        let text = String::from_str(alloc, std::str::from_utf8(&text)?)?;
        all.add(alloc, name, image, text).ok_or("memory")?;
    }
    Ok(all)
}

// The text with each line that goes on joined to the line before it.
fn joined(alloc: Global, text: &str) -> Result<String, Fail> {
    let mut whole = String::new(alloc);
    for (i, piece) in text.split("\n  ").enumerate() {
        if i != 0 {
            whole.push(' ')?;
        }
        whole.push_str(piece)?;
    }
    Ok(whole)
}

// The failure of a case that doesn't agree: the name of its state, and the turn.
fn told(alloc: Global, found: Option<bool>, name: &str, turn: &str) -> Result<(), Fail> {
    match found {
        Some(true) => Ok(()),
        Some(false) => Err(format!(in alloc; "differs: {name}: {turn}")?)?,
        None => Err(format!(in alloc; "isn't read: {name}: {turn}")?)?,
    }
}

fn turn_agrees(alloc: Global, state: &Block, turn: &str, what: Compared) -> Option<bool> {
    match what {
        Compared::End => state.ends_so(alloc, turn),
        Compared::All => state.agrees(alloc, turn),
    }
}

fn compare_block(
    alloc: Global,
    samples: &Samples,
    block: &str,
    what: Compared,
) -> Result<(), Fail> {
    let mut parts = block.split("\nturn ");
    let head = parts.next().ok_or("a block")?;
    let Some(name) = Block::name_of(head) else {
        return Ok(());
    };
    let state = Block::read(alloc, samples, head).ok_or("a state isn't read")?;
    told(alloc, state.is_reached(alloc), name, "")?;
    for turn in parts {
        told(alloc, turn_agrees(alloc, &state, turn, what), name, turn)?;
    }
    Ok(())
}

/// Compares the states and the turns of a table; the failure says the case.
pub fn compare(alloc: Global, table: &'static str, what: Compared) -> Result<(), Fail> {
    let samples = samples(alloc)?;
    let text = joined(alloc, table)?;
    for block in text.as_str().split("\n\n") {
        compare_block(alloc, &samples, block, what)?;
    }
    Ok(())
}
