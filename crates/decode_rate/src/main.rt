//! Decodes all of a file's bytes as instructions that follow each other from address 0:
//! `decode_rate FILE` prints how many there are, and where the first byte stands that begins none.
#![tactic(auto)]

ghost use Rattle.std.specs.Prelude.{◌≤◌, length, drop};
ghost use Rattle.kc_decode.specs.Begins.{HasSpelledPrefix};
ghost use Rattle.decode_rate.specs.Run.{AreInstructions};

use kc_decode::decode;
use std::{env, fs, io};

/// How many instructions follow each other from the start, and how many bytes they have.
fn count(bytes: &[u8]) -> (usize, usize)
    ensures within { result.1 ≤ length bytes.now }
    ensures counted { AreInstructions bytes.now result.0 result.1 }
    // No instruction begins after them.
    ensures ended { ¬ (HasSpelledPrefix (drop result.1 bytes.now) result.1) }
{
    let mut instructions = 0usize;
    let mut at = 0usize;
    while let Ok((_, len)) = decode(&bytes[at..], at as u64) {
        at += usize::from(len);
        instructions += 1;
    }
    (instructions, at)
}

fn main(rt: HostRuntime) -> io::Result<()> {
    let mut words = env::args(&rt)?;
    let _program = words.next();
    let Some(path) = words.next() else {
        println!(rt; "usage: decode_rate FILE")?;
        return Ok(());
    };
    let bytes = fs::read(&rt, path.as_str())?;
    let (instructions, end) = count(&bytes);
    println!(rt; "instructions {instructions}")?;
    println!(rt; "end {end} of {}", bytes.len())
}
