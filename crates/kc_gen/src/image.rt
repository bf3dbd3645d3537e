//! From a listing to a raw image.

ghost use Rattle.std.specs.Prelude.{◌≡◌, ◌≤◌, ◌-◌, ◌++◌, replicate, IsTrue, OnOk, IfOk};
ghost use Rattle.kc_encode.specs.Canonical.{canonical_bytes};
ghost use Rattle.kc_gen.specs.declared.line.Line.TheVariants.{Code};
ghost use Rattle.kc_gen.specs.Image.{line_bytes, reached, image_of, can_stand, within, is_listing};

use crate::line::Line;
use kc_encode::{EncodeFault, encode};
use kc_insn::Insn;
use kc_plain::NoMemory;
use std::alloc::Global;

// One byte of NOP.
const NOP: u8 = 0x90;

/// The bytes of an instruction that can stand at this address.
fn spelled(alloc: Global, insn: Insn, at: u64) -> Result<Vec<u8>, NoMemory>
    requires { IsTrue (can_stand at (Code insn)) }
    ensures { IfOk result (λ v. v.items ≡ canonical_bytes insn at) }
{
    match encode(alloc, &insn, at) {
        Ok(bytes) => Ok(bytes),
        Err(EncodeFault::NoMemory) => Err(NoMemory),
        Err(EncodeFault::OutOfReach) => unreachable!(),
    }
}

/// Adds NOPs for the addresses from `at` up to `to`.
fn put_gap(out: &mut Vec<u8>, at: u64, to: u64) -> Result<(), NoMemory>
    requires { at ≤ to }
    ensures { OnOk result (out.new.items ≡ out.old.items ++ replicate (to - at) 0x90) }
{
    for _ in at..to {
        out.push(NOP)?;
    }
    Ok(())
}

/// Adds a line where `at` is reached, and answers the address after it.
fn put_line(
    alloc: Global,
    out: &mut Vec<u8>,
    load: u64,
    at: u64,
    line: Line,
) -> Result<u64, NoMemory>
    requires stands { IsTrue (can_stand at line) }
    requires fits { IsTrue (within load (reached at line)) }
    ensures { IfOk result (λ next. (out.new.items ≡ out.old.items ++ line_bytes at line) × (next ≡ reached at line)) }
{
    match line {
        Line::At(to) => {
            put_gap(out, at, to)?;
            Ok(to)
        }
        Line::Code(insn) => {
            let bytes = spelled(alloc, insn, at)?;
            out.extend_from_slice(&bytes)?;
            Ok(at + bytes.len() as u64)
        }
    }
}

/// The raw image of a listing: `ENTRYRAW`, the load address, and the chosen spellings of the
/// instructions, each after the line before it. A listing that ends with an `At` is filled up to
/// that address.
pub fn assemble(alloc: Global, load: u64, lines: &[Line]) -> Result<Vec<u8>, NoMemory>
    requires listing { IsTrue (is_listing load load lines.now) }
    ensures image { IfOk result (λ image. image.items ≡ image_of load lines.now) }
{
    let mut out = Vec::new(alloc);
    out.extend_from_slice(b"ENTRYRAW")?;
    out.extend_from_slice(&load.to_le_bytes())?;
    let mut at = load;
    for line in lines {
        at = put_line(alloc, &mut out, load, at, *line)?;
    }
    Ok(out)
}
