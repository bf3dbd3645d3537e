//! Lines `mem`: the bytes that a turn writes.

ghost use Rattle.std.specs.Prelude.{◌≡◌, ℕ, ◌+◌, ◌*◌, ◌≤◌, ◌<◌, ◌++◌, ◌∷◌, [], OnOk, OnErr, length, map, take, drop};
ghost use Rattle.hex.specs.Hex.{encode_lower};
ghost use Rattle.kc_plain.specs.Appended.{Appended};
ghost use Rattle.kc_io.specs.Sink.{SinkKept, Writes, Refuses};
ghost use Rattle.kc_trace.specs.declared.line.Line.TheVariants.{Mem};
ghost use Rattle.kc_trace_text.specs.Lines.{mem_lines};
ghost use Rattle.kc_trace_text.specs.Text.{text_of_line, text_of_lines};
ghost use Rattle.kc_trace_text.specs.Room.{HasRoom, GrowsAtMost};
ghost use Rattle.kc_trace_text.specs.BytesSteps.{StartsLine, bytes_of, goes_on};

use crate::line::{Line, put, put_bytes, put_number};
use kc_io::{Failed, Sink, write_all};

/// A line has at most so many bytes.
const MOST_BYTES: usize = 4_096;

/// Adds the two digits of a byte.
fn put_byte(line: &mut Line, byte: u8)
    requires room { HasRoom line.old.items 2 }
    ensures text { Appended line.old.items line.new.items (encode_lower (byte ∷ [])) }
    ensures len { length line.new.items ≡ length line.old.items + 2 }
{
    let mut digits = [0; 2];
    match hex::encode_to_slice([byte], &mut digits) {
        Ok(()) => put_bytes(line, &digits),
        Err(_) => unreachable!(),
    }
}

/// Whether a line with `count` bytes from address `first` on takes the byte at this address.
fn goes_on(first: u64, count: usize, address: u64) -> bool
    ensures is { result ≡ goes_on first count address }
{
    match first.checked_add(count as u64) {
        Some(next) => address == next && count < MOST_BYTES,
        None => false,
    }
}

/// How many of the writes one line takes: those from the first on whose addresses rise by one, below 2^64.
fn line_length(writes: &[(u64, u8)]) -> usize
    ensures line { StartsLine writes.now result }
{
    let [first, ..] = writes else {
        return 0;
    };
    for (count, write) in writes.iter().enumerate() {
        if !goes_on(first.0, count, write.0) {
            return count;
        }
    }
    writes.len()
}

/// Adds the digits of the bytes.
fn put_written(line: &mut Line, writes: &[(u64, u8)])
    requires room { HasRoom line.old.items (2 * length writes.now) }
    ensures text { Appended line.old.items line.new.items (encode_lower (bytes_of writes.now)) }
    ensures len { length line.new.items ≡ length line.old.items + 2 * length writes.now }
{
    for write in writes {
        put_byte(line, write.1);
    }
}

/// Writes a line `mem`.
fn print_mem<S: Sink>(out: &mut S, at: u64, writes: &[(u64, u8)]) -> Result<(), Failed>
    requires few { length writes.now ≤ 4096 }
    ensures all { OnOk result (Writes (S.state out.old) (S.state out.new)
        (text_of_lines (Mem at (bytes_of writes.now) ∷ []))) }
    ensures part { OnErr result (Refuses (S.state out.old) (S.state out.new)
        (text_of_lines (Mem at (bytes_of writes.now) ∷ []))) }
    ensures kept { SinkKept (S.state out.old) (S.state out.new) }
{
    let mut line = Line::new();
    put(&mut line, "mem ");
    put_number(&mut line, at);
    put(&mut line, " ");
    put_written(&mut line, writes);
    put(&mut line, "\n");
    write_all(out, &line)
}

/// Writes the lines `mem` of the writes.
pub(crate) fn print_writes<S: Sink>(out: &mut S, writes: &[(u64, u8)]) -> Result<(), Failed>
    ensures all { OnOk result (Writes (S.state out.old) (S.state out.new) (text_of_lines (mem_lines writes.now))) }
    ensures part { OnErr result (Refuses (S.state out.old) (S.state out.new) (text_of_lines (mem_lines writes.now))) }
    ensures kept { SinkKept (S.state out.old) (S.state out.new) }
{
    let mut rest = writes;
    while let [first, ..] = rest {
        let count = line_length(rest);
        print_mem(out, first.0, &rest[..count])?;
        rest = &rest[count..];
    }
    Ok(())
}
