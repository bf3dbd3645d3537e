//! The line in which the text of an instruction is put together.

ghost use Rattle.std.specs.Prelude.{◌≡◌, ◌+◌, ◌≤◌, ◌++◌, length};
ghost use Rattle.kc_plain.specs.Appended.{Appended};
ghost use Rattle.kc_text.specs.Text.{hex, number, target_text};
ghost use Rattle.kc_text.specs.LineSteps.{HasRoom, GrowsAtMost};

use crate::digits::write_digits;
use arrayvec::ArrayVec;

/// No instruction has a longer text, in bytes.
pub const LONGEST_TEXT: usize = 96;

/// A line's bytes.
pub type Line = ArrayVec<u8, LONGEST_TEXT>;

/// Adds these bytes.
fn put_bytes(line: &mut Line, bytes: &[u8])
    requires room { HasRoom line.old.items (length bytes.now) }
    ensures text { Appended line.old.items line.new.items bytes.now }
    ensures len { length line.new.items ≡ length line.old.items + length bytes.now }
{
    match line.try_extend_from_slice(bytes) {
        Ok(()) => {}
        Err(_) => unreachable!(),
    }
}

/// Adds this text.
pub fn put(line: &mut Line, text: &str)
    requires room { HasRoom line.old.items (length text.now) }
    ensures text { Appended line.old.items line.new.items text.now }
    ensures len { length line.new.items ≡ length line.old.items + length text.now }
{
    put_bytes(line, text.as_bytes());
}

/// Adds `0x` and the digits of `n` without leading zeros.
pub fn put_hex(line: &mut Line, n: u64)
    requires room { HasRoom line.old.items 18 }
    ensures text { Appended line.old.items line.new.items (hex n) }
    ensures len { GrowsAtMost line.old.items line.new.items 18 }
{
    let mut digits = [0; 16];
    let zeros = write_digits(n, &mut digits);
    put(line, "0x");
    put_bytes(line, &digits[zeros..]);
}

/// Adds a number, with its sign where it is negative.
pub fn put_number(line: &mut Line, n: i64)
    requires room { HasRoom line.old.items 19 }
    ensures text { Appended line.old.items line.new.items (number n) }
    ensures len { GrowsAtMost line.old.items line.new.items 19 }
{
    if n < 0 {
        put(line, "-");
    }
    put_hex(line, n.unsigned_abs());
}

/// Adds `0x` and the sixteen digits of an address.
pub fn put_target(line: &mut Line, target: u64)
    requires room { HasRoom line.old.items 18 }
    ensures text { Appended line.old.items line.new.items (target_text target) }
    ensures len { GrowsAtMost line.old.items line.new.items 18 }
{
    let mut digits = [0; 16];
    write_digits(target, &mut digits);
    put(line, "0x");
    put_bytes(line, &digits);
}
