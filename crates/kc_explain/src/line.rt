//! The line in which a text is put together.

ghost use Rattle.std.specs.Prelude.{◌≡◌, ◌+◌, ◌≤◌, ◌++◌, length, codes, decimal};
ghost use Rattle.kc_plain.specs.Appended.{Appended};
ghost use Rattle.kc_text.specs.Text.{hex};
ghost use Rattle.kc_explain.specs.Lines.{address_text};
ghost use Rattle.kc_explain.specs.Room.{HasRoom, GrowsAtMost};

use arrayvec::ArrayVec;
use kc_text::write_digits;

/// No line is longer, in bytes with its end; an instruction's isn't put together here.
pub const LONGEST_LINE: usize = 96;

/// A line's bytes.
pub(crate) type Line = ArrayVec<u8, LONGEST_LINE>;

/// Adds these bytes.
fn put_bytes(line: &mut Line, bytes: &[u8])
    requires room { HasRoom line.old.items (length bytes.now) }
    ensures text { Appended line.old.items line.new.items bytes.now }
    ensures len { length line.new.items ≡ length line.old.items + length bytes.now }
{
    match line.try_extend_from_slice(bytes) {
        Ok(()) => {}
        Err(_) => unreachable!(),
    }
}

/// Adds this text.
pub(crate) fn put(line: &mut Line, text: &str)
    requires room { HasRoom line.old.items (length text.now) }
    ensures text { Appended line.old.items line.new.items text.now }
    ensures len { length line.new.items ≡ length line.old.items + length text.now }
{
    put_bytes(line, text.as_bytes());
}

/// Adds the decimal digits of `n`.
pub(crate) fn put_count(line: &mut Line, n: u32)
    requires room { HasRoom line.old.items 10 }
    ensures text { Appended line.old.items line.new.items (decimal n) }
    ensures len { GrowsAtMost line.old.items line.new.items 10 }
{
    let mut buffer = itoa::Buffer::new();
    put(line, buffer.format(n));
}

/// Adds `0x` and the digits of `n` without leading zeros.
pub(crate) fn put_hex(line: &mut Line, n: u64)
    requires room { HasRoom line.old.items 18 }
    ensures text { Appended line.old.items line.new.items (hex n) }
    ensures len { GrowsAtMost line.old.items line.new.items 18 }
{
    let mut digits = [0; 16];
    let zeros = write_digits(n, &mut digits);
    put(line, "0x");
    put_bytes(line, &digits[zeros..]);
}

/// Adds `0x` and the sixteen digits of an address.
pub(crate) fn put_address(line: &mut Line, address: u64)
    requires room { HasRoom line.old.items 18 }
    ensures text { Appended line.old.items line.new.items (address_text address) }
    ensures len { GrowsAtMost line.old.items line.new.items 18 }
{
    let mut digits = [0; 16];
    write_digits(address, &mut digits);
    put(line, "0x");
    put_bytes(line, &digits);
}
