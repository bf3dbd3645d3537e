//! The hexadecimal digits of a number.

ghost use Rattle.std.specs.Prelude.{◌≡◌, ◌<◌, false, ℕ, take, drop, replicate};
ghost use Rattle.std.specs.Fmt.{digits, digit_glyph};

/// The lower-case digit of a number below 16.
fn digit(n: u64) -> u8
    requires below { n < 16 }
    ensures glyph { result ≡ digit_glyph false n }
{
    const DIGITS: [u8; 16] = *b"0123456789abcdef";
    DIGITS[n as usize]
}

/// Writes the digits of `n` without leading zeros at the end of `out`, and zeros before them.
/// Answers how many zeros.
pub fn write_digits(n: u64, out: &mut [u8; 16]) -> usize
    ensures within { result < 16 }
    ensures zeros { take result out.new ≡ replicate result 48 }
    ensures digits { drop result out.new ≡ digits 16 false n }
{
    *out = [b'0'; 16];
    let mut at = 16;
    let mut rest = n;
    loop {
        at -= 1;
        out[at] = digit(rest % 16);
        rest /= 16;
        if rest == 0 {
            return at;
        }
    }
}
