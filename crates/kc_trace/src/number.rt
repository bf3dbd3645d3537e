//! The numbers of a trace.

ghost use Rattle.std.specs.Prelude.{◌≡◌, ◌≤◌, ◌<◌, ◌+◌, ◌&&◌, nat_le, length, true, ok_or};
ghost use Rattle.std.specs.Char.{is_ascii_digit, digit_value};
ghost use Rattle.std.specs.List.{list_all};
ghost use Rattle.std.specs.Str.Parse.{digits_value};
ghost use Rattle.kc_trace.specs.Numbers.{is_lower_digit, are_digits, hexadecimal, number, decimal, below, code, vector, bytes};
ghost use Rattle.kc_trace.specs.Faults.{ReadsLine};

use crate::fault::LineFault;
use hex::FromHexError;
use std::alloc::Global;

/// The value of a digit below this radix.
fn value_of(digit: u8) -> u64
    ensures value { digit_value digit < 16 → result ≡ digit_value digit }
    ensures below { result < 256 }
{
    match digit {
        b'0'..=b'9' => u64::from(digit - b'0'),
        b'a'..=b'f' => u64::from(digit - b'a') + 10,
        b'A'..=b'F' => u64::from(digit - b'A') + 10,
        _ => 0,
    }
}

/// The number that lower-case hexadecimal digits write.
fn hexadecimal_value(digits: &[u8]) -> u64
    requires all { list_all is_lower_digit digits.now ≡ true }
    requires short { length digits.now ≤ 16 }
    ensures { result ≡ digits_value 16 digits.now }
{
    let mut value = 0;
    for digit in digits {
        value = value * 16 + value_of(*digit);
    }
    value
}

/// The number that decimal digits write.
fn decimal_value(digits: &[u8]) -> u32
    requires all { list_all is_ascii_digit digits.now ≡ true }
    requires short { length digits.now ≤ 7 }
    ensures { result ≡ digits_value 10 digits.now }
{
    let mut value = 0;
    for digit in digits {
        value = value * 10 + u32::from(*digit - b'0');
    }
    value
}

fn is_lower_digit(digit: u8) -> bool
    ensures { result ≡ is_lower_digit digit }
{
    matches!(digit, b'0'..=b'9' | b'a'..=b'f')
}

fn are_so_many(word: &[u8], most: usize) -> bool
    ensures { result ≡ (nat_le 1 (length word.now) && nat_le (length word.now) most) }
{
    1 <= word.len() && word.len() <= most
}

fn are_all_lower(word: &[u8]) -> bool
    ensures { result ≡ list_all is_lower_digit word.now }
{
    word.iter().all(|digit| is_lower_digit(*digit))
}

fn are_all_decimal(word: &[u8]) -> bool
    ensures { result ≡ list_all is_ascii_digit word.now }
{
    word.iter().all(|digit| digit.is_ascii_digit())
}

/// Whether the word is 1 to 16 lower-case hexadecimal digits.
fn are_lower_digits(word: &[u8]) -> bool
    ensures { result ≡ are_digits is_lower_digit 16 word.now }
{
    are_so_many(word, 16) && are_all_lower(word)
}

/// Whether the word is 1 to 7 decimal digits.
fn are_decimal_digits(word: &[u8]) -> bool
    ensures { result ≡ are_digits is_ascii_digit 7 word.now }
{
    are_so_many(word, 7) && are_all_decimal(word)
}

fn read_hexadecimal(digits: &[u8]) -> Option<u64>
    ensures { result ≡ hexadecimal digits.now }
{
    if are_lower_digits(digits) {
        Some(hexadecimal_value(digits))
    } else {
        None
    }
}

/// The number that `0x` and 1 to 16 lower-case digits write.
pub(crate) fn read_number(word: &[u8]) -> Option<u64>
    ensures { result ≡ number word.now }
{
    match word.strip_prefix(b"0x".as_slice()) {
        Some(digits) => read_hexadecimal(digits),
        None => None,
    }
}

/// The number that 1 to 7 decimal digits write.
pub(crate) fn read_decimal(word: &[u8]) -> Option<u32>
    ensures { result ≡ decimal word.now }
{
    if are_decimal_digits(word) {
        Some(decimal_value(word))
    } else {
        None
    }
}

/// An error code.
pub(crate) fn read_code(word: &[u8]) -> Option<u32>
    ensures { result ≡ code word.now }
{
    match read_number(word) {
        Some(code) if code < 1 << 32 => Some(code as u32),
        _ => None,
    }
}

/// A vector.
pub(crate) fn read_vector(word: &[u8]) -> Option<u8>
    ensures { result ≡ vector word.now }
{
    match read_decimal(word) {
        Some(vector) if vector < 256 => Some(vector as u8),
        _ => None,
    }
}

/// The bytes of a `mem` line.
pub(crate) fn read_bytes(alloc: Global, word: &[u8]) -> Result<Vec<u8>, LineFault>
    ensures { ReadsLine (λ v. v.items) result (ok_or (bytes word.now) LineFault.Number) }
{
    if word.len() < 2 || 8192 < word.len() {
        return Err(LineFault::Number);
    }
    match hex::decode(alloc, word) {
        Ok(bytes) => Ok(bytes),
        Err(FromHexError::OutOfMemory) => Err(LineFault::NoMemory),
        Err(_) => Err(LineFault::Number),
    }
}
