//! Numbers and answers.

/// `0x` and hexadecimal digits.
pub fn number(text: &str) -> Option<u64> {
    u64::from_str_radix(text.strip_prefix("0x")?, 16).ok()
}

/// A number, with `-` in front where it is negative, of 64 bits with its sign.
pub fn signed(text: &str) -> Option<i64> {
    match text.strip_prefix('-') {
        Some(size) => below_zero(number(size)?),
        None => i64::try_from(number(text)?).ok(),
    }
}

// What lies `size` below 0.
fn below_zero(size: u64) -> Option<i64> {
    if size <= 1 << 63 {
        Some(size.wrapping_neg().cast_signed())
    } else {
        None
    }
}

/// Decimal digits, a number below 2^16.
pub fn count(text: &str) -> Option<u16> {
    u16::from_str_radix(text, 10).ok()
}

/// `yes` or `no`.
pub fn answer(text: &str) -> Option<bool> {
    match text {
        "yes" => Some(true),
        "no" => Some(false),
        _ => None,
    }
}
