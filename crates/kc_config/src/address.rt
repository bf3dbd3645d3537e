//! Address texts: a number, a symbol of the image, or a symbol and a number that is added.

ghost use Rattle.std.specs.Prelude.{◌≡◌, ◌<◌, ◌≤◌, length, true, Some, MatchOption, option_map};
ghost use Rattle.std.specs.Char.{is_ascii_hexdigit};
ghost use Rattle.std.specs.List.{list_all, position_or_len, before_first, after_first};
ghost use Rattle.std.specs.Str.Parse.{digits_value};
ghost use Rattle.kc_config.specs.Addresses.{is_plus, digits_number, number_text, symbol_text, written, meant};
ghost use Rattle.kc_config.specs.Seen.{spelled, sum};

use kc_image::Image;

/// How an address is written.
#[derive(Clone, Copy)]
pub(crate) enum Spelling<'a> {
    Number(u64),
    Symbol(&'a str, u64),
}

/// The address that is meant: a number, and what is added to it.
#[derive(Clone, Copy, PartialEq, Eq, Debug)]
pub(crate) struct Sum {
    pub(crate) base: u64,
    pub(crate) added: u64,
}

/// Whether each byte is a hexadecimal digit.
fn are_digits(bytes: &[u8]) -> bool
    ensures { result ≡ list_all is_ascii_hexdigit bytes.now }
{
    bytes.iter().all(|digit| digit.is_ascii_hexdigit())
}

/// The number that 1 to 16 hexadecimal digits of either case write.
fn read_digits(digits: &str) -> Option<u64>
    ensures { result ≡ digits_number digits.now }
{
    if digits.is_empty() || 16 < digits.len() {
        return None;
    }
    if !are_digits(digits.as_bytes()) {
        return None;
    }
    parse_digits(digits)
}

/// The number that these digits write.
fn parse_digits(digits: &str) -> Option<u64>
    requires all { list_all is_ascii_hexdigit digits.now ≡ true }
    requires some { 1 ≤ length digits.now }
    requires short { length digits.now ≤ 16 }
    ensures { result ≡ Some (digits_value 16 digits.now) }
{
    u64::from_str_radix(digits, 16).ok()
}

/// The number that `0x` and such digits write.
fn read_number(text: &str) -> Option<u64>
    ensures { result ≡ number_text text.now }
{
    match text.strip_prefix("0x") {
        Some(digits) => read_digits(digits),
        None => None,
    }
}

/// What stands before and after the first `+`.
fn split_plus(text: &str) -> Option<(&str, &str)>
    ensures { MatchOption result (position_or_len is_plus text.now ≡ length text.now)
        (λ x. (x.0.now ≡ before_first is_plus text.now) × (x.1.now ≡ after_first is_plus text.now) × (position_or_len is_plus text.now < length text.now)) }
{
    text.split_once('+')
}

/// A name, in which no `+` stands.
fn whole_name(text: &str) -> Option<Spelling<'_>>
    requires { position_or_len is_plus text.now ≡ length text.now }
    ensures { option_map spelled result ≡ symbol_text text.now }
{
    if text.is_empty() {
        None
    } else {
        Some(Spelling::Symbol(text, 0))
    }
}

/// A name, or a name, `+` and a number.
fn read_symbol(text: &str) -> Option<Spelling<'_>>
    ensures { option_map spelled result ≡ symbol_text text.now }
{
    match split_plus(text) {
        None => whole_name(text),
        Some((name, number)) => {
            if name.is_empty() {
                None
            } else {
                match read_number(number) {
                    Some(added) => Some(Spelling::Symbol(name, added)),
                    None => None,
                }
            }
        }
    }
}

/// How the text writes an address, where it does.
pub(crate) fn read_address(text: &str) -> Option<Spelling<'_>>
    ensures { option_map spelled result ≡ written text.now }
{
    if text.starts_with("0x") {
        match read_number(text) {
            Some(n) => Some(Spelling::Number(n)),
            None => None,
        }
    } else {
        read_symbol(text)
    }
}

/// The address that is meant, where the image has the name.
pub(crate) fn find_address(image: &Image, spelling: &Spelling<'_>) -> Option<Sum>
    ensures { option_map sum result ≡ meant image.now.symbols (spelled spelling.now) }
{
    match *spelling {
        Spelling::Number(base) => Some(Sum { base, added: 0 }),
        Spelling::Symbol(name, added) => match image.symbol(name) {
            Some(base) => Some(Sum { base, added }),
            None => None,
        },
    }
}
