//! Locations and moves.

use crate::numbers::{number, signed};
use crate::spaces::map;
use kc_space::MapState;
use kc_state::Location;

/// `num N` or `rel K`; `unknown` is none.
pub fn location(text: &str) -> Option<Option<Location>> {
    match text.split_once(' ') {
        Some(("num", n)) => Some(Some(Location::Number(number(n)?))),
        Some(("rel", k)) => Some(Some(Location::Relative(signed(k)?))),
        Some(_) => None,
        None => unknown(text),
    }
}

fn unknown(text: &str) -> Option<Option<Location>> {
    match text {
        "unknown" => Some(None),
        _ => None,
    }
}

/// A map, and a location behind a blank.
pub fn map_location(text: &str) -> Option<(MapState, Option<Location>)> {
    let (space, at) = text.split_once(' ')?;
    Some((map(space)?, location(at)?))
}

/// A stack's number in decimal digits, or `-`.
pub fn stack_number(text: &str) -> Option<Option<u8>> {
    match text {
        "-" => Some(None),
        _ => Some(Some(u8::from_str_radix(text, 10).ok()?)),
    }
}

/// By how much a value is moved: up by this, or down where that is 2^63 up, no signed number of 64 bits.
#[derive(Clone, Copy)]
pub enum Shift {
    Up(i64),
    Down(i64),
}

/// A number with its sign, from -2^63 to 2^63.
pub fn moved(text: &str) -> Option<Shift> {
    match signed(text) {
        Some(by) => Some(Shift::Up(by)),
        None if number(text)? == 1 << 63 => Some(Shift::Down(i64::MIN)),
        None => None,
    }
}
