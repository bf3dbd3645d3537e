//! Known bits.

use crate::order::is_ordered;
use kc_abs_text::{answer, bits, number};
use kc_bits::Bits;
use kc_lattice::Meaning;

pub(crate) fn agrees(name: &str, arguments: &str, due: &str) -> Option<bool> {
    match name {
        "of" => Some(Bits::of(number(arguments)?) == bits(due)?),
        "single" => Some(bits(arguments)?.single() == number(due)),
        "stands" => stands(arguments, due),
        _ => of_two(name, arguments.split_once(' ')?, due),
    }
}

fn stands(arguments: &str, due: &str) -> Option<bool> {
    let (known, n) = arguments.split_once(' ')?;
    Some(bits(known)?.stands(&(), &number(n)?) == answer(due)?)
}

fn of_two(name: &str, arguments: (&str, &str), due: &str) -> Option<bool> {
    match result(name, &bits(arguments.0)?, &bits(arguments.1)?) {
        Some(found) => Some(found == bits(due)?),
        None => is_ordered(name, arguments, due, |text| bits(text)),
    }
}

fn result(name: &str, a: &Bits, b: &Bits) -> Option<Bits> {
    match name {
        "and" => Some(a.and(b)),
        "or" => Some(a.or(b)),
        "xor" => Some(a.xor(b)),
        "add" => Some(a.add(b)),
        "sub" => Some(a.sub(b)),
        _ => None,
    }
}
