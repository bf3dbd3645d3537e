//! Known bits and values.

use crate::numbers::{count, number};
use kc_bits::Bits;
use kc_regions::Config;
use kc_state::number_value;
use kc_value::{Sym, Value};

// Each stack, and no stack.
const ALL_PLACES: u32 = 0x1_FFFF;

/// `ZEROS/ONES`, the bits known 0 and those known 1.
pub fn bits(text: &str) -> Option<Bits> {
    let (zeros, ones) = text.split_once('/')?;
    known(number(zeros)?, number(ones)?)
}

// No bit is known both 0 and 1.
fn known(zeros: u64, ones: u64) -> Option<Bits> {
    if zeros & ones == 0 {
        Some(Bits { zeros, ones })
    } else {
        None
    }
}

// `plain`, `ugs`, `eW`, `b`, `b+N` or `b-N`.
fn symbol(text: &str) -> Option<Sym> {
    match text {
        "plain" => Some(Sym::Plain),
        "ugs" => Some(Sym::UserGs),
        _ => match text.strip_prefix('e') {
            Some(word) => entry(count(word)?),
            None => base(text.strip_prefix('b')?),
        },
    }
}

fn entry(word: u16) -> Option<Sym> {
    if word < 20 {
        Some(Sym::Entry(word as u8))
    } else {
        None
    }
}

// The base, and `+N` or `-N` behind it where that isn't 0.
fn base(offset: &str) -> Option<Sym> {
    if offset.is_empty() {
        return Some(Sym::Base(0));
    }
    if let Some(above) = offset.strip_prefix('+') {
        return Some(Sym::Base(number(above)?.cast_signed()));
    }
    let below = number(offset.strip_prefix('-')?)?;
    Some(Sym::Base(below.wrapping_neg().cast_signed()))
}

// What stands behind a symbol.
#[derive(Clone, Copy)]
struct Details {
    zeros: u64,
    ones: u64,
    stacks: u32,
}

impl Details {
    // With `zN`, `oN` or `sN`.
    fn with(self, part: &str) -> Option<Details> {
        let mut next = self;
        if let Some(zeros) = part.strip_prefix('z') {
            next.zeros = number(zeros)?;
        } else if let Some(ones) = part.strip_prefix('o') {
            next.ones = number(ones)?;
        } else {
            next.stacks = u32::try_from(number(part.strip_prefix('s')?)?).ok()?;
        }
        Some(next)
    }
}

fn all_details(parts: &str) -> Option<Details> {
    let mut all = Details {
        zeros: 0,
        ones: 0,
        stacks: ALL_PLACES,
    };
    if !parts.is_empty() {
        for part in parts.split(':') {
            all = all.with(part)?;
        }
    }
    Some(all)
}

fn with_details(sym: Sym, all: Details) -> Option<Value> {
    let bits = known(all.zeros, all.ones)?;
    match sym {
        Sym::Entry(w) if w >= 20 => None,
        _ if all.stacks > ALL_PLACES => None,
        _ => Some(Value {
            sym,
            bits,
            stacks: all.stacks,
        }),
    }
}

/// `top`; `=N`, the number N at its own place; or a symbol, and behind it `:zN` for the bits known 0,
/// `:oN` for those known 1 and `:sN` for the set of stacks, where they aren't none, none and all.
pub fn value(cfg: &Config, text: &str) -> Option<Value> {
    if text == "top" {
        return Some(Value::top());
    }
    if let Some(n) = text.strip_prefix('=') {
        return Some(number_value(cfg, number(n)?));
    }
    let (sym, parts) = match text.split_once(':') {
        Some(both) => both,
        None => (text, ""),
    };
    with_details(symbol(sym)?, all_details(parts)?)
}
