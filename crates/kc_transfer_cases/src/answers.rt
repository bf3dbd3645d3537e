//! The answers as words.

use kc_abs_text::{count, number};
use kc_state::{Condition, Succ};

/// What `transfer` answers.
pub type Answer = Result<Succ, Condition>;

/// `falls`, `jumps N`, `branches N`, `calls H`, `returns`, or `fails C..` with the conditions that fail,
/// the first one first.
pub(crate) fn answer(text: &str) -> Option<Answer> {
    match text.split_once(' ') {
        Some(("fails", conditions)) => Some(Err(first(conditions)?)),
        Some((word, n)) => Some(Ok(successor(word, n)?)),
        None => Some(Ok(plain(text)?)),
    }
}

fn plain(word: &str) -> Option<Succ> {
    match word {
        "falls" => Some(Succ::Falls),
        "returns" => Some(Succ::Returns),
        _ => None,
    }
}

fn successor(word: &str, n: &str) -> Option<Succ> {
    match word {
        "jumps" => Some(Succ::Jumps(number(n)?)),
        "branches" => Some(Succ::Branches(number(n)?)),
        "calls" => Some(Succ::Calls(count(n)?)),
        _ => None,
    }
}

// The first of conditions that are apart by blanks.
fn first(conditions: &str) -> Option<Condition> {
    let condition = conditions.split(' ').next()?;
    let number = u8::from_str_radix(condition.strip_prefix('C')?, 10).ok()?;
    Some(Condition(number))
}
