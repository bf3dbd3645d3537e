//! The readers of lines, by their form.

ghost use Rattle.std.specs.Prelude.{◌≡◌, ◌∷◌, not, ok_or, map};
ghost use Rattle.kc_trace.specs.Words.{texts};
ghost use Rattle.kc_trace.specs.Form.{no_word, one_word, two_words, count_up_to, go_line, mem_line, irq_line, fault_line, trap_line};
ghost use Rattle.kc_trace.specs.Form.{bare_line, start_line, user_line, body_line, leave_line, turn_line, placed, line_of_words, line_of};
ghost use Rattle.kc_trace.specs.Faults.{ReadsLine};

use crate::assignment::{Setter, read_assignments};
use crate::fault::LineFault;
use crate::line::{Line, Place};
use crate::number::{read_bytes, read_code, read_decimal, read_number, read_vector};
use crate::words::cut_words;
use kc_plain::Items;
use std::alloc::Global;

fn no_word(words: &[&[u8]]) -> Result<(), LineFault>
    ensures { ReadsLine (λ x. x) result (no_word (texts words.now)) }
{
    match words {
        [] => Ok(()),
        [_, ..] => Err(LineFault::Form),
    }
}

fn one_word<'a>(words: &[&'a [u8]]) -> Result<&'a [u8], LineFault>
    ensures { ReadsLine (λ w. w.now) result (one_word (texts words.now)) }
{
    match words {
        [word] => Ok(word),
        _ => Err(LineFault::Form),
    }
}

fn two_words<'a>(words: &[&'a [u8]]) -> Result<(&'a [u8], &'a [u8]), LineFault>
    ensures { ReadsLine (λ w. (w.0.now, w.1.now)) result (two_words (texts words.now)) }
{
    match words {
        [first, second] => Ok((first, second)),
        _ => Err(LineFault::Form),
    }
}

fn count_up_to(most: u32, count: Option<u32>) -> Option<u32>
    ensures { result ≡ count_up_to most count }
{
    match count {
        Some(count) if 1 <= count && count <= most => Some(count),
        _ => None,
    }
}

#[tactic(auto, unfolding(crate::specs::Form::go_line))]
fn read_go(left: u32, words: &[&[u8]]) -> Result<Line, LineFault>
    ensures { ReadsLine (λ l. l) result (go_line left (texts words.now)) }
{
    let word = one_word(words)?;
    let count = count_up_to(left, read_decimal(word)).ok_or(LineFault::Number)?;
    Ok(Line::Go(count))
}

#[tactic(auto, unfolding(crate::specs::Form::mem_line))]
fn read_mem(alloc: Global, words: &[&[u8]]) -> Result<Line, LineFault>
    ensures { ReadsLine (λ l. l) result (mem_line (texts words.now)) }
{
    let (address, bytes) = two_words(words)?;
    let address = read_number(address).ok_or(LineFault::Number)?;
    let bytes = read_bytes(alloc, bytes)?;
    Ok(Line::Mem(address, Items::from_vec(bytes)))
}

#[tactic(auto, unfolding(crate::specs::Form::irq_line))]
fn read_irq(words: &[&[u8]]) -> Result<Line, LineFault>
    ensures { ReadsLine (λ l. l) result (irq_line (texts words.now)) }
{
    let word = one_word(words)?;
    let vector = read_vector(word).ok_or(LineFault::Number)?;
    Ok(Line::Irq(vector))
}

#[tactic(auto, unfolding(crate::specs::Form::fault_line))]
fn read_fault(words: &[&[u8]]) -> Result<Line, LineFault>
    ensures { ReadsLine (λ l. l) result (fault_line (texts words.now)) }
{
    let (address, code) = two_words(words)?;
    let address = read_number(address).ok_or(LineFault::Number)?;
    let code = read_code(code).ok_or(LineFault::Number)?;
    Ok(Line::Fault(address, code))
}

#[tactic(auto, unfolding(crate::specs::Form::trap_line))]
fn read_trap(words: &[&[u8]]) -> Result<Line, LineFault>
    ensures { ReadsLine (λ l. l) result (trap_line (texts words.now)) }
{
    let (vector, code) = two_words(words)?;
    let vector = read_vector(vector).ok_or(LineFault::Number)?;
    let code = read_code(code).ok_or(LineFault::Number)?;
    Ok(Line::Trap(vector, code))
}

#[tactic(auto, unfolding(crate::specs::Form::bare_line))]
fn read_bare(line: Line, words: &[&[u8]]) -> Result<Line, LineFault>
    ensures { ReadsLine (λ l. l) result (bare_line line (texts words.now)) }
{
    no_word(words)?;
    Ok(line)
}

#[tactic(auto, unfolding(crate::specs::Form::start_line))]
fn read_start(alloc: Global, words: &[&[u8]]) -> Result<Line, LineFault>
    ensures { ReadsLine (λ l. l) result (start_line (texts words.now)) }
{
    Ok(Line::Start(read_assignments(alloc, Setter::ByUser, words)?))
}

#[tactic(auto, unfolding(crate::specs::Form::user_line))]
fn read_user(alloc: Global, words: &[&[u8]]) -> Result<Line, LineFault>
    ensures { ReadsLine (λ l. l) result (user_line (texts words.now)) }
{
    Ok(Line::User(read_assignments(alloc, Setter::ByUser, words)?))
}

#[tactic(auto, unfolding(crate::specs::Form::body_line))]
fn read_body(alloc: Global, words: &[&[u8]]) -> Result<Line, LineFault>
    ensures { ReadsLine (λ l. l) result (body_line (texts words.now)) }
{
    Ok(Line::Body(read_assignments(alloc, Setter::ByBody, words)?))
}

#[tactic(auto, unfolding(crate::specs::Form::leave_line))]
fn read_leave(alloc: Global, words: &[&[u8]]) -> Result<Line, LineFault>
    ensures { ReadsLine (λ l. l) result (leave_line (texts words.now)) }
{
    Ok(Line::Leave(read_assignments(alloc, Setter::ByLeave, words)?))
}

/// An event, or a step of user code or of a handler, by its first word.
fn read_turn(alloc: Global, word: &[u8], words: &[&[u8]]) -> Result<Line, LineFault>
    ensures { ReadsLine (λ l. l) result (turn_line word.now (texts words.now)) }
{
    if word == b"irq".as_slice() {
        read_irq(words)
    } else if word == b"nmi".as_slice() {
        read_bare(Line::Nmi, words)
    } else if word == b"debug".as_slice() {
        read_bare(Line::Debug, words)
    } else if word == b"check".as_slice() {
        read_bare(Line::Check, words)
    } else if word == b"fault".as_slice() {
        read_fault(words)
    } else if word == b"trap".as_slice() {
        read_trap(words)
    } else if word == b"syscall".as_slice() {
        read_bare(Line::Syscall, words)
    } else if word == b"user".as_slice() {
        read_user(alloc, words)
    } else if word == b"body".as_slice() {
        read_body(alloc, words)
    } else if word == b"leave".as_slice() {
        read_leave(alloc, words)
    } else {
        Err(LineFault::Form)
    }
}

/// A line of at least one word, where it may stand at its place.
fn read_placed(
    alloc: Global,
    place: &Place,
    word: &[u8],
    words: &[&[u8]],
) -> Result<Line, LineFault>
    ensures { ReadsLine (λ l. l) result (line_of_words place.now (word.now ∷ texts words.now)) }
{
    if word == b"start".as_slice() {
        if place.begun {
            Err(LineFault::Form)
        } else {
            read_start(alloc, words)
        }
    } else if word == b"mem".as_slice() {
        if place.takes_bytes {
            read_mem(alloc, words)
        } else {
            Err(LineFault::Form)
        }
    } else if word == b"go".as_slice() {
        if place.begun {
            read_go(place.left, words)
        } else {
            Err(LineFault::Form)
        }
    } else if place.begun && 0 < place.left {
        read_turn(alloc, word, words)
    } else {
        Err(LineFault::Form)
    }
}

/// The line, where it may stand at its place.
pub(crate) fn read_line(alloc: Global, place: &Place, line: &[u8]) -> Result<Line, LineFault>
    ensures { ReadsLine (λ l. l) result (line_of place.now line.now) }
{
    let words = cut_words(alloc, line)?;
    match words.split_first() {
        Some((word, rest)) => read_placed(alloc, place, word, rest),
        None => Err(LineFault::Form),
    }
}
