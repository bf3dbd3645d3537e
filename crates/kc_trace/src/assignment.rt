//! Assignments of a trace's line.

ghost use Rattle.std.specs.Prelude.{◌≡◌, ◌&&◌, not, []};
ghost use Rattle.std.specs.List.{list_any};
ghost use Rattle.std.specs.Str.{bytes_eq};
ghost use Rattle.kc_rules.specs.Rules.{over};
ghost use Rattle.kc_trace.specs.Words.{texts};
ghost use Rattle.kc_trace.specs.Assignments.{name_text, number_text, has_equals, register_named, other_named, named, may_set, may_set_named};
ghost use Rattle.kc_trace.specs.Assignments.{is_assignment, are_assignments, assigned, assignment, add_assignment, assignments, is_given_back};
ghost use Rattle.kc_trace.specs.Faults.{ReadsLine};

use crate::fault::LineFault;
use crate::number::read_number;
use crate::words::find;
use kc_plain::Items;
use std::alloc::Global;

/// What a line may assign.
#[derive(Clone, Copy, PartialEq, Eq, Debug)]
pub(crate) enum Name {
    /// A general register, by its number.
    Register(u8),
    Rip,
    Flags,
    Cs,
    /// The active GS base.
    Gs,
    /// The user's saved RIP.
    DueRip,
    /// The user's saved RFLAGS.
    DueFlags,
    /// The user's saved RSP.
    DueRsp,
}

/// What a line assigns.
#[derive(Clone, Copy, PartialEq, Eq, Debug)]
pub enum Assignment {
    /// A general register, by its number, and what it holds.
    SetRegister(u8, u64),
    SetRip(u64),
    SetFlags(u64),
    SetCs(u16),
    /// The active GS base.
    SetGs(u64),
    /// An edit of the user's saved RIP.
    SetDueRip(u64),
    /// An edit of the user's saved RFLAGS.
    SetDueFlags(u64),
    /// An edit of the user's saved RSP.
    SetDueRsp(u64),
}

/// Whose processor a line sets.
#[derive(Clone, Copy, PartialEq, Eq, Debug)]
pub(crate) enum Setter {
    /// User code's, at the start or by a step.
    ByUser,
    /// A handler's, by a step.
    ByBody,
    /// A handler's, at its end.
    ByLeave,
}

/// A register's number, by its 64-bit name.
fn register_named(text: &[u8]) -> Option<u8>
    ensures { result ≡ register_named text.now }
{
    if text == b"rax".as_slice() {
        Some(0)
    } else if text == b"rcx".as_slice() {
        Some(1)
    } else if text == b"rdx".as_slice() {
        Some(2)
    } else if text == b"rbx".as_slice() {
        Some(3)
    } else if text == b"rsp".as_slice() {
        Some(4)
    } else if text == b"rbp".as_slice() {
        Some(5)
    } else if text == b"rsi".as_slice() {
        Some(6)
    } else if text == b"rdi".as_slice() {
        Some(7)
    } else if text == b"r8".as_slice() {
        Some(8)
    } else if text == b"r9".as_slice() {
        Some(9)
    } else if text == b"r10".as_slice() {
        Some(10)
    } else if text == b"r11".as_slice() {
        Some(11)
    } else if text == b"r12".as_slice() {
        Some(12)
    } else if text == b"r13".as_slice() {
        Some(13)
    } else if text == b"r14".as_slice() {
        Some(14)
    } else if text == b"r15".as_slice() {
        Some(15)
    } else {
        None
    }
}

/// Any other name.
fn other_named(text: &[u8]) -> Option<Name>
    ensures { result ≡ other_named text.now }
{
    if text == b"rip".as_slice() {
        Some(Name::Rip)
    } else if text == b"rflags".as_slice() {
        Some(Name::Flags)
    } else if text == b"cs".as_slice() {
        Some(Name::Cs)
    } else if text == b"gs".as_slice() {
        Some(Name::Gs)
    } else if text == b"due.rip".as_slice() {
        Some(Name::DueRip)
    } else if text == b"due.rflags".as_slice() {
        Some(Name::DueFlags)
    } else if text == b"due.rsp".as_slice() {
        Some(Name::DueRsp)
    } else {
        None
    }
}

fn named(text: &[u8]) -> Option<Name>
    ensures { result ≡ named text.now }
{
    match register_named(text) {
        Some(register) => Some(Name::Register(register)),
        None => other_named(text),
    }
}

/// Whether a handler gives the register back: RBX, RSP, RBP and R12 to R15.
fn is_given_back(register: u8) -> bool
    ensures { result ≡ is_given_back register }
{
    (3 <= register && register <= 5) || 12 <= register
}

fn may_set(setter: Setter, name: Name) -> bool
    ensures { result ≡ may_set setter name }
{
    match setter {
        Setter::ByUser => !matches!(name, Name::DueRip | Name::DueFlags | Name::DueRsp),
        Setter::ByBody => !matches!(name, Name::Cs | Name::Gs),
        Setter::ByLeave => match name {
            Name::Register(register) => !is_given_back(register),
            Name::Flags => true,
            _ => false,
        },
    }
}

/// The number's text, after the first `=`.
fn number_text(word: &[u8]) -> &[u8]
    ensures { result.now ≡ number_text word.now }
{
    match find(word, b'=') {
        Some(end) => &word[end + 1..],
        None => &[],
    }
}

/// Whether a `=` stands in the word.
fn has_equals(word: &[u8]) -> bool
    ensures { result ≡ has_equals word.now }
{
    find(word, b'=').is_some()
}

fn may_set_named(setter: Setter, name: Option<Name>) -> bool
    ensures { result ≡ may_set_named setter name }
{
    match name {
        Some(name) => may_set(setter, name),
        None => false,
    }
}

/// The name, the part before the first `=`; the whole word, where there is none.
fn name_text(word: &[u8]) -> &[u8]
    ensures { result.now ≡ name_text word.now }
{
    match find(word, b'=') {
        Some(end) => &word[..end],
        None => word,
    }
}

/// Whether the word has the form of an assignment, whatever stands in its number's place.
fn is_assignment(setter: Setter, word: &[u8]) -> bool
    ensures { result ≡ is_assignment setter word.now }
{
    has_equals(word) && may_set_named(setter, named(name_text(word)))
}

/// Whether one of the words has this name.
fn mentions(name: &[u8], words: &[&[u8]]) -> bool
    ensures { result ≡ list_any (λ w. bytes_eq (name_text w.now) name.now) words.now }
{
    words.iter().any(|word| name_text(word) == name)
}

/// Whether the word has the form of an assignment, with another name than all later ones.
fn is_new(setter: Setter, word: &[u8], later: &[&[u8]]) -> bool
    ensures { result ≡ (is_assignment setter word.now && not
        (list_any (λ w. bytes_eq (name_text w.now) (name_text word.now)) later.now)) }
{
    is_assignment(setter, word) && !mentions(name_text(word), later)
}

/// Whether each word has the form of an assignment, and no name stands twice.
fn are_assignments(setter: Setter, words: &[&[u8]]) -> bool
    ensures { result ≡ are_assignments setter (texts words.now) }
{
    for (i, word) in words.iter().enumerate() {
        if !is_new(setter, word, &words[i + 1..]) {
            return false;
        }
    }
    true
}

/// The assignment of this number; CS has 16 bits.
fn assigned(name: Name, number: u64) -> Option<Assignment>
    ensures { result ≡ assigned name number }
{
    Some(match name {
        Name::Register(register) => Assignment::SetRegister(register, number),
        Name::Rip => Assignment::SetRip(number),
        Name::Flags => Assignment::SetFlags(number),
        Name::Cs if number < 1 << 16 => Assignment::SetCs(number as u16),
        Name::Cs => return None,
        Name::Gs => Assignment::SetGs(number),
        Name::DueRip => Assignment::SetDueRip(number),
        Name::DueFlags => Assignment::SetDueFlags(number),
        Name::DueRsp => Assignment::SetDueRsp(number),
    })
}

/// What the word assigns, where its number is one and in range.
fn read_assignment(word: &[u8]) -> Option<Assignment>
    ensures { result ≡ assignment word.now }
{
    match named(name_text(word)) {
        Some(name) => match read_number(number_text(word)) {
            Some(number) => assigned(name, number),
            None => None,
        },
        None => None,
    }
}

/// Adds what the word assigns.
fn add_assignment(found: &mut Items<Assignment>, word: &[u8]) -> Result<(), LineFault>
    ensures { ReadsLine (λ _. found.new) result (add_assignment found.old word.now) }
{
    match read_assignment(word) {
        Some(assignment) => Ok(found.push(assignment)?),
        None => Err(LineFault::Number),
    }
}

/// What each word assigns, in their order.
fn read_each(alloc: Global, words: &[&[u8]]) -> Result<Items<Assignment>, LineFault>
    ensures { ReadsLine (λ a. a) result (over add_assignment [] (texts words.now)) }
{
    let mut found = Items::new(alloc);
    for word in words {
        add_assignment(&mut found, word)?;
    }
    Ok(found)
}

/// What the words assign, where each has the form of an assignment.
#[tactic(auto, unfolding(crate::specs::Assignments::assignments))]
pub(crate) fn read_assignments(
    alloc: Global,
    setter: Setter,
    words: &[&[u8]],
) -> Result<Items<Assignment>, LineFault>
    ensures { ReadsLine (λ a. a) result (assignments setter (texts words.now)) }
{
    if are_assignments(setter, words) {
        read_each(alloc, words)
    } else {
        Err(LineFault::Form)
    }
}
