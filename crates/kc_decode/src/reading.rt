//! Prefixes and opcodes (Intel SDM vol. 2, "Instruction Prefixes" and "REX Prefixes").

ghost use Rattle.std.specs.Prelude.{◌≡◌, IfSome, option_map};
ghost use Rattle.kc_decode.specs.Views.{form_of, draft_of, IsInRange};
ghost use Rattle.kc_rules.specs.Rules.{GivesExactly};
ghost use Rattle.kc_decode.specs.Reading.{row_at, opcode_at, rex_of as rex_bits, is_rex as is_rex_byte, plain_at, f3_row_at, f3_escape_at, f3_at, nop_tail_at, nop_escape_at, nop_at, after_2e_at, padded_at, after_66_at, after_65_at, draft_at};

use crate::draft::Draft;
use crate::fault::DraftFault;
use crate::fields::{byte, rex_r};
use crate::form::Form;
use crate::operand::Head;
use crate::prefixes::permits;
use crate::table::{f3_two_byte, one_byte, two_byte};
use crate::tail::{nop, tail};
use kc_insn::{Insn, Rex};

/// What stands after the opcode of a form, where there is one that takes these prefixes.
fn row(form: Option<Form>, head: Head, bytes: &[u8]) -> Result<(Draft, &[u8]), DraftFault>
    requires { IfSome form IsInRange }
    ensures { GivesExactly (λ x. (draft_of x.0, x.1.now)) result
        (row_at (option_map form_of form) head.gs head.rex bytes.now) }
{
    match form {
        None => Err(DraftFault::Unknown),
        Some(form) => {
            if permits(form, head) {
                tail(form, head, bytes)
            } else {
                Err(DraftFault::Unknown)
            }
        }
    }
}

/// After the opcode byte `op`.
#[tactic(auto, unfolding(crate::specs::Reading::opcode_at))]
fn opcode(head: Head, op: u8, bytes: &[u8]) -> Result<(Draft, &[u8]), DraftFault>
    ensures { GivesExactly (λ x. (draft_of x.0, x.1.now)) result (opcode_at head.gs head.rex op bytes.now) }
{
    if op == 0x0F {
        if rex_r(head.rex) {
            return Err(DraftFault::Unknown);
        }
        let (second, rest) = byte(bytes)?;
        row(two_byte(second), head, rest)
    } else {
        row(one_byte(op), head, bytes)
    }
}

/// Whether the byte is a REX prefix, 40 to 4F.
pub fn is_rex(b: u8) -> bool
    ensures { result ≡ is_rex_byte b }
{
    b >= 64 && b < 80
}

/// The four bits of a REX prefix.
pub fn rex_of(b: u8) -> Rex
    ensures { result ≡ rex_bits b }
{
    Rex {
        w: b / 8 % 2 == 1,
        r: b / 4 % 2 == 1,
        x: b / 2 % 2 == 1,
        b: b % 2 == 1,
    }
}

/// After the byte `b`, which is REX or an opcode.
#[tactic(auto, unfolding(crate::specs::Reading::plain_at))]
fn plain(gs: bool, b: u8, bytes: &[u8]) -> Result<(Draft, &[u8]), DraftFault>
    ensures { GivesExactly (λ x. (draft_of x.0, x.1.now)) result (plain_at gs b bytes.now) }
{
    if is_rex(b) {
        let (op, rest) = byte(bytes)?;
        opcode(
            Head {
                gs,
                rex: Some(rex_of(b)),
            },
            op,
            rest,
        )
    } else {
        opcode(Head { gs, rex: None }, b, bytes)
    }
}

#[tactic(auto, unfolding(crate::specs::Reading::f3_row_at))]
fn f3_row(rex: Option<Rex>, bytes: &[u8]) -> Result<(Draft, &[u8]), DraftFault>
    ensures { GivesExactly (λ x. (draft_of x.0, x.1.now)) result (f3_row_at rex bytes.now) }
{
    let (op, rest) = byte(bytes)?;
    row(f3_two_byte(op), Head { gs: false, rex }, rest)
}

#[tactic(auto, unfolding(crate::specs::Reading::f3_escape_at))]
fn f3_escape(rex: Rex, bytes: &[u8]) -> Result<(Draft, &[u8]), DraftFault>
    ensures { GivesExactly (λ x. (draft_of x.0, x.1.now)) result (f3_escape_at rex bytes.now) }
{
    let (escape, rest) = byte(bytes)?;
    if escape == 0x0F {
        f3_row(Some(rex), rest)
    } else {
        Err(DraftFault::Unknown)
    }
}

/// After F3.
#[tactic(auto, unfolding(crate::specs::Reading::f3_at))]
fn f3(bytes: &[u8]) -> Result<(Draft, &[u8]), DraftFault>
    ensures { GivesExactly (λ x. (draft_of x.0, x.1.now)) result (f3_at bytes.now) }
{
    let (b, rest) = byte(bytes)?;
    if is_rex(b) {
        let rex = rex_of(b);
        if rex.w && (!rex.r && !rex.x) {
            f3_escape(rex, rest)
        } else {
            Err(DraftFault::Unknown)
        }
    } else if b == 0x0F {
        f3_row(None, rest)
    } else {
        Err(DraftFault::Unknown)
    }
}

#[tactic(auto, unfolding(crate::specs::Reading::nop_tail_at))]
fn nop_tail(rex: Option<Rex>, bytes: &[u8]) -> Result<(Draft, &[u8]), DraftFault>
    ensures { GivesExactly (λ x. (draft_of x.0, x.1.now)) result (nop_tail_at rex bytes.now) }
{
    let (op, rest) = byte(bytes)?;
    if op == 0x1F {
        nop(Head { gs: false, rex }, rest)
    } else {
        Err(DraftFault::Unknown)
    }
}

#[tactic(auto, unfolding(crate::specs::Reading::nop_escape_at))]
fn nop_escape(rex: Rex, bytes: &[u8]) -> Result<(Draft, &[u8]), DraftFault>
    ensures { GivesExactly (λ x. (draft_of x.0, x.1.now)) result (nop_escape_at rex bytes.now) }
{
    let (escape, rest) = byte(bytes)?;
    if escape == 0x0F {
        nop_tail(Some(rex), rest)
    } else {
        Err(DraftFault::Unknown)
    }
}

/// A long NOP after its padding prefixes and the byte `b`.
#[tactic(auto, unfolding(crate::specs::Reading::nop_at))]
fn long_nop(b: u8, bytes: &[u8]) -> Result<(Draft, &[u8]), DraftFault>
    ensures { GivesExactly (λ x. (draft_of x.0, x.1.now)) result (nop_at b bytes.now) }
{
    if is_rex(b) {
        let rex = rex_of(b);
        if rex.w || rex.r {
            Err(DraftFault::Unknown)
        } else {
            nop_escape(rex, bytes)
        }
    } else if b == 0x0F {
        nop_tail(None, bytes)
    } else {
        Err(DraftFault::Unknown)
    }
}

/// After 2E.
#[tactic(auto, unfolding(crate::specs::Reading::after_2e_at))]
fn after_2e(bytes: &[u8]) -> Result<(Draft, &[u8]), DraftFault>
    ensures { GivesExactly (λ x. (draft_of x.0, x.1.now)) result (after_2e_at bytes.now) }
{
    let (b, rest) = byte(bytes)?;
    long_nop(b, rest)
}

/// After 66: any more of them.
#[tactic(auto, unfolding(crate::specs::Reading::padded_at))]
fn padded(bytes: &[u8]) -> Result<(Draft, &[u8]), DraftFault>
    ensures { GivesExactly (λ x. (draft_of x.0, x.1.now)) result (padded_at bytes.now) }
{
    let mut left = bytes;
    while let [b, rest @ ..] = left {
        if *b == 0x66 {
            left = rest;
        } else if *b == 0x2E {
            return after_2e(rest);
        } else {
            return long_nop(*b, rest);
        }
    }
    Err(DraftFault::Short)
}

/// After the first 66.
#[tactic(auto, unfolding(crate::specs::Reading::after_66_at))]
fn after_66(bytes: &[u8]) -> Result<(Draft, &[u8]), DraftFault>
    ensures { GivesExactly (λ x. (draft_of x.0, x.1.now)) result (after_66_at bytes.now) }
{
    match bytes {
        [] => Err(DraftFault::Short),
        [b, rest @ ..] => {
            if *b == 0x90 {
                Ok((Draft::Whole(Insn::Nop), rest))
            } else {
                padded(bytes)
            }
        }
    }
}

#[tactic(auto, unfolding(crate::specs::Reading::after_65_at))]
fn after_65(bytes: &[u8]) -> Result<(Draft, &[u8]), DraftFault>
    ensures { GivesExactly (λ x. (draft_of x.0, x.1.now)) result (after_65_at bytes.now) }
{
    let (b, rest) = byte(bytes)?;
    plain(true, b, rest)
}

/// An instruction or jump, whatever the number of its bytes.
#[tactic(auto, unfolding(crate::specs::Reading::draft_at))]
pub fn draft(bytes: &[u8]) -> Result<(Draft, &[u8]), DraftFault>
    ensures { GivesExactly (λ x. (draft_of x.0, x.1.now)) result (draft_at bytes.now) }
{
    let (b, rest) = byte(bytes)?;
    if b == 0x65 {
        after_65(rest)
    } else if b == 0xF3 {
        f3(rest)
    } else if b == 0x66 {
        after_66(rest)
    } else if b == 0x2E {
        after_2e(rest)
    } else {
        plain(false, b, rest)
    }
}
