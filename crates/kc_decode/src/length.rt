//! The bound of fifteen bytes (Intel SDM vol. 2, "Instruction Format"): only padding can pass it.

ghost use Rattle.std.specs.Prelude.{◌≡◌, ◌+◌, ◌≤◌, ◌<◌, nat_le, length};
ghost use Rattle.kc_insn.specs.Fields.{disp_bytes};
ghost use Rattle.kc_decode.specs.Reading.{least_sib as sib_length, least_operand as operand_length, least_nop_tail as nop_tail_length, least_escape as escape_length, least_nop as nop_length, least_padded as padded_length, fits as fits_bound};

use crate::reading::{is_rex, rex_of};

/// The bytes of an instruction, at most.
pub const MAX_LENGTH: usize = 15;

fn disp_length(mode: u8, field: u8) -> usize
    ensures { result ≡ disp_bytes mode field }
{
    if mode == 0 {
        if field == 5 { 4 } else { 0 }
    } else if mode == 1 {
        1
    } else {
        4
    }
}

fn least_sib(mode: u8, bytes: &[u8]) -> usize
    ensures is { result ≡ sib_length mode bytes.now }
    ensures small { result ≤ 4 }
{
    match bytes {
        [] => disp_length(mode, 0),
        [sib, ..] => disp_length(mode, sib % 8),
    }
}

/// The least number of bytes of an operand that begins so, where `x` says that it has a SIB byte.
fn least_operand(x: bool, bytes: &[u8]) -> usize
    ensures is { result ≡ operand_length x bytes.now }
    ensures small { result ≤ 6 }
{
    match bytes {
        [] => { if x { 2 } else { 1 } }
        [modrm, rest @ ..] => {
            if *modrm / 64 == 3 {
                1
            } else if *modrm % 8 == 4 {
                2 + least_sib(*modrm / 64, rest)
            } else {
                1 + disp_length(*modrm / 64, *modrm % 8)
            }
        }
    }
}

fn least_nop_tail(x: bool, bytes: &[u8]) -> usize
    ensures is { result ≡ nop_tail_length x bytes.now }
    ensures small { result ≤ 7 }
{
    match bytes {
        [] => 1 + least_operand(x, bytes),
        [_, rest @ ..] => 1 + least_operand(x, rest),
    }
}

fn least_escape(x: bool, bytes: &[u8]) -> usize
    ensures is { result ≡ escape_length x bytes.now }
    ensures small { result ≤ 8 }
{
    match bytes {
        [] => 1 + least_nop_tail(x, bytes),
        [_, rest @ ..] => 1 + least_nop_tail(x, rest),
    }
}

/// The least number of bytes of a long NOP that begins so, after its padding.
fn least_nop(bytes: &[u8]) -> usize
    ensures is { result ≡ nop_length bytes.now }
    ensures small { result ≤ 9 }
{
    match bytes {
        [] => 3,
        [b, rest @ ..] => {
            if is_rex(*b) {
                1 + least_escape(rex_of(*b).x, rest)
            } else {
                1 + least_nop_tail(false, rest)
            }
        }
    }
}

/// Whether a NOP that begins so, with the padding, may end within so many bytes.
#[tactic(auto, unfolding(crate::specs::Reading::least_padded))]
fn padded_within(bytes: &[u8], limit: usize) -> bool
    ensures { result ≡ nat_le (padded_length bytes.now) limit }
{
    let mut left = bytes;
    let mut room = limit;
    while let [b, rest @ ..] = left {
        if *b == 0x66 {
            if room == 0 {
                return false;
            }
            room -= 1;
            left = rest;
        } else if *b == 0x2E {
            return 1 + least_nop(rest) <= room;
        } else {
            return least_nop(left) <= room;
        }
    }
    3 <= room
}

/// Whether an instruction that begins so may end within fifteen bytes.
#[tactic(auto, unfolding(crate::specs::Reading::fits))]
pub fn fits(bytes: &[u8]) -> bool
    ensures { result ≡ fits_bound bytes.now }
{
    match bytes {
        [] => true,
        [b, rest @ ..] => {
            if *b == 0x66 {
                match rest {
                    [] => true,
                    [second, ..] => {
                        if *second == 0x90 {
                            true
                        } else {
                            padded_within(rest, MAX_LENGTH - 1)
                        }
                    }
                }
            } else {
                true
            }
        }
    }
}
