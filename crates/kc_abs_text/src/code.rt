//! Instructions at their addresses, and sites.

ghost use Rattle.std.specs.Prelude.{◌≡◌, ◌≤◌, true};
ghost use Rattle.kc_insn.specs.Encodable.{is_encodable};

use crate::numbers::number;
use hex::decode_to_slice;
use kc_decode::decode;
use kc_insn::Insn;
use kc_state::Site;

/// An instruction and the number of its bytes.
#[derive(Clone, Copy)]
pub struct Code {
    pub insn: Insn,
    pub len: u8,
    ghost encodable: { is_encodable insn ≡ true },
    ghost length: { (1 ≤ len) × (len ≤ 15) },
}

/// The bytes of one instruction at this address, two hexadecimal digits each; behind a blank its text,
/// a note.
pub fn code_at(at: u64, text: &str) -> Option<Code> {
    let digits = match text.split_once(' ') {
        Some((digits, _)) => digits,
        None => text,
    };
    let mut bytes = [0u8; 15];
    let whole = bytes.get_mut(..digits.len() / 2)?;
    decode_to_slice(digits.as_bytes(), whole).ok()?;
    let (insn, len) = decode(whole, at).ok()?;
    whole_code(insn, len, whole.len())
}

fn whole_code(insn: Insn, len: u8, count: usize) -> Option<Code> {
    if insn.encodable() && usize::from(len) == count && 1 <= len && len <= 15 {
        Some(Code { insn, len })
    } else {
        None
    }
}

/// An address, and ` body` behind it inside the handler that the instruction there calls.
pub fn site(text: &str) -> Option<Site> {
    match text.strip_suffix(" body") {
        Some(at) => Some(Site {
            at: number(at)?,
            inside: true,
        }),
        None => Some(Site {
            at: number(text)?,
            inside: false,
        }),
    }
}
