//! Registers in fields of three bits, and REX, which has their fourth bits (Intel SDM vol. 2, "REX
//! Prefixes").

ghost use Rattle.std.specs.Prelude.{◌≡◌, ◌++◌, ◌<◌, OnOk};
ghost use Rattle.kc_insn.specs.Fields.{worth as bit_worth};
ghost use Rattle.kc_encode.specs.Canonical.{low as low_bits, high as high_bit, rex as needed_rex, rex_bytes, is_quad as quad};

use kc_insn::{Reg, Rex};
use kc_plain::NoMemory;
use kc_words::Width;

/// The low three bits of a register's number.
pub fn low(r: Reg) -> u8
    ensures is { result ≡ low_bits r }
    ensures below { result < 8 }
{
    r.0 % 8
}

/// The fourth bit.
pub fn high(r: Reg) -> bool
    ensures { result ≡ high_bit r }
{
    8 <= r.0
}

/// Whether REX.W is in use.
pub fn is_quad(w: Width) -> bool
    ensures { result ≡ quad w }
{
    match w {
        Width::Byte | Width::Long => false,
        Width::Quad => true,
    }
}

/// REX where one of its bits is in use.
#[tactic(auto, unfolding(crate::specs::Canonical::rex))]
pub fn rex(w: bool, r: bool, x: bool, b: bool) -> Option<Rex>
    ensures { result ≡ needed_rex w r x b }
{
    if w || (r || (x || b)) {
        Some(Rex { w, r, x, b })
    } else {
        None
    }
}

fn worth(bit: bool, at: u8) -> u8
    ensures { result ≡ bit_worth bit at }
{
    if bit { at } else { 0 }
}

/// Writes the REX byte where there is one.
#[tactic(auto, unfolding(crate::specs::Canonical::rex_bytes))]
pub fn put_rex(out: &mut Vec<u8>, rex: Option<Rex>) -> Result<(), NoMemory>
    ensures { OnOk result (out.new.items ≡ out.old.items ++ rex_bytes rex) }
{
    match rex {
        None => Ok(()),
        Some(rex) => {
            let byte = 64 + worth(rex.w, 8) + worth(rex.r, 4) + worth(rex.x, 2) + worth(rex.b, 1);
            out.push(byte)?;
            Ok(())
        }
    }
}
