//! Jumps by a distance of 32 bits from the address after them (Intel SDM vol. 2, "JMP").

ghost use Rattle.std.specs.Prelude.{◌≡◌, ◌+◌, ◌++◌, IsTrue, OnOk};
ghost use Rattle.kc_encode.specs.Canonical.{distance as distance_to, in_reach as reached, reaches as reaches_target, four_bytes};

use crate::number::{is_signed_number, put_signed};
use kc_insn::Insn;
use kc_plain::NoMemory;

/// How far the target lies from the end of a jump of `len` bytes at this address.
fn distance(at: u64, len: u64, target: u64) -> i64
    ensures { result ≡ distance_to (at + len) target }
{
    target.wrapping_sub(at.wrapping_add(len)).cast_signed()
}

fn in_reach(at: u64, len: u64, target: u64) -> bool
    ensures { result ≡ reached (at + len) target }
{
    is_signed_number(distance(at, len, target))
}

/// Whether the instruction's target is in reach, where it has one.
pub fn reaches(insn: Insn, at: u64) -> bool
    ensures { result ≡ reaches_target insn at }
{
    match insn {
        Insn::Jcc(_, target) => in_reach(at, 6, target),
        Insn::Jmp(target) | Insn::Call(target) => in_reach(at, 5, target),
        _ => true,
    }
}

/// Writes the distance of a target in reach from the end of a jump of `len` bytes.
pub fn put_distance(out: &mut Vec<u8>, at: u64, len: u64, target: u64) -> Result<(), NoMemory>
    requires { IsTrue (reached (at + len) target) }
    ensures { OnOk result (out.new.items ≡ out.old.items ++ four_bytes (distance_to (at + len) target)) }
{
    put_signed(out, distance(at, len, target))
}
