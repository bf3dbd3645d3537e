//! What is encodable has a spelling.

ghost use Rattle.std.specs.Prelude.{ℕ, List, IsTrue};
ghost use Rattle.kc_insn.specs.Encodable.{is_encodable};
ghost use Rattle.kc_insn.specs.Spells.{Spells};
ghost use Rattle.kc_encode.specs.Canonical.{reaches};

use crate::encoder::is_spelled;
use kc_insn::Insn;

/// An address from which the target is in reach: that of the target.
fn anchor(insn: Insn) -> u64
    ensures { IsTrue (reaches insn result) }
{
    match insn {
        Insn::Jcc(_, target) | Insn::Jmp(target) | Insn::Call(target) => target,
        _ => 0,
    }
}

/// Each encodable instruction has a spelling. With the clauses of `Insn::encodable`, it answers true
/// exactly where some bytes at some address spell the instruction.
pub fn has_spelling(insn: &Insn)
    requires encodable { IsTrue (is_encodable insn.now) }
    ensures spelled { (bytes : List ℕ) × (at : ℕ) × Spells bytes at insn.now }
{
    is_spelled(*insn, anchor(*insn));
}
