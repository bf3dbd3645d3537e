//! ADD, OR, AND, SUB, XOR, CMP, TEST, BT, BTS and BTR (Intel SDM vol. 2).

ghost use Rattle.std.specs.Prelude.{◌≡◌, ◌<◌, ◌^◌, ◌%◌};
ghost use Rattle.kc_words.specs.Flags.{bits_of};
ghost use Rattle.kc_exec.specs.Effect.{row, alu_result, alu_flags, logic_flags_after, bit_result, bit_flags};
ghost use Rattle.kc_insn.specs.declared.insn.Insn.TheVariants.{Alu, Test, Bit};

use crate::before::Before;
use crate::executed::{Executed, finish};
use crate::flags::{CARRY, LOGIC_STATUS, STATUS, replace_flags};
use kc_insn::{AluOp, BitOp, Place, Source};
use kc_words::{Width, add_flags, logic_flags, sub_flags};

// The result of an operation at this width, none for CMP.
fn compute(op: AluOp, w: Width, x: u64, y: u64) -> Option<u64>
    ensures { result ≡ alu_result op w x y }
{
    match op {
        AluOp::Add => Some(w.cut(x.wrapping_add(y))),
        AluOp::Or => Some(x | y),
        AluOp::And => Some(x & y),
        AluOp::Sub => Some(w.cut(x.wrapping_sub(y))),
        AluOp::Xor => Some(x ^ y),
        AluOp::Cmp => None,
    }
}

fn flags_of_logic(w: Width, r: u64, flags: u64) -> u64
    ensures { result ≡ logic_flags_after w r flags }
{
    replace_flags(LOGIC_STATUS, logic_flags(w, r), flags)
}

fn flags_after(op: AluOp, w: Width, x: u64, y: u64, flags: u64) -> u64
    ensures { result ≡ alu_flags op w x y flags }
{
    match op {
        AluOp::Add => replace_flags(STATUS, add_flags(w, x, y), flags),
        AluOp::Or => flags_of_logic(w, x | y, flags),
        AluOp::And => flags_of_logic(w, x & y, flags),
        AluOp::Sub => replace_flags(STATUS, sub_flags(w, x, y), flags),
        AluOp::Xor => flags_of_logic(w, x ^ y, flags),
        AluOp::Cmp => replace_flags(STATUS, sub_flags(w, x, y), flags),
    }
}

#[tactic(auto, unfolding(crate::specs::Effect::row))]
pub(crate) fn alu(m: &Before, op: AluOp, w: Width, dest: Place, src: Source) -> Executed
    ensures { result ≡ row m.now (Alu op w dest src) }
{
    let x = m.place(w, dest);
    let y = m.source(w, src);
    let flags = flags_after(op, w, x, y, m.cpu.flags);
    finish(
        m,
        w,
        dest,
        m.pair_reads(w, dest, src),
        flags,
        compute(op, w, x, y),
    )
}

#[tactic(auto, unfolding(crate::specs::Effect::row))]
pub(crate) fn test(m: &Before, w: Width, dest: Place, src: Source) -> Executed
    ensures { result ≡ row m.now (Test w dest src) }
{
    let r = m.place(w, dest) & m.source(w, src);
    let flags = flags_of_logic(w, r, m.cpu.flags);
    finish(m, w, dest, m.pair_reads(w, dest, src), flags, None)
}

// The bit that a number names in an operand of this width.
fn bit_index(w: Width, number: u8) -> u8
    ensures value { result ≡ number % bits_of w }
    ensures bound { result < 64 }
{
    match w {
        Width::Byte => number % 8,
        Width::Long => number % 32,
        Width::Quad => number % 64,
    }
}

fn changed_bit(op: BitOp, i: u8, x: u64) -> Option<u64>
    requires { i < 64 }
    ensures { result ≡ bit_result op i x }
{
    match op {
        BitOp::Test => None,
        BitOp::Set => Some(x | 1 << i),
        BitOp::Reset => Some(x & !(1 << i)),
    }
}

fn flags_of_bit(i: u8, x: u64, flags: u64) -> u64
    requires { i < 64 }
    ensures { result ≡ bit_flags i x flags }
{
    replace_flags(CARRY, (x >> i) & 1, flags)
}

#[tactic(auto, unfolding(crate::specs::Effect::row))]
pub(crate) fn bit(m: &Before, op: BitOp, w: Width, dest: Place, number: u8) -> Executed
    ensures { result ≡ row m.now (Bit op w dest number) }
{
    let x = m.place(w, dest);
    let i = bit_index(w, number);
    let flags = flags_of_bit(i, x, m.cpu.flags);
    finish(
        m,
        w,
        dest,
        m.place_reads(w, dest),
        flags,
        changed_bit(op, i, x),
    )
}
