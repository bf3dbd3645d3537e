//! ADD, OR, AND, SUB, XOR, CMP, TEST, BT, BTS and BTR (Intel SDM vol. 2).

ghost use Rattle.std.specs.Prelude.{◌≡◌, ◌<◌, ◌%◌};
ghost use Rattle.kc_bits.specs.Bits.{bits_single};
ghost use Rattle.kc_insn.specs.Fields.{source_of};
ghost use Rattle.kc_insn.specs.declared.insn.Insn.TheVariants.{Alu, Test, Bit};
ghost use Rattle.kc_words.specs.Flags.{bits_of};
ghost use Rattle.kc_state.specs.AbsEffect.{abs_row, moved_base, is_based, is_quad, moved_or, alu_value, alu_result, alu_change, is_same_reg, cancels, bit_result};
ghost use Rattle.kc_state.specs.Scaled.{HasScale};

use crate::changed::Changed;
use crate::moment::bits_value;
use crate::operand::{destination, operand};
use crate::results::finish;
use crate::status::{alu_bits, alu_flags, bit_flags};
use kc_bits::Bits;
use kc_insn::{AluOp, BitOp, Place, Source};
use kc_state::{Moment, number_value, shift, shift_down};
use kc_value::{Sym, Value};
use kc_words::Width;

// A sum or difference with the known number `n` moves the base.
fn moved_base(m: &Moment, op: AluOp, v: &Value, n: u64, bits: &Bits) -> Value
    ensures { result ≡ moved_base m.now op v.now n bits.now }
{
    match op {
        AluOp::Add => shift(m.cfg, m.key, v, n.cast_signed()),
        AluOp::Sub => shift_down(m.cfg, m.key, v, n.cast_signed()),
        _ => bits_value(m.cfg, bits),
    }
}

fn is_based(sym: Sym) -> bool
    ensures { result ≡ is_based sym }
{
    matches!(sym, Sym::Base(_))
}

fn is_quad(w: Width) -> bool
    ensures { result ≡ is_quad w }
{
    w.bits() == 64
}

fn moved_or(m: &Moment, moves: bool, op: AluOp, v: &Value, known: Option<u64>, bits: &Bits) -> Value
    ensures { result ≡ moved_or m.now moves op v.now known bits.now }
{
    if moves {
        match known {
            Some(n) => moved_base(m, op, v, n, bits),
            None => bits_value(m.cfg, bits),
        }
    } else {
        bits_value(m.cfg, bits)
    }
}

fn alu_value(m: &Moment, op: AluOp, w: Width, x: &Value, y: &Value) -> Value
    ensures { result ≡ alu_value m.now op w x.now y.now }
{
    let bits = alu_bits(op, w, &x.bits.cut(w), &y.bits.cut(w));
    let moves = is_quad(w) && is_based(x.sym);
    moved_or(m, moves, op, x, y.bits.single(), &bits)
}

// The result of an operation, none for CMP.
fn alu_result(m: &Moment, op: AluOp, w: Width, x: &Value, y: &Value) -> Option<Value>
    ensures { result ≡ alu_result m.now op w x.now y.now }
{
    match op {
        AluOp::Cmp => None,
        _ => Some(alu_value(m, op, w, x, y)),
    }
}

fn alu_change(m: &Moment, op: AluOp, w: Width, dest: Place, x: &Value, y: &Value) -> Changed
    requires { HasScale (source_of dest) }
    ensures { result ≡ alu_change m.now op w dest x.now y.now }
{
    let cpu = m.cpu;
    let flags = alu_flags(op, w, &x.bits.cut(w), &y.bits.cut(w), &cpu.flags.bits);
    finish(m, w, dest, &flags, alu_result(m, op, w, x, y))
}

fn is_same_reg(dest: Place, src: Source) -> bool
    ensures { result ≡ is_same_reg dest src }
{
    match dest {
        Place::Reg(r) => match src {
            Source::Reg(s) => r.0 == s.0,
            _ => false,
        },
        Place::Mem(_) => false,
    }
}

// Whether the result of two equal operands is 0.
fn cancels(op: AluOp) -> bool
    ensures { result ≡ cancels op }
{
    matches!(op, AluOp::Sub | AluOp::Xor)
}

#[tactic(auto, unfolding(kc_state::specs::AbsEffect::abs_row))]
pub(crate) fn alu(m: &Moment, op: AluOp, w: Width, dest: Place, src: Source) -> Changed
    requires dest { HasScale (source_of dest) }
    requires src { HasScale src }
    ensures { result ≡ abs_row m.now (Alu op w dest src) }
{
    if cancels(op) && is_same_reg(dest, src) {
        let zero = number_value(m.cfg, 0);
        alu_change(m, op, w, dest, &zero, &zero)
    } else {
        alu_change(
            m,
            op,
            w,
            dest,
            &destination(m, w, dest),
            &operand(m, w, src),
        )
    }
}

#[tactic(auto, unfolding(kc_state::specs::AbsEffect::abs_row))]
pub(crate) fn test(m: &Moment, w: Width, dest: Place, src: Source) -> Changed
    requires dest { HasScale (source_of dest) }
    requires src { HasScale src }
    ensures { result ≡ abs_row m.now (Test w dest src) }
{
    let cpu = m.cpu;
    let x = destination(m, w, dest).bits.cut(w);
    let y = operand(m, w, src).bits.cut(w);
    let flags = alu_flags(AluOp::And, w, &x, &y, &cpu.flags.bits);
    finish(m, w, dest, &flags, None)
}

// The bit that a number names in an operand of this width.
fn bit_index(w: Width, number: u8) -> u8
    ensures value { result ≡ number % bits_of w }
    ensures bound { result < 64 }
{
    match w {
        Width::Byte => number % 8,
        Width::Long => number % 32,
        Width::Quad => number % 64,
    }
}

fn bit_result(m: &Moment, op: BitOp, i: u8, x: &Bits) -> Option<Value>
    requires { i < 64 }
    ensures { result ≡ bit_result m.now op i x.now }
{
    match op {
        BitOp::Test => None,
        BitOp::Set => Some(bits_value(m.cfg, &x.or(&Bits::of(1 << i)))),
        BitOp::Reset => Some(bits_value(m.cfg, &x.and(&Bits::of(!(1 << i))))),
    }
}

#[tactic(auto, unfolding(kc_state::specs::AbsEffect::abs_row))]
pub(crate) fn bit(m: &Moment, op: BitOp, w: Width, dest: Place, number: u8) -> Changed
    requires { HasScale (source_of dest) }
    ensures { result ≡ abs_row m.now (Bit op w dest number) }
{
    let cpu = m.cpu;
    let x = destination(m, w, dest).bits.cut(w);
    let i = bit_index(w, number);
    let flags = bit_flags(i, &x, &cpu.flags.bits);
    finish(m, w, dest, &flags, bit_result(m, op, i, &x))
}
