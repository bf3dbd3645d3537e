//! What is known of the status flags after arithmetic, this project's own: exact where both operands are
//! known, and else by simple rules.

ghost use Rattle.std.specs.Prelude.{◌≡◌, ◌<◌, cond, bit_and, bit_or};
ghost use Rattle.kc_bits.specs.Bits.{bits_single};
ghost use Rattle.kc_words.specs.Flags.{bits_of, result_flags};
ghost use Rattle.kc_state.specs.Flags.{clear_flag, forgotten, exact_flags, alu_bits, is_difference, is_logic, differ, is_known_zero, known_zf, known_sf, known_flags, exact_alu, alu_flags, bit_flags, status};

use crate::flags::{clear_flag, forget, known_flag, mark, with_tri};
use kc_bits::Bits;
use kc_insn::AluOp;
use kc_space::Tri;
use kc_words::{Width, add_flags, logic_flags, sub_flags};

// CF, PF, AF, ZF, SF and OF. The definitions have these masks again, so that a wrong one shows.
const STATUS: u64 = 0x8D5;

// The same without AF, which AND, OR, XOR and TEST leave undefined.
const LOGIC_STATUS: u64 = 0x8C5;

const CF: u64 = 0x1;

const ZF: u64 = 0x40;

const SF: u64 = 0x80;

const CF_AND_OF: u64 = 0x801;

// The status flags without ZF.
const BIT_STATUS: u64 = 0x895;

// What is known of a result, of operands that have 0 above the width.
pub(crate) fn alu_bits(op: AluOp, w: Width, x: &Bits, y: &Bits) -> Bits
    ensures { result ≡ alu_bits op (bits_of w) x.now y.now }
{
    match op {
        AluOp::Add => x.add(y).cut(w),
        AluOp::Or => x.or(y),
        AluOp::And => x.and(y),
        AluOp::Sub | AluOp::Cmp => x.sub(y).cut(w),
        AluOp::Xor => x.xor(y),
    }
}

// The flags of `defined` become exactly those of `n`, and the other status flags are unknown.
fn exact_flags(b: &Bits, defined: u64, n: u64) -> Bits
    requires { bit_and status defined ≡ defined }
    ensures { result ≡ exact_flags b.now defined n }
{
    mark(b, STATUS, n & defined, !n & defined)
}

fn exact_logic(w: Width, n: u64, b: &Bits) -> Bits
    ensures { result ≡ exact_flags b.now 0x8C5 (result_flags (bits_of w) n) }
{
    exact_flags(b, LOGIC_STATUS, logic_flags(w, n))
}

fn exact_alu(op: AluOp, w: Width, x: u64, y: u64, b: &Bits) -> Bits
    ensures { result ≡ exact_alu op (bits_of w) x y b.now }
{
    match op {
        AluOp::Add => exact_flags(b, STATUS, add_flags(w, x, y)),
        AluOp::Or => exact_logic(w, x | y, b),
        AluOp::And => exact_logic(w, x & y, b),
        AluOp::Sub | AluOp::Cmp => exact_flags(b, STATUS, sub_flags(w, x, y)),
        AluOp::Xor => exact_logic(w, x ^ y, b),
    }
}

fn is_difference(op: AluOp) -> bool
    ensures { result ≡ is_difference op }
{
    matches!(op, AluOp::Sub | AluOp::Cmp)
}

fn is_logic(op: AluOp) -> bool
    ensures { result ≡ is_logic op }
{
    matches!(op, AluOp::Or | AluOp::And | AluOp::Xor)
}

// Whether a bit is known in both, and differs.
fn differ(x: &Bits, y: &Bits) -> bool
    ensures { result ≡ differ x.now y.now }
{
    (x.zeros & y.ones) | (x.ones & y.zeros) != 0
}

fn is_known_zero(b: &Bits) -> bool
    ensures { result ≡ is_known_zero (bits_single b.now) }
{
    match b.single() {
        Some(n) => n == 0,
        None => false,
    }
}

// What is known of ZF, where `r` is known of the result.
fn known_zf(op: AluOp, x: &Bits, y: &Bits, r: &Bits) -> Tri
    ensures { result ≡ known_zf op x.now y.now r.now }
{
    if is_known_zero(r) {
        Tri::Yes
    } else if r.ones != 0 {
        Tri::No
    } else if is_difference(op) && differ(x, y) {
        Tri::No
    } else {
        Tri::Any
    }
}

// What is known of SF: the top bit of the result.
fn known_sf(w: Width, r: &Bits) -> Tri
    ensures { result ≡ known_sf (bits_of w) r.now }
{
    known_flag(r, w.bits() - 1)
}

// The status flags are unknown, and after logic CF and OF are clear.
fn without_status(op: AluOp, b: &Bits) -> Bits
    ensures { result ≡ cond (is_logic op) (clear_flag 0x801 (forgotten b.now status)) (forgotten b.now status) }
{
    let unknown = forget(b, STATUS);
    if is_logic(op) {
        clear_flag(CF_AND_OF, &unknown)
    } else {
        unknown
    }
}

// The flags where an operand isn't known.
fn known_flags(op: AluOp, w: Width, x: &Bits, y: &Bits, b: &Bits) -> Bits
    ensures { result ≡ known_flags op (bits_of w) x.now y.now b.now }
{
    let r = alu_bits(op, w, x, y);
    let rest = with_tri(SF, known_sf(w, &r), &without_status(op, b));
    with_tri(ZF, known_zf(op, x, y, &r), &rest)
}

// The flags after an operation, of flags of which `b` is known.
pub(crate) fn alu_flags(op: AluOp, w: Width, x: &Bits, y: &Bits, b: &Bits) -> Bits
    ensures { result ≡ alu_flags op (bits_of w) x.now y.now b.now }
{
    match x.single() {
        Some(i) => match y.single() {
            Some(j) => exact_alu(op, w, i, j, b),
            None => known_flags(op, w, x, y, b),
        },
        None => known_flags(op, w, x, y, b),
    }
}

// The flags after BT, BTS and BTR: CF is the operand's bit, and ZF stays.
pub(crate) fn bit_flags(i: u8, x: &Bits, b: &Bits) -> Bits
    requires { i < 64 }
    ensures { result ≡ bit_flags i x.now b.now }
{
    with_tri(CF, known_flag(x, u32::from(i)), &forget(b, BIT_STATUS))
}
