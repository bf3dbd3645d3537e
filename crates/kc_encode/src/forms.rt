//! The forms of the instructions with operands: which opcode line spells which operands.

ghost use Rattle.std.specs.Prelude.{◌≡◌, ◌++◌, ◌∷◌, [], ◌<◌, IsTrue, OnOk};
ghost use Rattle.kc_insn.specs.Encodable.{is_immediate, is_move, is_pair, is_test, is_pushed, is_signed_long};
ghost use Rattle.kc_words.specs.declared.width.Width.TheVariants.{Byte as WidthByte};
ghost use Rattle.kc_insn.specs.declared.insn.Place.TheVariants.{Reg as Register, Mem as Memory};
ghost use Rattle.kc_insn.specs.declared.insn.Source.TheVariants.{Imm};
ghost use Rattle.kc_encode.specs.Canonical.{is_signed_byte as signed_byte, one_byte, four_bytes, mov, mov_immediate, push, pop, alu_digit as alu_extension, arithmetic, needs_rex as rex_needed, test, test_immediate, bit_digit as bit_extension, with_digit};

use crate::number::{
    is_signed_byte, is_signed_number, put_byte, put_immediate, put_quad, put_signed, signed_at,
};
use crate::opcode::{put_opcode_register, put_with_digit, put_with_register};
use crate::operand::put_operand;
use kc_insn::{AluOp, BitOp, Place, Reg, Source};
use kc_plain::NoMemory;
use kc_words::Width;

fn put_mov_imm(out: &mut Vec<u8>, w: Width, d: Reg, z: i64) -> Result<(), NoMemory>
    requires { IsTrue (is_move w (Register d) (Imm z)) }
    ensures { OnOk result (out.new.items ≡ out.old.items ++ mov w (Register d) (Imm z)) }
{
    match w {
        Width::Byte | Width::Long => {
            put_opcode_register(out, false, 0xB8, d)?;
            put_immediate(out, Width::Long, z)
        }
        Width::Quad => {
            if is_signed_number(z) {
                put_with_digit(out, Width::Quad, &[0xC7], 0, Place::Reg(d))?;
                return put_signed(out, z);
            }
            put_opcode_register(out, true, 0xB8, d)?;
            put_quad(out, z)
        }
    }
}

/// Writes MOV.
pub fn put_mov(out: &mut Vec<u8>, w: Width, p: Place, s: Source) -> Result<(), NoMemory>
    requires { IsTrue (is_move w p s) }
    ensures { OnOk result (out.new.items ≡ out.old.items ++ mov w p s) }
{
    match s {
        Source::Reg(s) => put_with_register(out, w, 0x89, s, p),
        Source::Mem(m) => match p {
            Place::Reg(d) => put_with_register(out, w, 0x8B, d, Place::Mem(m)),
            Place::Mem(_) => Ok(()),
        },
        Source::Imm(z) => match p {
            Place::Reg(d) => put_mov_imm(out, w, d, z),
            Place::Mem(m) => {
                put_with_digit(out, w, &[0xC7], 0, Place::Mem(m))?;
                put_immediate(out, w, z)
            }
        },
    }
}

/// Writes PUSH.
pub fn put_push(out: &mut Vec<u8>, s: Source) -> Result<(), NoMemory>
    requires { IsTrue (is_pushed s) }
    ensures { OnOk result (out.new.items ≡ out.old.items ++ push s) }
{
    match s {
        Source::Reg(r) => put_opcode_register(out, false, 0x50, r),
        Source::Mem(m) => put_with_digit(out, Width::Long, &[0xFF], 6, Place::Mem(m)),
        Source::Imm(z) => {
            if is_signed_byte(z) {
                out.push(0x6A)?;
                return put_byte(out, z);
            }
            out.push(0x68)?;
            put_signed(out, z)
        }
    }
}

/// Writes POP.
pub fn put_pop(out: &mut Vec<u8>, p: Place) -> Result<(), NoMemory>
    ensures { OnOk result (out.new.items ≡ out.old.items ++ pop p) }
{
    match p {
        Place::Reg(r) => put_opcode_register(out, false, 0x58, r),
        Place::Mem(m) => put_with_digit(out, Width::Long, &[0x8F], 0, Place::Mem(m)),
    }
}

fn alu_digit(op: AluOp) -> u8
    ensures is { result ≡ alu_extension op }
    ensures below { result < 8 }
{
    match op {
        AluOp::Add => 0,
        AluOp::Or => 1,
        AluOp::And => 4,
        AluOp::Sub => 5,
        AluOp::Xor => 6,
        AluOp::Cmp => 7,
    }
}

fn put_short(out: &mut Vec<u8>, op: AluOp, w: Width, p: Place, z: i64) -> Result<(), NoMemory>
    requires { IsTrue (signed_byte z) }
    ensures { OnOk result (out.new.items ≡ out.old.items
        ++ with_digit w (0x83 ∷ []) (alu_extension op) p ++ one_byte z) }
{
    put_with_digit(out, w, &[0x83], alu_digit(op), p)?;
    put_byte(out, z)
}

fn put_long(out: &mut Vec<u8>, op: AluOp, w: Width, p: Place, z: i64) -> Result<(), NoMemory>
    requires { IsTrue (is_immediate w z) }
    ensures { OnOk result (out.new.items ≡ out.old.items
        ++ with_digit w (0x81 ∷ []) (alu_extension op) p ++ four_bytes z) }
{
    put_with_digit(out, w, &[0x81], alu_digit(op), p)?;
    put_immediate(out, w, z)
}

fn put_arithmetic_imm(
    out: &mut Vec<u8>,
    op: AluOp,
    w: Width,
    p: Place,
    z: i64,
) -> Result<(), NoMemory>
    requires { IsTrue (is_immediate w z) }
    ensures { OnOk result (out.new.items ≡ out.old.items ++ arithmetic op w p (Imm z)) }
{
    let signed = signed_at(w, z);
    if is_signed_byte(signed) {
        put_short(out, op, w, p, signed)
    } else {
        put_long(out, op, w, p, z)
    }
}

/// Writes ADD, OR, AND, SUB, XOR or CMP.
pub fn put_arithmetic(
    out: &mut Vec<u8>,
    op: AluOp,
    w: Width,
    p: Place,
    s: Source,
) -> Result<(), NoMemory>
    requires { IsTrue (is_pair w p s) }
    ensures { OnOk result (out.new.items ≡ out.old.items ++ arithmetic op w p s) }
{
    match s {
        Source::Reg(s) => put_with_register(out, w, 8 * alu_digit(op) + 1, s, p),
        Source::Mem(m) => match p {
            Place::Reg(d) => put_with_register(out, w, 8 * alu_digit(op) + 3, d, Place::Mem(m)),
            Place::Mem(_) => Ok(()),
        },
        Source::Imm(z) => put_arithmetic_imm(out, op, w, p, z),
    }
}

fn needs_rex(p: Place) -> bool
    ensures { result ≡ rex_needed p }
{
    match p {
        Place::Reg(r) => 4 <= r.0 && r.0 < 8,
        Place::Mem(_) => false,
    }
}

fn put_test_byte(out: &mut Vec<u8>, p: Place, z: i64) -> Result<(), NoMemory>
    requires { IsTrue (is_immediate WidthByte z) }
    ensures { OnOk result (out.new.items ≡ out.old.items ++ test WidthByte p (Imm z)) }
{
    if needs_rex(p) {
        out.extend_from_slice(&[0x40, 0xF6])?;
        put_operand(out, 0, p)?;
        out.push(z as u8)?;
        return Ok(());
    }
    put_with_digit(out, Width::Byte, &[0xF6], 0, p)?;
    out.push(z as u8)?;
    Ok(())
}

/// Writes TEST.
pub fn put_test(out: &mut Vec<u8>, w: Width, p: Place, s: Source) -> Result<(), NoMemory>
    requires { IsTrue (is_test w p s) }
    ensures { OnOk result (out.new.items ≡ out.old.items ++ test w p s) }
{
    match s {
        Source::Reg(s) => put_with_register(out, w, 0x85, s, p),
        Source::Mem(_) => Ok(()),
        Source::Imm(z) => match w {
            Width::Byte => put_test_byte(out, p, z),
            Width::Long | Width::Quad => {
                put_with_digit(out, w, &[0xF7], 0, p)?;
                put_immediate(out, w, z)
            }
        },
    }
}

fn bit_digit(op: BitOp) -> u8
    ensures is { result ≡ bit_extension op }
    ensures below { result < 8 }
{
    match op {
        BitOp::Test => 4,
        BitOp::Set => 5,
        BitOp::Reset => 6,
    }
}

/// Writes BT, BTS or BTR.
pub fn put_bit(out: &mut Vec<u8>, op: BitOp, w: Width, p: Place, n: u8) -> Result<(), NoMemory>
    ensures { OnOk result (out.new.items ≡ out.old.items
        ++ with_digit w (0x0F ∷ 0xBA ∷ []) (bit_extension op) p ++ n ∷ []) }
{
    put_with_digit(out, w, &[0x0F, 0xBA], bit_digit(op), p)?;
    out.push(n)?;
    Ok(())
}
