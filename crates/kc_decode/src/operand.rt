//! ModRM, SIB and displacement in 64-bit mode (Intel SDM vol. 2, "ModR/M and SIB Bytes").

ghost use Rattle.std.specs.Prelude.{◌≡◌, ◌<◌, ◌^◌, option_map, IfOk};
ghost use Rattle.kc_insn.specs.Fields.{disp_bytes, base_of as memory_base, index_of as sib_index};
ghost use Rattle.kc_insn.specs.Table.{alu_of, bit_of};
ghost use Rattle.kc_decode.specs.Views.{disp_of, form_of, group_of, imm_op_of};
ghost use Rattle.kc_rules.specs.Rules.{GivesExactly};
ghost use Rattle.kc_decode.specs.Reading.{disp_at, sib_at, no_sib_at, memory_at, rm_at, operand_at, mode_field, reg_field, rm_field, takes_modrm as form_takes};

use crate::fault::DraftFault;
use crate::fields::{byte, extended, number1, number4, rex_b, rex_x};
use crate::form::{Form, Group};
use kc_insn::{AluOp, Base, BitOp, Mem, Place, Reg, Rex};

/// How many bytes a displacement takes.
#[derive(Clone, Copy)]
pub enum Disp {
    Absent,
    One,
    Four,
}

/// The prefixes before an opcode.
#[derive(Clone, Copy)]
pub struct Head {
    /// The prefix 65 stands.
    pub gs: bool,
    pub rex: Option<Rex>,
}

fn disp_size(mode: u8, field: u8) -> Disp
    ensures { disp_of result ≡ disp_bytes mode field }
{
    if mode == 0 {
        if field == 5 { Disp::Four } else { Disp::Absent }
    } else if mode == 1 {
        Disp::One
    } else {
        Disp::Four
    }
}

/// The displacement of this size that the bytes begin with, as a signed number, and what follows it.
#[tactic(auto, unfolding(crate::specs::Reading::disp_at))]
pub fn displacement(size: Disp, bytes: &[u8]) -> Result<(i32, &[u8]), DraftFault>
    ensures { GivesExactly (λ x. (x.0, x.1.now)) result (disp_at (disp_of size) bytes.now) }
{
    match size {
        Disp::Absent => Ok((0, bytes)),
        Disp::One => {
            let (number, rest) = number1(bytes)?;
            Ok((i32::from(number.cast_signed()), rest))
        }
        Disp::Four => {
            let (number, rest) = number4(bytes)?;
            Ok((number.cast_signed(), rest))
        }
    }
}

/// An instruction of an operand rm and an immediate.
#[derive(Clone, Copy)]
pub enum ImmOp {
    Mov,
    Test,
    Alu(AluOp),
}

fn base_of(special: Base, rex: Option<Rex>, mode: u8, field: u8) -> Base
    requires { field < 8 }
    ensures { result ≡ memory_base special rex mode field }
{
    if mode == 0 && field == 5 {
        special
    } else {
        Base::Reg(extended(rex_b(rex), field))
    }
}

fn scale_of(scale: u8) -> u8
    requires { scale < 4 }
    ensures { result ≡ 2 ^ scale }
{
    if scale == 0 {
        1
    } else if scale == 1 {
        2
    } else if scale == 2 {
        4
    } else {
        8
    }
}

fn index_of(rex: Option<Rex>, scale: u8, index: u8) -> Option<(Reg, u8)>
    requires scale { scale < 4 }
    requires index { index < 8 }
    ensures { result ≡ sib_index rex scale index }
{
    let register = extended(rex_x(rex), index);
    if register.0 == 4 {
        None
    } else {
        Some((register, scale_of(scale)))
    }
}

#[tactic(auto, unfolding(crate::specs::Reading::sib_at))]
fn sib(head: Head, mode: u8, bytes: &[u8]) -> Result<(Mem, &[u8]), DraftFault>
    ensures { GivesExactly (λ x. (x.0, x.1.now)) result (sib_at head.gs head.rex mode bytes.now) }
{
    let (sib, rest) = byte(bytes)?;
    let (disp, rest) = displacement(disp_size(mode, sib % 8), rest)?;
    let base = base_of(Base::Absent, head.rex, mode, sib % 8);
    let index = index_of(head.rex, sib / 64, sib / 8 % 8);
    Ok((
        Mem {
            gs: head.gs,
            base,
            index,
            disp,
        },
        rest,
    ))
}

#[tactic(auto, unfolding(crate::specs::Reading::no_sib_at))]
fn no_sib(head: Head, mode: u8, rm: u8, bytes: &[u8]) -> Result<(Mem, &[u8]), DraftFault>
    requires { rm < 8 }
    ensures { GivesExactly (λ x. (x.0, x.1.now)) result (no_sib_at head.gs head.rex mode rm bytes.now) }
{
    let (disp, rest) = displacement(disp_size(mode, rm), bytes)?;
    let base = base_of(Base::Rip, head.rex, mode, rm);
    Ok((
        Mem {
            gs: head.gs,
            base,
            index: None,
            disp,
        },
        rest,
    ))
}

/// A memory operand after a ModRM byte with these fields.
#[tactic(auto, unfolding(crate::specs::Reading::memory_at))]
pub fn memory(head: Head, mode: u8, rm: u8, bytes: &[u8]) -> Result<(Mem, &[u8]), DraftFault>
    requires { rm < 8 }
    ensures { GivesExactly (λ x. (x.0, x.1.now)) result (memory_at head.gs head.rex mode rm bytes.now) }
{
    if rm == 4 {
        sib(head, mode, bytes)
    } else if rex_x(head.rex) {
        Err(DraftFault::Unknown)
    } else {
        no_sib(head, mode, rm, bytes)
    }
}

/// An operand rm after a ModRM byte with these fields.
#[tactic(auto, unfolding(crate::specs::Reading::rm_at))]
pub fn rm_operand(head: Head, mode: u8, rm: u8, bytes: &[u8]) -> Result<(Place, &[u8]), DraftFault>
    requires { rm < 8 }
    ensures { GivesExactly (λ x. (x.0, x.1.now)) result (rm_at head.gs head.rex mode rm bytes.now) }
{
    if mode == 3 {
        if head.gs || rex_x(head.rex) {
            return Err(DraftFault::Unknown);
        }
        return Ok((Place::Reg(extended(rex_b(head.rex), rm)), bytes));
    }
    let (mem, rest) = memory(head, mode, rm, bytes)?;
    Ok((Place::Mem(mem), rest))
}

/// The operation of opcodes 81 and 83 by the reg field.
fn alu_op(reg: u8) -> Option<AluOp>
    ensures { result ≡ alu_of reg }
{
    match reg {
        0 => Some(AluOp::Add),
        1 => Some(AluOp::Or),
        4 => Some(AluOp::And),
        5 => Some(AluOp::Sub),
        6 => Some(AluOp::Xor),
        7 => Some(AluOp::Cmp),
        _ => None,
    }
}

/// The operation of opcode 0F BA by the reg field.
pub fn bit_op(reg: u8) -> Option<BitOp>
    ensures { result ≡ bit_of reg }
{
    match reg {
        4 => Some(BitOp::Test),
        5 => Some(BitOp::Set),
        6 => Some(BitOp::Reset),
        _ => None,
    }
}

/// The instruction of a group that the reg field selects.
pub fn imm_op(group: Group, reg: u8) -> Option<ImmOp>
    ensures { option_map imm_op_of result ≡ group_of group reg }
{
    match group {
        Group::Mov => (reg == 0).then_some(ImmOp::Mov),
        Group::Test => (reg == 0).then_some(ImmOp::Test),
        Group::Alu => alu_op(reg).map(ImmOp::Alu),
    }
}

/// Whether the form takes a ModRM byte with these fields.
fn takes_modrm(form: Form, rex: Option<Rex>, mode: u8, reg: u8, rm: u8) -> bool
    ensures { result ≡ form_takes (form_of form) rex mode reg rm }
{
    match form {
        Form::RmReg(_) | Form::MovLoad | Form::AluLoad(_) => true,
        Form::TestByte => reg == 0 && (mode != 3 || rex.is_some() || rm < 4),
        Form::PushRm => reg == 6,
        Form::PopRm | Form::Nop => reg == 0,
        _ => false,
    }
}

/// The reg field and the operand rm of a form.
#[tactic(auto, unfolding(crate::specs::Reading::operand_at))]
pub fn operand(form: Form, head: Head, bytes: &[u8]) -> Result<((u8, Place), &[u8]), DraftFault>
    ensures read { GivesExactly (λ x. (x.0, x.1.now)) result (operand_at (form_of form) head.gs head.rex bytes.now) }
    ensures field { IfOk result (λ x. x.0.0 < 8) }
{
    let (modrm, rest) = byte(bytes)?;
    let mode = modrm / 64;
    let reg = modrm / 8 % 8;
    let rm = modrm % 8;
    if !takes_modrm(form, head.rex, mode, reg, rm) {
        return Err(DraftFault::Unknown);
    }
    let (place, rest) = rm_operand(head, mode, rm, rest)?;
    Ok(((reg, place), rest))
}
