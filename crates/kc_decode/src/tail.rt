//! What stands after an opcode, form by form (Intel SDM vol. 2, "Instruction Format").

ghost use Rattle.std.specs.Prelude.{◌≡◌, ◌<◌, ◌==◌, if◌then◌else◌, option_map};
ghost use Rattle.kc_insn.specs.Fields.{source_of as rm_source, size_bytes};
ghost use Rattle.kc_decode.specs.Views.{form_of, draft_of, pair_of, last_of, size_of, disp_of, imm_op_of, IsInRange};
ghost use Rattle.kc_rules.specs.Rules.{GivesExactly};
ghost use Rattle.kc_decode.specs.Reading.{tail_at, made as made_of, rm_imm_at, rm_bit_at};
ghost use Rattle.kc_decode.specs.declared.form.Form.TheVariants.{LastByte, RegisterImm, RmReg, MovLoad, AluLoad, Lea as LeaForm, RmImm, TestByte, Bit as BitForm, PushRm, PopRm, Nop as NopForm, ReadCr3 as ReadCr3Form, WriteCr3 as WriteCr3Form, GsBase, PushImm, TestRax, TestAl, Relative};
ghost use Rattle.kc_insn.specs.declared.insn.Insn.TheVariants.{ReadGs as InsnReadGs, WriteGs as InsnWriteGs};
ghost use Rattle.kc_insn.specs.declared.insn.Source.TheVariants.{Imm};

use crate::draft::Draft;
use crate::fault::DraftFault;
use crate::fields::{byte, extended, number1, number4, number8, rex_b, rex_r, rex_w, width_of};
use crate::form::{Form, Group, Jump, Last, Pair, Size};
use crate::immediate::immediate;
use crate::operand::{
    Disp, Head, ImmOp, bit_op, displacement, imm_op, memory, operand, rm_operand,
};
use kc_insn::{AluOp, BitOp, Insn, Place, Reg, Source};
use kc_words::Width;

fn source_of(place: Place) -> Source
    ensures { result ≡ rm_source place }
{
    match place {
        Place::Reg(reg) => Source::Reg(reg),
        Place::Mem(mem) => Source::Mem(mem),
    }
}

fn pair_insn(pair: Pair, w: Width, rm: Place, reg: Reg) -> Insn
    ensures { result ≡ pair_of pair w rm reg }
{
    match pair {
        Pair::Mov => Insn::Mov(w, rm, Source::Reg(reg)),
        Pair::Xchg => Insn::Xchg(w, rm, reg),
        Pair::Test => Insn::Test(w, rm, Source::Reg(reg)),
        Pair::Alu(op) => Insn::Alu(op, w, rm, Source::Reg(reg)),
    }
}

fn last_insn(last: Last, byte: u8) -> Option<Insn>
    ensures { result ≡ last_of last byte }
{
    match last {
        Last::System => match byte {
            0xF8 => Some(Insn::Swapgs),
            0xCA => Some(Insn::Clac),
            0xCB => Some(Insn::Stac),
            _ => None,
        },
        Last::Lfence => (byte == 0xE8).then_some(Insn::Lfence),
        Last::Endbr64 => (byte == 0xFA).then_some(Insn::Endbr64),
    }
}

fn made(insn: Option<Insn>, rest: &[u8]) -> Result<(Draft, &[u8]), DraftFault>
    ensures { GivesExactly (λ x. (draft_of x.0, x.1.now)) result (made_of insn rest.now) }
{
    match insn {
        Some(insn) => Ok((Draft::Whole(insn), rest)),
        None => Err(DraftFault::Unknown),
    }
}

#[tactic(auto, unfolding(crate::specs::Reading::tail_at))]
fn last_byte(last: Last, head: Head, bytes: &[u8]) -> Result<(Draft, &[u8]), DraftFault>
    ensures { GivesExactly (λ x. (draft_of x.0, x.1.now)) result
        (tail_at (form_of (LastByte last)) head.gs head.rex bytes.now) }
{
    let (last_byte, rest) = byte(bytes)?;
    made(last_insn(last, last_byte), rest)
}

#[tactic(auto, unfolding(crate::specs::Reading::tail_at))]
fn register_imm(r: u8, head: Head, bytes: &[u8]) -> Result<(Draft, &[u8]), DraftFault>
    requires { r < 8 }
    ensures { GivesExactly (λ x. (draft_of x.0, x.1.now)) result
        (tail_at (form_of (RegisterImm r)) head.gs head.rex bytes.now) }
{
    let place = Place::Reg(extended(rex_b(head.rex), r));
    if rex_w(head.rex) {
        let (number, rest) = number8(bytes)?;
        let source = Source::Imm(number.cast_signed());
        return Ok((
            Draft::Whole(Insn::Mov(width_of(head.rex), place, source)),
            rest,
        ));
    }
    let (number, rest) = number4(bytes)?;
    let source = Source::Imm(i64::from(number));
    Ok((
        Draft::Whole(Insn::Mov(width_of(head.rex), place, source)),
        rest,
    ))
}

#[tactic(auto, unfolding(crate::specs::Reading::tail_at))]
fn rm_reg(pair: Pair, head: Head, bytes: &[u8]) -> Result<(Draft, &[u8]), DraftFault>
    ensures { GivesExactly (λ x. (draft_of x.0, x.1.now)) result
        (tail_at (form_of (RmReg pair)) head.gs head.rex bytes.now) }
{
    let ((reg, rm), rest) = operand(Form::RmReg(pair), head, bytes)?;
    let reg = extended(rex_r(head.rex), reg);
    Ok((
        Draft::Whole(pair_insn(pair, width_of(head.rex), rm, reg)),
        rest,
    ))
}

#[tactic(auto, unfolding(crate::specs::Reading::tail_at))]
fn mov_load(head: Head, bytes: &[u8]) -> Result<(Draft, &[u8]), DraftFault>
    ensures { GivesExactly (λ x. (draft_of x.0, x.1.now)) result
        (tail_at (form_of MovLoad) head.gs head.rex bytes.now) }
{
    let ((reg, rm), rest) = operand(Form::MovLoad, head, bytes)?;
    let reg = Place::Reg(extended(rex_r(head.rex), reg));
    Ok((
        Draft::Whole(Insn::Mov(width_of(head.rex), reg, source_of(rm))),
        rest,
    ))
}

#[tactic(auto, unfolding(crate::specs::Reading::tail_at))]
fn alu_load(op: AluOp, head: Head, bytes: &[u8]) -> Result<(Draft, &[u8]), DraftFault>
    ensures { GivesExactly (λ x. (draft_of x.0, x.1.now)) result
        (tail_at (form_of (AluLoad op)) head.gs head.rex bytes.now) }
{
    let ((reg, rm), rest) = operand(Form::AluLoad(op), head, bytes)?;
    let reg = Place::Reg(extended(rex_r(head.rex), reg));
    Ok((
        Draft::Whole(Insn::Alu(op, width_of(head.rex), reg, source_of(rm))),
        rest,
    ))
}

#[tactic(auto, unfolding(crate::specs::Reading::tail_at))]
fn lea(head: Head, bytes: &[u8]) -> Result<(Draft, &[u8]), DraftFault>
    ensures { GivesExactly (λ x. (draft_of x.0, x.1.now)) result
        (tail_at (form_of LeaForm) head.gs head.rex bytes.now) }
{
    let (modrm, rest) = byte(bytes)?;
    if modrm / 64 == 3 {
        return Err(DraftFault::Unknown);
    }
    let (mem, rest) = memory(head, modrm / 64, modrm % 8, rest)?;
    let reg = extended(rex_r(head.rex), modrm / 8 % 8);
    Ok((Draft::Whole(Insn::Lea(width_of(head.rex), reg, mem)), rest))
}

fn imm_insn(op: ImmOp, w: Width, rm: Place, value: i64) -> Insn
    ensures { result ≡ imm_op_of op w rm (Imm value) }
{
    match op {
        ImmOp::Mov => Insn::Mov(w, rm, Source::Imm(value)),
        ImmOp::Test => Insn::Test(w, rm, Source::Imm(value)),
        ImmOp::Alu(op) => Insn::Alu(op, w, rm, Source::Imm(value)),
    }
}

/// What follows the ModRM byte that selected an instruction.
fn rm_imm_after(
    op: Option<ImmOp>,
    size: Size,
    head: Head,
    modrm: u8,
    bytes: &[u8],
) -> Result<(Draft, &[u8]), DraftFault>
    ensures { GivesExactly (λ x. (draft_of x.0, x.1.now)) result
        (rm_imm_at (option_map imm_op_of op) (size_of size) head.gs head.rex modrm bytes.now) }
{
    match op {
        None => Err(DraftFault::Unknown),
        Some(op) => {
            let (rm, rest) = rm_operand(head, modrm / 64, modrm % 8, bytes)?;
            let w = width_of(head.rex);
            let (value, rest) = immediate(w, size, rest)?;
            Ok((Draft::Whole(imm_insn(op, w, rm, value)), rest))
        }
    }
}

#[tactic(auto, unfolding(crate::specs::Reading::tail_at))]
fn rm_imm(group: Group, size: Size, head: Head, bytes: &[u8]) -> Result<(Draft, &[u8]), DraftFault>
    ensures { GivesExactly (λ x. (draft_of x.0, x.1.now)) result
        (tail_at (form_of (RmImm group size)) head.gs head.rex bytes.now) }
{
    let (modrm, rest) = byte(bytes)?;
    rm_imm_after(imm_op(group, modrm / 8 % 8), size, head, modrm, rest)
}

#[tactic(auto, unfolding(crate::specs::Reading::tail_at))]
fn test_byte(head: Head, bytes: &[u8]) -> Result<(Draft, &[u8]), DraftFault>
    ensures { GivesExactly (λ x. (draft_of x.0, x.1.now)) result
        (tail_at (form_of TestByte) head.gs head.rex bytes.now) }
{
    let ((_, rm), rest) = operand(Form::TestByte, head, bytes)?;
    let (value, rest) = immediate(Width::Byte, Size::One, rest)?;
    Ok((
        Draft::Whole(Insn::Test(Width::Byte, rm, Source::Imm(value))),
        rest,
    ))
}

/// What follows the ModRM byte that selected an operation.
fn rm_bit_after(
    op: Option<BitOp>,
    head: Head,
    modrm: u8,
    bytes: &[u8],
) -> Result<(Draft, &[u8]), DraftFault>
    ensures { GivesExactly (λ x. (draft_of x.0, x.1.now)) result (rm_bit_at op head.gs head.rex modrm bytes.now) }
{
    match op {
        None => Err(DraftFault::Unknown),
        Some(op) => {
            let (rm, rest) = rm_operand(head, modrm / 64, modrm % 8, bytes)?;
            let (bit, rest) = number1(rest)?;
            Ok((
                Draft::Whole(Insn::Bit(op, width_of(head.rex), rm, bit)),
                rest,
            ))
        }
    }
}

#[tactic(auto, unfolding(crate::specs::Reading::tail_at))]
fn rm_bit(head: Head, bytes: &[u8]) -> Result<(Draft, &[u8]), DraftFault>
    ensures { GivesExactly (λ x. (draft_of x.0, x.1.now)) result
        (tail_at (form_of BitForm) head.gs head.rex bytes.now) }
{
    let (modrm, rest) = byte(bytes)?;
    rm_bit_after(bit_op(modrm / 8 % 8), head, modrm, rest)
}

#[tactic(auto, unfolding(crate::specs::Reading::tail_at))]
fn push_rm(head: Head, bytes: &[u8]) -> Result<(Draft, &[u8]), DraftFault>
    ensures { GivesExactly (λ x. (draft_of x.0, x.1.now)) result (tail_at (form_of PushRm) head.gs head.rex bytes.now) }
{
    let ((_, rm), rest) = operand(Form::PushRm, head, bytes)?;
    Ok((Draft::Whole(Insn::Push(source_of(rm))), rest))
}

#[tactic(auto, unfolding(crate::specs::Reading::tail_at))]
fn pop_rm(head: Head, bytes: &[u8]) -> Result<(Draft, &[u8]), DraftFault>
    ensures { GivesExactly (λ x. (draft_of x.0, x.1.now)) result (tail_at (form_of PopRm) head.gs head.rex bytes.now) }
{
    let ((_, rm), rest) = operand(Form::PopRm, head, bytes)?;
    Ok((Draft::Whole(Insn::Pop(rm)), rest))
}

/// Padding: the operand is read and not used.
#[tactic(auto, unfolding(crate::specs::Reading::tail_at))]
pub fn nop(head: Head, bytes: &[u8]) -> Result<(Draft, &[u8]), DraftFault>
    ensures { GivesExactly (λ x. (draft_of x.0, x.1.now)) result
        (tail_at (form_of NopForm) head.gs head.rex bytes.now) }
{
    let (_, rest) = operand(Form::Nop, head, bytes)?;
    Ok((Draft::Whole(Insn::Nop), rest))
}

#[tactic(auto, unfolding(crate::specs::Reading::tail_at))]
fn read_cr3(head: Head, bytes: &[u8]) -> Result<(Draft, &[u8]), DraftFault>
    ensures { GivesExactly (λ x. (draft_of x.0, x.1.now)) result
        (tail_at (form_of ReadCr3Form) head.gs head.rex bytes.now) }
{
    let (modrm, rest) = byte(bytes)?;
    if modrm / 64 != 3 {
        return Err(DraftFault::Unknown);
    }
    let r = extended(rex_b(head.rex), modrm % 8);
    made((modrm / 8 % 8 == 3).then_some(Insn::ReadCr3(r)), rest)
}

#[tactic(auto, unfolding(crate::specs::Reading::tail_at))]
fn write_cr3(head: Head, bytes: &[u8]) -> Result<(Draft, &[u8]), DraftFault>
    ensures { GivesExactly (λ x. (draft_of x.0, x.1.now)) result
        (tail_at (form_of WriteCr3Form) head.gs head.rex bytes.now) }
{
    let (modrm, rest) = byte(bytes)?;
    if modrm / 64 != 3 {
        return Err(DraftFault::Unknown);
    }
    let r = extended(rex_b(head.rex), modrm % 8);
    made((modrm / 8 % 8 == 3).then_some(Insn::WriteCr3(r)), rest)
}

fn gs_insn(reg: u8, r: Reg) -> Option<Insn>
    ensures { result ≡ option_map (λ make. make r)
        (if reg == 1 then Some InsnReadGs else if reg == 3 then Some InsnWriteGs else None) }
{
    if reg == 1 {
        Some(Insn::ReadGs(r))
    } else if reg == 3 {
        Some(Insn::WriteGs(r))
    } else {
        None
    }
}

#[tactic(auto, unfolding(crate::specs::Reading::tail_at))]
fn gs_base(head: Head, bytes: &[u8]) -> Result<(Draft, &[u8]), DraftFault>
    ensures { GivesExactly (λ x. (draft_of x.0, x.1.now)) result (tail_at (form_of GsBase) head.gs head.rex bytes.now) }
{
    let (modrm, rest) = byte(bytes)?;
    if modrm / 64 != 3 {
        return Err(DraftFault::Unknown);
    }
    let r = extended(rex_b(head.rex), modrm % 8);
    made(gs_insn(modrm / 8 % 8, r), rest)
}

#[tactic(auto, unfolding(crate::specs::Reading::tail_at))]
fn push_imm(size: Size, head: Head, bytes: &[u8]) -> Result<(Draft, &[u8]), DraftFault>
    ensures { GivesExactly (λ x. (draft_of x.0, x.1.now)) result
        (tail_at (form_of (PushImm size)) head.gs head.rex bytes.now) }
{
    let (value, rest) = immediate(Width::Quad, size, bytes)?;
    Ok((Draft::Whole(Insn::Push(Source::Imm(value))), rest))
}

#[tactic(auto, unfolding(crate::specs::Reading::tail_at))]
fn test_rax(head: Head, bytes: &[u8]) -> Result<(Draft, &[u8]), DraftFault>
    ensures { GivesExactly (λ x. (draft_of x.0, x.1.now)) result
        (tail_at (form_of TestRax) head.gs head.rex bytes.now) }
{
    let w = width_of(head.rex);
    let (value, rest) = immediate(w, Size::Four, bytes)?;
    Ok((
        Draft::Whole(Insn::Test(w, Place::Reg(Reg::RAX), Source::Imm(value))),
        rest,
    ))
}

#[tactic(auto, unfolding(crate::specs::Reading::tail_at))]
fn test_al(head: Head, bytes: &[u8]) -> Result<(Draft, &[u8]), DraftFault>
    ensures { GivesExactly (λ x. (draft_of x.0, x.1.now)) result (tail_at (form_of TestAl) head.gs head.rex bytes.now) }
{
    let (value, rest) = immediate(Width::Byte, Size::One, bytes)?;
    Ok((
        Draft::Whole(Insn::Test(Width::Byte, Place::Reg(Reg::RAX), Source::Imm(value))),
        rest,
    ))
}

fn disp_of_size(size: Size) -> Disp
    ensures { disp_of result ≡ size_bytes (size_of size) }
{
    match size {
        Size::One => Disp::One,
        Size::Four => Disp::Four,
    }
}

#[tactic(auto, unfolding(crate::specs::Reading::tail_at))]
fn relative(jump: Jump, size: Size, head: Head, bytes: &[u8]) -> Result<(Draft, &[u8]), DraftFault>
    ensures { GivesExactly (λ x. (draft_of x.0, x.1.now)) result
        (tail_at (form_of (Relative jump size)) head.gs head.rex bytes.now) }
{
    let (distance, rest) = displacement(disp_of_size(size), bytes)?;
    Ok((Draft::Jump(jump, distance), rest))
}

/// What stands after the opcode of a form.
#[tactic(auto, unfolding(crate::specs::Reading::tail_at))]
pub fn tail(form: Form, head: Head, bytes: &[u8]) -> Result<(Draft, &[u8]), DraftFault>
    requires { IsInRange form }
    ensures { GivesExactly (λ x. (draft_of x.0, x.1.now)) result (tail_at (form_of form) head.gs head.rex bytes.now) }
{
    match form {
        Form::Plain(insn) => Ok((Draft::Whole(insn), bytes)),
        Form::PlainW(insn) => Ok((Draft::Whole(insn), bytes)),
        Form::LastByte(last) => last_byte(last, head, bytes),
        Form::PushRegister(r) => {
            let r = extended(rex_b(head.rex), r);
            Ok((Draft::Whole(Insn::Push(Source::Reg(r))), bytes))
        }
        Form::PopRegister(r) => {
            let r = extended(rex_b(head.rex), r);
            Ok((Draft::Whole(Insn::Pop(Place::Reg(r))), bytes))
        }
        Form::RegisterImm(r) => register_imm(r, head, bytes),
        Form::RmReg(pair) => rm_reg(pair, head, bytes),
        Form::MovLoad => mov_load(head, bytes),
        Form::AluLoad(op) => alu_load(op, head, bytes),
        Form::Lea => lea(head, bytes),
        Form::RmImm(group, size) => rm_imm(group, size, head, bytes),
        Form::TestByte => test_byte(head, bytes),
        Form::Bit => rm_bit(head, bytes),
        Form::PushRm => push_rm(head, bytes),
        Form::PopRm => pop_rm(head, bytes),
        Form::ReadCr3 => read_cr3(head, bytes),
        Form::WriteCr3 => write_cr3(head, bytes),
        Form::GsBase => gs_base(head, bytes),
        Form::Nop => nop(head, bytes),
        Form::PushImm(size) => push_imm(size, head, bytes),
        Form::TestRax => test_rax(head, bytes),
        Form::TestAl => test_al(head, bytes),
        Form::Relative(jump, size) => relative(jump, size, head, bytes),
    }
}
