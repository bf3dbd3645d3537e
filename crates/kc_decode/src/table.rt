//! The opcodes of the grammar (Intel SDM vol. 2, "Opcode Map").

ghost use Rattle.std.specs.Prelude.{◌≡◌, option_map, IfSome};
ghost use Rattle.kc_insn.specs.Table.{lookup, one_byte as one_byte_rows, two_byte as two_byte_rows, two_byte_f3};
ghost use Rattle.kc_decode.specs.Views.{form_of, IsInRange};

use crate::form::{Form, Group, Jump, Last, Pair, Size};
use kc_insn::{AluOp, Insn};

/// The form after an opcode of one byte.
#[tactic(auto, unfolding(kc_insn::specs::Table::one_byte))]
pub fn one_byte(op: u8) -> Option<Form>
    ensures row { option_map form_of result ≡ lookup op one_byte_rows }
    ensures range { IfSome result IsInRange }
{
    Some(match op {
        0x89 => Form::RmReg(Pair::Mov),
        0x8B => Form::MovLoad,
        0xC7 => Form::RmImm(Group::Mov, Size::Four),
        0xB8..=0xBF => Form::RegisterImm(op - 0xB8),
        0x8D => Form::Lea,
        0x87 => Form::RmReg(Pair::Xchg),
        0x50..=0x57 => Form::PushRegister(op - 0x50),
        0x6A => Form::PushImm(Size::One),
        0x68 => Form::PushImm(Size::Four),
        0xFF => Form::PushRm,
        0x58..=0x5F => Form::PopRegister(op - 0x58),
        0x8F => Form::PopRm,
        0x9C => Form::Plain(Insn::Pushfq),
        0x9D => Form::Plain(Insn::Popfq),
        0x01 => Form::RmReg(Pair::Alu(AluOp::Add)),
        0x09 => Form::RmReg(Pair::Alu(AluOp::Or)),
        0x21 => Form::RmReg(Pair::Alu(AluOp::And)),
        0x29 => Form::RmReg(Pair::Alu(AluOp::Sub)),
        0x31 => Form::RmReg(Pair::Alu(AluOp::Xor)),
        0x39 => Form::RmReg(Pair::Alu(AluOp::Cmp)),
        0x03 => Form::AluLoad(AluOp::Add),
        0x0B => Form::AluLoad(AluOp::Or),
        0x23 => Form::AluLoad(AluOp::And),
        0x2B => Form::AluLoad(AluOp::Sub),
        0x33 => Form::AluLoad(AluOp::Xor),
        0x3B => Form::AluLoad(AluOp::Cmp),
        0x83 => Form::RmImm(Group::Alu, Size::One),
        0x81 => Form::RmImm(Group::Alu, Size::Four),
        0x85 => Form::RmReg(Pair::Test),
        0xF7 => Form::RmImm(Group::Test, Size::Four),
        0xA9 => Form::TestRax,
        0xF6 => Form::TestByte,
        0xA8 => Form::TestAl,
        0x70..=0x7F => Form::Relative(Jump::If(op - 0x70), Size::One),
        0xEB => Form::Relative(Jump::Always, Size::One),
        0xE9 => Form::Relative(Jump::Always, Size::Four),
        0xE8 => Form::Relative(Jump::Call, Size::Four),
        0xC3 => Form::Plain(Insn::Ret),
        0xCF => Form::PlainW(Insn::Iretq),
        0xFA => Form::Plain(Insn::Cli),
        0xFB => Form::Plain(Insn::Sti),
        0xFC => Form::Plain(Insn::Cld),
        0x90 => Form::Plain(Insn::Nop),
        _ => return None,
    })
}

/// The form after 0F and this byte.
#[tactic(auto, unfolding(kc_insn::specs::Table::two_byte))]
pub fn two_byte(op: u8) -> Option<Form>
    ensures row { option_map form_of result ≡ lookup op two_byte_rows }
    ensures range { IfSome result IsInRange }
{
    Some(match op {
        0xBA => Form::Bit,
        0x80..=0x8F => Form::Relative(Jump::If(op - 0x80), Size::Four),
        0x01 => Form::LastByte(Last::System),
        0x07 => Form::PlainW(Insn::Sysretq),
        0x32 => Form::Plain(Insn::Rdmsr),
        0x30 => Form::Plain(Insn::Wrmsr),
        0x20 => Form::ReadCr3,
        0x22 => Form::WriteCr3,
        0xAE => Form::LastByte(Last::Lfence),
        0x0B => Form::Plain(Insn::Ud2),
        0x1F => Form::Nop,
        _ => return None,
    })
}

/// The form after F3, REX, 0F and this byte.
#[tactic(auto, unfolding(kc_insn::specs::Table::two_byte_f3))]
pub fn f3_two_byte(op: u8) -> Option<Form>
    ensures row { option_map form_of result ≡ lookup op two_byte_f3 }
    ensures range { IfSome result IsInRange }
{
    match op {
        0xAE => Some(Form::GsBase),
        0x1E => Some(Form::LastByte(Last::Endbr64)),
        _ => None,
    }
}
