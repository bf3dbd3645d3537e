//! Forms of instructions: what stands after an opcode, and what it makes (Intel SDM vol. 2,
//! "Instruction Format").

use kc_insn::{AluOp, Insn};

/// How many bytes an immediate or a jump's distance takes.
#[derive(Clone, Copy)]
pub enum Size {
    One,
    Four,
}

/// Instructions of an operand rm and a register.
#[derive(Clone, Copy)]
pub enum Pair {
    Mov,
    Xchg,
    Test,
    Alu(AluOp),
}

/// Instructions of an operand rm and an immediate.
#[derive(Clone, Copy)]
pub enum Group {
    /// C7 /0.
    Mov,
    /// F7 /0.
    Test,
    /// 81 and 83: the reg field says which.
    Alu,
}

/// Opcodes of which the last byte says which instruction they are.
#[derive(Clone, Copy)]
pub enum Last {
    /// After 0F 01.
    System,
    /// After 0F AE.
    Lfence,
    /// After F3 0F 1E.
    Endbr64,
}

/// Where a jump goes on.
#[derive(Clone, Copy)]
pub enum Jump {
    /// At its target, under the condition of this code.
    If(u8),
    /// At its target.
    Always,
    /// At its target, as a call.
    Call,
}

/// What stands after an opcode, and what it makes.
#[derive(Clone, Copy)]
pub enum Form {
    /// Nothing.
    Plain(Insn),
    /// Nothing; REX.W is needed.
    PlainW(Insn),
    LastByte(Last),
    /// 50+r.
    PushRegister(u8),
    /// 58+r.
    PopRegister(u8),
    /// B8+r.
    RegisterImm(u8),
    RmReg(Pair),
    /// 8B.
    MovLoad,
    AluLoad(AluOp),
    /// 8D.
    Lea,
    RmImm(Group, Size),
    /// F6.
    TestByte,
    /// 0F BA.
    Bit,
    /// FF.
    PushRm,
    /// 8F.
    PopRm,
    /// 0F 20.
    ReadCr3,
    /// 0F 22.
    WriteCr3,
    /// F3 0F AE.
    GsBase,
    /// 0F 1F.
    Nop,
    PushImm(Size),
    /// A9.
    TestRax,
    /// A8.
    TestAl,
    Relative(Jump, Size),
}
