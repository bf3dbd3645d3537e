//! Instructions as values (Intel SDM vol. 2): operands, and a variant for each instruction.

use kc_words::Width;

/// A general register by its number in the instruction's encoding (Intel SDM vol. 2, "Register
/// Encoding"): 0 to 15 are RAX, RCX, RDX, RBX, RSP, RBP, RSI, RDI, R8 to R15.
#[derive(Clone, Copy, PartialEq, Eq, Debug)]
pub struct Reg(pub u8);

/// The registers by the names of the manual.
impl Reg {
    /// The accumulator, number 0. Its low bytes are EAX and AL.
    pub const RAX: Reg = Reg(0);

    /// Number 1. SYSCALL leaves the address to return to in it; RDMSR and WRMSR take their number from it.
    pub const RCX: Reg = Reg(1);

    /// Number 2. RDMSR and WRMSR have the upper half of what they move in it.
    pub const RDX: Reg = Reg(2);

    /// Number 3. Its low byte is BL.
    pub const RBX: Reg = Reg(3);

    /// The stack pointer, number 4. Its low byte is SPL, which only a REX byte names.
    pub const RSP: Reg = Reg(4);

    /// Number 5. Its low byte is BPL, which only a REX byte names.
    pub const RBP: Reg = Reg(5);

    /// Number 6. Its low byte is SIL, which only a REX byte names.
    pub const RSI: Reg = Reg(6);

    /// Number 7. Its low byte is DIL, which only a REX byte names.
    pub const RDI: Reg = Reg(7);

    /// Number 8. This register and those after it are named with a bit of REX.
    pub const R8: Reg = Reg(8);

    /// Number 9.
    pub const R9: Reg = Reg(9);

    /// Number 10.
    pub const R10: Reg = Reg(10);

    /// Number 11. SYSCALL leaves RFLAGS in it.
    pub const R11: Reg = Reg(11);

    /// Number 12. As a base it takes a SIB byte, as RSP does.
    pub const R12: Reg = Reg(12);

    /// Number 13. As a base it takes a displacement, as RBP does.
    pub const R13: Reg = Reg(13);

    /// Number 14.
    pub const R14: Reg = Reg(14);

    /// Number 15.
    pub const R15: Reg = Reg(15);
}

/// Where the address of a memory operand begins.
#[derive(Clone, Copy, PartialEq, Eq, Debug)]
pub enum Base {
    /// At 0.
    Absent,
    /// At the address after the instruction.
    Rip,
    /// At what this register holds.
    Reg(Reg),
}

/// A memory operand: base, index times scale and displacement, summed modulo 2^64.
#[derive(Clone, Copy, PartialEq, Eq, Debug)]
pub struct Mem {
    /// Whether the active GS base is added (the prefix 65).
    pub gs: bool,
    pub base: Base,
    /// A register that isn't RSP, and the scale: 1, 2, 4 or 8.
    pub index: Option<(Reg, u8)>,
    pub disp: i32,
}

/// What an instruction writes, or reads and writes.
#[derive(Clone, Copy, PartialEq, Eq, Debug)]
pub enum Place {
    Reg(Reg),
    Mem(Mem),
}

/// What an instruction reads.
#[derive(Clone, Copy, PartialEq, Eq, Debug)]
pub enum Source {
    Reg(Reg),
    Mem(Mem),
    Imm(i64),
}

/// Arithmetic of two operands.
#[derive(Clone, Copy, PartialEq, Eq, Debug)]
pub enum AluOp {
    Add,
    Or,
    And,
    Sub,
    Xor,
    Cmp,
}

/// What BT, BTS and BTR do to the bit that they name.
#[derive(Clone, Copy, PartialEq, Eq, Debug)]
pub enum BitOp {
    Test,
    Set,
    Reset,
}

/// An instruction. Targets are absolute addresses.
#[derive(Clone, Copy, PartialEq, Eq, Debug)]
pub enum Insn {
    Nop,
    Endbr64,
    Lfence,
    Ud2,
    Cld,
    Clac,
    Stac,
    Cli,
    Sti,
    Swapgs,
    Sysretq,
    Iretq,
    Rdmsr,
    Wrmsr,
    Pushfq,
    Popfq,
    Ret,
    /// MOV from CR3.
    ReadCr3(Reg),
    /// MOV to CR3.
    WriteCr3(Reg),
    /// RDGSBASE.
    ReadGs(Reg),
    /// WRGSBASE.
    WriteGs(Reg),
    Mov(Width, Place, Source),
    Lea(Width, Reg, Mem),
    Xchg(Width, Place, Reg),
    Push(Source),
    Pop(Place),
    Alu(AluOp, Width, Place, Source),
    Test(Width, Place, Source),
    /// BT, BTS or BTR of an immediate bit number.
    Bit(BitOp, Width, Place, u8),
    /// A jump under the condition of this code, to this target.
    Jcc(u8, u64),
    Jmp(u64),
    Call(u64),
}
