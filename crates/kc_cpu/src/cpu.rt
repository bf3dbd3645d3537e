//! Registers, mode and latches of one x86-64 processor in 64-bit mode.

/// The processor's registers (Intel SDM vol. 1, "Basic Program Execution Registers") and its mode.
#[derive(Clone, Copy, PartialEq, Eq, Debug)]
pub struct Cpu {
    /// The general registers by number: RAX, RCX, RDX, RBX, RSP, RBP, RSI, RDI, R8 to R15.
    pub regs: [u64; 16],
    /// The address of the next instruction.
    pub rip: u64,
    /// RFLAGS (Intel SDM vol. 1, "EFLAGS Register").
    pub flags: u64,
    /// The selector in CS.
    pub cs: u16,
    /// The selector in SS.
    pub ss: u16,
    /// The active GS base, IA32_GS_BASE.
    pub gs: u64,
    /// The inactive GS base, which SWAPGS exchanges with the active one: IA32_KERNEL_GS_BASE.
    pub kgs: u64,
    /// CR3, which names the address space.
    pub cr3: u64,
    /// What the processor runs.
    pub mode: Mode,
}

/// What the processor runs, this project's own.
#[derive(Clone, Copy, PartialEq, Eq, Debug)]
pub enum Mode {
    /// Code of the user.
    User,
    /// Kernel code from the image, an instruction a step.
    Code,
    /// A C handler, which is never decoded.
    Inside(Call),
}

/// The call of a handler that is running, this project's own.
#[derive(Clone, Copy, PartialEq, Eq, Debug)]
pub struct Call {
    /// The handler's index in the configuration's list.
    pub handler: u16,
    /// RSP after the return address was pushed.
    pub rsp: u64,
    /// The address to which the handler returns.
    pub back: u64,
    /// RFLAGS at the call.
    pub flags: u64,
    /// RBX, RBP and R12 to R15 at the call, which the handler gives back (System V ABI, AMD64,
    /// "Registers").
    pub kept: [u64; 6],
}

/// What the processor holds back, beside its registers.
#[derive(Clone, Copy, PartialEq, Eq, Debug)]
pub struct Latch {
    /// NMIs are blocked until the next IRET (Intel SDM vol. 3A, "Handling Multiple NMIs").
    pub nmi_blocked: bool,
    /// The gap after STI, in which no maskable interrupt comes (Intel SDM vol. 2, "STI").
    pub shadow: bool,
    /// Bit 2 of IA32_MCG_STATUS: a machine check is being handled (Intel SDM vol. 3B,
    /// "IA32_MCG_STATUS MSR").
    pub mcip: bool,
}
