//! The turns of the machine: one instruction, one event, SYSCALL, or one step of the user or of a C
//! handler. This project's own.

use kc_plain::Items;

/// One step of the machine. A turn that may not come in a state changes nothing.
#[derive(Debug, Drop)]
pub enum Turn {
    /// The instruction at RIP.
    Go,
    /// A maskable interrupt of this vector.
    Irq(u8),
    /// A non-maskable interrupt, vector 2.
    Nmi,
    /// A debug exception, vector 1.
    Debug,
    /// A machine check, vector 18.
    Check,
    /// A page fault, vector 14: the address at fault, and the error code.
    Fault(u64, u32),
    /// An exception that user code raises: its vector, and the error code, 0 where it pushes none.
    Trap(u8, u32),
    /// SYSCALL of 64-bit user code.
    Syscall,
    /// A step of user code.
    User(UserSet),
    /// A step of a C handler.
    Body(BodySet),
    /// A C handler's return.
    Leave(LeaveSet),
}

/// What user code leaves: its registers, and bytes of memory in the order in which it writes them.
#[derive(Debug, Drop)]
pub struct UserSet {
    /// The general registers by number.
    pub regs: [u64; 16],
    pub rip: u64,
    pub flags: u64,
    pub cs: u16,
    /// The active GS base.
    pub gs: u64,
    /// Addresses and bytes.
    pub writes: Items<(u64, u8)>,
}

/// What a C handler leaves after a step.
#[derive(Debug, Drop)]
pub struct BodySet {
    /// The general registers by number.
    pub regs: [u64; 16],
    pub rip: u64,
    pub flags: u64,
    /// Addresses and bytes.
    pub writes: Items<(u64, u8)>,
    /// What it changes of the user's saved frame.
    pub edit: Edit,
}

/// The words of the user's saved frame that a handler changes, as for a signal or a debugger.
#[derive(Clone, Copy, PartialEq, Eq, Debug)]
pub struct Edit {
    /// The saved RIP, below 2^47.
    pub rip: Option<u64>,
    /// The saved RFLAGS.
    pub flags: Option<u64>,
    /// The saved RSP, in no stack.
    pub rsp: Option<u64>,
}

/// What a C handler leaves in the registers that it doesn't give back, and in RFLAGS.
#[derive(Clone, Copy, PartialEq, Eq, Debug)]
pub struct LeaveSet {
    /// The general registers by number. Those of RBX, RSP, RBP and R12 to R15 aren't looked at.
    pub regs: [u64; 16],
    pub flags: u64,
}

/// A run: the user's processor and memory that it starts with, and its turns.
#[derive(Debug, Drop)]
pub struct Trace {
    pub first: UserSet,
    pub turns: Items<Turn>,
}
