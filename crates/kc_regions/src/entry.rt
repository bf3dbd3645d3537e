//! Where the kernel is entered, the handlers that entry code calls, and the words that it keeps.

/// A gate of the IDT (Intel SDM vol. 3A, "64-Bit Mode IDT").
#[derive(Clone, Copy, PartialEq, Eq, Debug)]
pub struct Gate {
    /// 0 to 255, and not 8.
    pub vector: u8,
    /// Where the entry code begins: the RIP that a delivery sets.
    pub entry: u64,
    /// 1 to 7 names a stack of the TSS, and 0 keeps the stack of interrupted kernel code.
    pub ist: u8,
    /// A trap gate leaves IF as it is; an interrupt gate clears it.
    pub trap: bool,
    /// Whether user code may raise the vector by an instruction (the gate's DPL is 3). Only from 32.
    pub user: bool,
}

/// The IF flag that a handler returns with.
#[derive(Clone, Copy, PartialEq, Eq, Debug)]
pub enum AfterIf {
    /// That of the call.
    Keep,
    /// Set.
    On,
    /// Clear.
    Off,
    /// Either.
    Any,
}

/// A handler that entry code calls, by its contract: its code is never read. This project's own.
#[derive(Clone, Copy, PartialEq, Eq, Debug)]
pub struct Handler {
    /// Where it begins.
    pub entry: u64,
    /// How many bytes of the stack it may use below the return address: a multiple of 8 up to 65,536.
    pub stack: u32,
    /// Whether interrupts may come inside it although IF was clear at the call.
    pub irq: bool,
    /// Whether debug exceptions may come inside it.
    pub debug: bool,
    /// Whether page faults may come inside it.
    pub fault: bool,
    pub after_if: AfterIf,
    pub returns: bool,
    /// How far above the return address the saved user RIP lies, where the handler may edit it: a
    /// multiple of 8 from 8 to 4,096. The saved RFLAGS lies 16 and the saved RSP 24 bytes above it.
    pub frame: Option<u32>,
}

/// A kernel word that entry code keeps a value in, and the value that it has at the start.
#[derive(Clone, Copy, PartialEq, Eq, Debug)]
pub struct Word {
    /// The address of its 8 bytes, a multiple of 8.
    pub at: u64,
    pub value: u64,
}
