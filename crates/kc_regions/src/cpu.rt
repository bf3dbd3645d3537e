//! How the kernel has set up the processor.

/// The registers and tables of the processor that entry code depends on: model-specific registers
/// (Intel SDM vol. 3A, "Fast System Calls in 64-Bit Mode"), the descriptor tables, and the stacks of
/// the TSS ("64-Bit Task Management"). Addresses are linear.
#[derive(Clone, Copy, PartialEq, Eq, Debug)]
pub struct CpuSetup {
    /// The kernel's GS base, at least 0xffff800000000000.
    pub kernel_gs: u64,
    /// The CR3 value that names the kernel's map; its bit 63 is clear.
    pub kernel_cr3: u64,
    /// The CR3 value that names the user's map; its bit 63 is clear.
    pub user_cr3: u64,
    /// The base of the IDT, at least 2^63.
    pub idt: u64,
    /// The base of the GDT, at least 2^63.
    pub gdt: u64,
    /// The base of the TSS, at least 2^63.
    pub tss: u64,
    /// Where SYSCALL enters, at least 2^63: IA32_LSTAR.
    pub syscall: u64,
    /// The flags that SYSCALL clears, below 2^32 with bit 1 clear: IA32_FMASK.
    pub fmask: u64,
    /// The kernel's code selector, a multiple of 8 from 8 to 65,520: IA32_STAR, bits 32 to 47.
    pub star_kernel: u16,
    /// The selector from which SYSRET counts, 8 to 65,499 with bit 2 clear: IA32_STAR, bits 48 to 63.
    pub star_user: u16,
    /// The CS of 32-bit user code, where there is one: from 11, with bits 0 and 1 set and bit 2 clear.
    pub user_cs32: Option<u16>,
    /// Whether user code may write its GS base (CR4.FSGSBASE).
    pub user_gs_writes: bool,
    /// The stack pointer of privilege level 0 in the TSS, as the kernel has set it up.
    pub rsp0: u64,
    /// The stack pointers IST1 to IST7 of the TSS, as the kernel has set them up.
    pub ist: [u64; 7],
}
