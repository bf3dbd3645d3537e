//! The listings of the samples. Each line has its text above it. A label is the name
//! of an address, and stands in the listing as an `At`.

use crate::line::Line::{self, At, Code};
use kc_insn::{AluOp, Base, Insn, Mem, Place, Reg, Source};
use kc_words::Width;

const SYSCALL: u64 = 0xffff_ffff_8100_0000;

const INTERRUPT: u64 = 0xffff_ffff_8100_0100;

const INTERRUPT_IN_KERNEL: u64 = 0xffff_ffff_8100_0160;

const PAGE_FAULT: u64 = 0xffff_ffff_8100_0200;

const PAGE_FAULT_IN_KERNEL: u64 = 0xffff_ffff_8100_0264;

const DEBUG: u64 = 0xffff_ffff_8100_1000;

const DEBUG_HAS_GS: u64 = 0xffff_ffff_8100_1033;

const DEBUG_KEEPS_GS: u64 = 0xffff_ffff_8100_1058;

const NMI: u64 = 0xffff_ffff_8100_1100;

const NMI_HAS_GS: u64 = 0xffff_ffff_8100_1133;

const NMI_KEEPS_GS: u64 = 0xffff_ffff_8100_1158;

const MACHINE_CHECK: u64 = 0xffff_ffff_8100_1200;

const MACHINE_CHECK_IN_KERNEL: u64 = 0xffff_ffff_8100_1260;

const MACHINE_CHECK_HAS_GS: u64 = 0xffff_ffff_8100_1272;

const NMI_RETURNS: u64 = 0xffff_ffff_8100_1132;

const NMI_MOVES: u64 = 0xffff_ffff_8100_1135;

const MOVED_NMI_HAS_GS: u64 = 0xffff_ffff_8100_1182;

const MOVED_NMI_KEEPS_GS: u64 = 0xffff_ffff_8100_11a7;

const ON_SYSCALL: u64 = 0xffff_ffff_8180_0000;

const ON_INTERRUPT: u64 = 0xffff_ffff_8180_0010;

const ON_PAGE_FAULT: u64 = 0xffff_ffff_8180_0020;

const ON_DEBUG: u64 = 0xffff_ffff_8180_0030;

const ON_NMI: u64 = 0xffff_ffff_8180_0040;

const ON_MACHINE_CHECK: u64 = 0xffff_ffff_8180_0050;

const ON_MACHINE_CHECK_IN_KERNEL: u64 = 0xffff_ffff_8180_0060;

// 0xffffffff84007000, as the signed number of an immediate.
const MACHINE_CHECK_STACK: i64 = -0x7bff_9000;

// 0xffffffff84009000.
const WORK_STACK: i64 = -0x7bff_7000;

// 0xffffffff8400a000.
const WORK_STACK_TOP: i64 = -0x7bff_6000;

// The number of IA32_GS_BASE.
const GS_BASE: i64 = 0xc000_0101;

// gs:[0x800]
const SCRATCH: Mem = Mem {
    gs: true,
    base: Base::Absent,
    index: None,
    disp: 0x800,
};

// gs:[0x808]
const KERNEL_STACK: Mem = Mem {
    gs: true,
    base: Base::Absent,
    index: None,
    disp: 0x808,
};

// [rsp+0x8]
const RSP_8: Mem = Mem {
    gs: false,
    base: Base::Reg(Reg::RSP),
    index: None,
    disp: 0x8,
};

// [rsp+0x10]
const RSP_10: Mem = Mem {
    gs: false,
    base: Base::Reg(Reg::RSP),
    index: None,
    disp: 0x10,
};

// [rsp+0x20]
const RSP_20: Mem = Mem {
    gs: false,
    base: Base::Reg(Reg::RSP),
    index: None,
    disp: 0x20,
};

// [rax+0x28]
const RAX_28: Mem = Mem {
    gs: false,
    base: Base::Reg(Reg::RAX),
    index: None,
    disp: 0x28,
};

// [rax+0x20]
const RAX_20: Mem = Mem {
    gs: false,
    base: Base::Reg(Reg::RAX),
    index: None,
    disp: 0x20,
};

// [rax+0x18]
const RAX_18: Mem = Mem {
    gs: false,
    base: Base::Reg(Reg::RAX),
    index: None,
    disp: 0x18,
};

// [rax+0x10]
const RAX_10: Mem = Mem {
    gs: false,
    base: Base::Reg(Reg::RAX),
    index: None,
    disp: 0x10,
};

// [rax+0x8]
const RAX_8: Mem = Mem {
    gs: false,
    base: Base::Reg(Reg::RAX),
    index: None,
    disp: 0x8,
};

// [rax]
const RAX_0: Mem = Mem {
    gs: false,
    base: Base::Reg(Reg::RAX),
    index: None,
    disp: 0x0,
};

// The first register that is saved.
const PUSH_RAX: &[Line] = &[
    // push rax
    Code(Insn::Push(Source::Reg(Reg::RAX))),
];

// The other registers that are saved: all but RSP.
const PUSH_OTHERS: &[Line] = &[
    // push rcx
    Code(Insn::Push(Source::Reg(Reg::RCX))),
    // push rdx
    Code(Insn::Push(Source::Reg(Reg::RDX))),
    // push rbx
    Code(Insn::Push(Source::Reg(Reg::RBX))),
    // push rbp
    Code(Insn::Push(Source::Reg(Reg::RBP))),
    // push rsi
    Code(Insn::Push(Source::Reg(Reg::RSI))),
    // push rdi
    Code(Insn::Push(Source::Reg(Reg::RDI))),
    // push r8
    Code(Insn::Push(Source::Reg(Reg::R8))),
    // push r9
    Code(Insn::Push(Source::Reg(Reg::R9))),
    // push r10
    Code(Insn::Push(Source::Reg(Reg::R10))),
    // push r11
    Code(Insn::Push(Source::Reg(Reg::R11))),
    // push r12
    Code(Insn::Push(Source::Reg(Reg::R12))),
    // push r13
    Code(Insn::Push(Source::Reg(Reg::R13))),
    // push r14
    Code(Insn::Push(Source::Reg(Reg::R14))),
    // push r15
    Code(Insn::Push(Source::Reg(Reg::R15))),
];

// Pops what PUSH_OTHERS and PUSH_RAX pushed.
const RESTORE: &[Line] = &[
    // pop r15
    Code(Insn::Pop(Place::Reg(Reg::R15))),
    // pop r14
    Code(Insn::Pop(Place::Reg(Reg::R14))),
    // pop r13
    Code(Insn::Pop(Place::Reg(Reg::R13))),
    // pop r12
    Code(Insn::Pop(Place::Reg(Reg::R12))),
    // pop r11
    Code(Insn::Pop(Place::Reg(Reg::R11))),
    // pop r10
    Code(Insn::Pop(Place::Reg(Reg::R10))),
    // pop r9
    Code(Insn::Pop(Place::Reg(Reg::R9))),
    // pop r8
    Code(Insn::Pop(Place::Reg(Reg::R8))),
    // pop rdi
    Code(Insn::Pop(Place::Reg(Reg::RDI))),
    // pop rsi
    Code(Insn::Pop(Place::Reg(Reg::RSI))),
    // pop rbp
    Code(Insn::Pop(Place::Reg(Reg::RBP))),
    // pop rbx
    Code(Insn::Pop(Place::Reg(Reg::RBX))),
    // pop rdx
    Code(Insn::Pop(Place::Reg(Reg::RDX))),
    // pop rcx
    Code(Insn::Pop(Place::Reg(Reg::RCX))),
    // pop rax
    Code(Insn::Pop(Place::Reg(Reg::RAX))),
];

// Clears bit 12 of CR3: the kernel's map.
const KERNEL_CR3: &[Line] = &[
    // mov rax, cr3
    Code(Insn::ReadCr3(Reg::RAX)),
    // and rax, -0x1001
    Code(Insn::Alu(
        AluOp::And,
        Width::Quad,
        Place::Reg(Reg::RAX),
        Source::Imm(-0x1001),
    )),
    // mov cr3, rax
    Code(Insn::WriteCr3(Reg::RAX)),
];

// Sets bit 12 of CR3: the user's map.
const USER_CR3: &[Line] = &[
    // mov rax, cr3
    Code(Insn::ReadCr3(Reg::RAX)),
    // or rax, 0x1000
    Code(Insn::Alu(
        AluOp::Or,
        Width::Quad,
        Place::Reg(Reg::RAX),
        Source::Imm(0x1000),
    )),
    // mov cr3, rax
    Code(Insn::WriteCr3(Reg::RAX)),
];

// To the user, with the user's GS base.
const RETURN_TO_USER: &[Line] = &[
    // swapgs
    Code(Insn::Swapgs),
    // iretq
    Code(Insn::Iretq),
];

// To the interrupted code.
const RETURN: &[Line] = &[
    // iretq
    Code(Insn::Iretq),
];

// Takes the error code away.
const DROP_ERROR_CODE: &[Line] = &[
    // add rsp, 0x8
    Code(Insn::Alu(
        AluOp::Add,
        Width::Quad,
        Place::Reg(Reg::RSP),
        Source::Imm(8),
    )),
];

/// From SYSCALL on: a frame as an interrupt's on the kernel's stack.
pub const SYSCALL_FRAME: &[Line] = &[
    At(SYSCALL),
    // swapgs
    Code(Insn::Swapgs),
    // mov gs:[0x800], rsp
    Code(Insn::Mov(Width::Quad, Place::Mem(SCRATCH), Source::Reg(Reg::RSP))),
    // mov rsp, cr3
    Code(Insn::ReadCr3(Reg::RSP)),
    // and rsp, -0x1001
    Code(Insn::Alu(
        AluOp::And,
        Width::Quad,
        Place::Reg(Reg::RSP),
        Source::Imm(-0x1001),
    )),
    // mov cr3, rsp
    Code(Insn::WriteCr3(Reg::RSP)),
    // mov rsp, gs:[0x808]
    Code(Insn::Mov(Width::Quad, Place::Reg(Reg::RSP), Source::Mem(KERNEL_STACK))),
    // push 0x2b
    Code(Insn::Push(Source::Imm(0x2b))),
    // push gs:[0x800]
    Code(Insn::Push(Source::Mem(SCRATCH))),
    // push r11
    Code(Insn::Push(Source::Reg(Reg::R11))),
    // push 0x33
    Code(Insn::Push(Source::Imm(0x33))),
    // push rcx
    Code(Insn::Push(Source::Reg(Reg::RCX))),
];

// The handler of SYSCALL, and the way back up to SYSRETQ.
const SYSCALL_HANDLER: &[Line] = &[
    // call ON_SYSCALL
    Code(Insn::Call(ON_SYSCALL)),
    // pop rcx
    Code(Insn::Pop(Place::Reg(Reg::RCX))),
    // pop rdx
    Code(Insn::Pop(Place::Reg(Reg::RDX))),
    // pop r11
    Code(Insn::Pop(Place::Reg(Reg::R11))),
    // mov rdx, cr3
    Code(Insn::ReadCr3(Reg::RDX)),
    // or rdx, 0x1000
    Code(Insn::Alu(
        AluOp::Or,
        Width::Quad,
        Place::Reg(Reg::RDX),
        Source::Imm(0x1000),
    )),
    // pop rsp
    Code(Insn::Pop(Place::Reg(Reg::RSP))),
    // mov cr3, rdx
    Code(Insn::WriteCr3(Reg::RDX)),
    // mov edx, 0x0
    Code(Insn::Mov(Width::Long, Place::Reg(Reg::RDX), Source::Imm(0))),
    // swapgs
    Code(Insn::Swapgs),
    // sysretq
    Code(Insn::Sysretq),
];

// From the user the GS base is exchanged; from the kernel the rest is passed over.
const INTERRUPT_ENTRY: &[Line] = &[
    At(INTERRUPT),
    // test byte [rsp+0x8], 0x3
    Code(Insn::Test(Width::Byte, Place::Mem(RSP_8), Source::Imm(3))),
    // jz INTERRUPT_IN_KERNEL
    Code(Insn::Jcc(4, INTERRUPT_IN_KERNEL)),
    // swapgs
    Code(Insn::Swapgs),
];

// From the user the GS base is exchanged; from the kernel the rest is passed over.
const PAGE_FAULT_ENTRY: &[Line] = &[
    At(PAGE_FAULT),
    // test byte [rsp+0x10], 0x3
    Code(Insn::Test(Width::Byte, Place::Mem(RSP_10), Source::Imm(3))),
    // jz PAGE_FAULT_IN_KERNEL
    Code(Insn::Jcc(4, PAGE_FAULT_IN_KERNEL)),
    // swapgs
    Code(Insn::Swapgs),
];

// From the user the GS base is exchanged; from the kernel the rest is passed over.
const MACHINE_CHECK_ENTRY: &[Line] = &[
    At(MACHINE_CHECK),
    // test byte [rsp+0x8], 0x3
    Code(Insn::Test(Width::Byte, Place::Mem(RSP_8), Source::Imm(3))),
    // jz MACHINE_CHECK_IN_KERNEL
    Code(Insn::Jcc(4, MACHINE_CHECK_IN_KERNEL)),
    // swapgs
    Code(Insn::Swapgs),
];

// The handler.
const CALL_ON_INTERRUPT: &[Line] = &[
    // call ON_INTERRUPT
    Code(Insn::Call(ON_INTERRUPT)),
];

// The handler.
const CALL_ON_PAGE_FAULT: &[Line] = &[
    // call ON_PAGE_FAULT
    Code(Insn::Call(ON_PAGE_FAULT)),
];

// The handler.
const CALL_ON_DEBUG: &[Line] = &[
    // call ON_DEBUG
    Code(Insn::Call(ON_DEBUG)),
];

// The handler.
const CALL_ON_NMI: &[Line] = &[
    // call ON_NMI
    Code(Insn::Call(ON_NMI)),
];

// The handler.
const CALL_ON_MACHINE_CHECK: &[Line] = &[
    // call ON_MACHINE_CHECK
    Code(Insn::Call(ON_MACHINE_CHECK)),
];

// The handler.
const CALL_ON_MACHINE_CHECK_IN_KERNEL: &[Line] = &[
    // call ON_MACHINE_CHECK_IN_KERNEL
    Code(Insn::Call(ON_MACHINE_CHECK_IN_KERNEL)),
];

// From the kernel GS base and CR3 stay.
const INTERRUPT_KERNEL_PART: &[Line] = &[At(INTERRUPT_IN_KERNEL)];

// From the kernel GS base and CR3 stay.
const PAGE_FAULT_KERNEL_PART: &[Line] = &[At(PAGE_FAULT_IN_KERNEL)];

// A debug trap may come anywhere.
const DEBUG_ENTRY: &[Line] = &[At(DEBUG)];

// An NMI may come anywhere.
const NMI_ENTRY: &[Line] = &[At(NMI)];

// EBX says whether the kernel's GS base had to be put in place.
const DEBUG_TAKES_GS: &[Line] = &[
    // mov ecx, 0xc0000101
    Code(Insn::Mov(Width::Long, Place::Reg(Reg::RCX), Source::Imm(GS_BASE))),
    // rdmsr
    Code(Insn::Rdmsr),
    // mov ebx, 0x0
    Code(Insn::Mov(Width::Long, Place::Reg(Reg::RBX), Source::Imm(0))),
    // test edx, edx
    Code(Insn::Test(Width::Long, Place::Reg(Reg::RDX), Source::Reg(Reg::RDX))),
    // js DEBUG_HAS_GS
    Code(Insn::Jcc(8, DEBUG_HAS_GS)),
    // swapgs
    Code(Insn::Swapgs),
    // mov ebx, 0x1
    Code(Insn::Mov(Width::Long, Place::Reg(Reg::RBX), Source::Imm(1))),
    At(DEBUG_HAS_GS),
];

// EBX says whether the kernel's GS base had to be put in place.
const NMI_TAKES_GS: &[Line] = &[
    // mov ecx, 0xc0000101
    Code(Insn::Mov(Width::Long, Place::Reg(Reg::RCX), Source::Imm(GS_BASE))),
    // rdmsr
    Code(Insn::Rdmsr),
    // mov ebx, 0x0
    Code(Insn::Mov(Width::Long, Place::Reg(Reg::RBX), Source::Imm(0))),
    // test edx, edx
    Code(Insn::Test(Width::Long, Place::Reg(Reg::RDX), Source::Reg(Reg::RDX))),
    // js NMI_HAS_GS
    Code(Insn::Jcc(8, NMI_HAS_GS)),
    // swapgs
    Code(Insn::Swapgs),
    // mov ebx, 0x1
    Code(Insn::Mov(Width::Long, Place::Reg(Reg::RBX), Source::Imm(1))),
    At(NMI_HAS_GS),
];

// EBX says whether the kernel's GS base had to be put in place.
const MOVED_NMI_TAKES_GS: &[Line] = &[
    // mov ecx, 0xc0000101
    Code(Insn::Mov(Width::Long, Place::Reg(Reg::RCX), Source::Imm(GS_BASE))),
    // rdmsr
    Code(Insn::Rdmsr),
    // mov ebx, 0x0
    Code(Insn::Mov(Width::Long, Place::Reg(Reg::RBX), Source::Imm(0))),
    // test edx, edx
    Code(Insn::Test(Width::Long, Place::Reg(Reg::RDX), Source::Reg(Reg::RDX))),
    // js MOVED_NMI_HAS_GS
    Code(Insn::Jcc(8, MOVED_NMI_HAS_GS)),
    // swapgs
    Code(Insn::Swapgs),
    // mov ebx, 0x1
    Code(Insn::Mov(Width::Long, Place::Reg(Reg::RBX), Source::Imm(1))),
    At(MOVED_NMI_HAS_GS),
];

// R14 keeps CR3.
const TAKE_KERNEL_CR3: &[Line] = &[
    // mov r14, cr3
    Code(Insn::ReadCr3(Reg::R14)),
    // mov rax, r14
    Code(Insn::Mov(Width::Quad, Place::Reg(Reg::RAX), Source::Reg(Reg::R14))),
    // and rax, -0x1001
    Code(Insn::Alu(
        AluOp::And,
        Width::Quad,
        Place::Reg(Reg::RAX),
        Source::Imm(-0x1001),
    )),
    // mov cr3, rax
    Code(Insn::WriteCr3(Reg::RAX)),
];

// CR3 as it was, and the GS base where it was exchanged.
const DEBUG_GIVES_BACK: &[Line] = &[
    // mov cr3, r14
    Code(Insn::WriteCr3(Reg::R14)),
    // test ebx, ebx
    Code(Insn::Test(Width::Long, Place::Reg(Reg::RBX), Source::Reg(Reg::RBX))),
    // jz DEBUG_KEEPS_GS
    Code(Insn::Jcc(4, DEBUG_KEEPS_GS)),
    // swapgs
    Code(Insn::Swapgs),
    At(DEBUG_KEEPS_GS),
];

// CR3 as it was, and the GS base where it was exchanged.
const NMI_GIVES_BACK: &[Line] = &[
    // mov cr3, r14
    Code(Insn::WriteCr3(Reg::R14)),
    // test ebx, ebx
    Code(Insn::Test(Width::Long, Place::Reg(Reg::RBX), Source::Reg(Reg::RBX))),
    // jz NMI_KEEPS_GS
    Code(Insn::Jcc(4, NMI_KEEPS_GS)),
    // swapgs
    Code(Insn::Swapgs),
    At(NMI_KEEPS_GS),
];

// CR3 as it was, and the GS base where it was exchanged.
const MOVED_NMI_GIVES_BACK: &[Line] = &[
    // mov cr3, r14
    Code(Insn::WriteCr3(Reg::R14)),
    // test ebx, ebx
    Code(Insn::Test(Width::Long, Place::Reg(Reg::RBX), Source::Reg(Reg::RBX))),
    // jz MOVED_NMI_KEEPS_GS
    Code(Insn::Jcc(4, MOVED_NMI_KEEPS_GS)),
    // swapgs
    Code(Insn::Swapgs),
    At(MOVED_NMI_KEEPS_GS),
];

// From the kernel there is no way back.
const MACHINE_CHECK_TAKES_GS: &[Line] = &[
    At(MACHINE_CHECK_IN_KERNEL),
    // mov ecx, 0xc0000101
    Code(Insn::Mov(Width::Long, Place::Reg(Reg::RCX), Source::Imm(GS_BASE))),
    // rdmsr
    Code(Insn::Rdmsr),
    // test edx, edx
    Code(Insn::Test(Width::Long, Place::Reg(Reg::RDX), Source::Reg(Reg::RDX))),
    // js MACHINE_CHECK_HAS_GS
    Code(Insn::Jcc(8, MACHINE_CHECK_HAS_GS)),
    // swapgs
    Code(Insn::Swapgs),
    At(MACHINE_CHECK_HAS_GS),
];

// An NMI that met the work stack or the machine check's returns at once; another one moves its frame.
const MOVING_NMI_ENTRY: &[Line] = &[
    At(NMI),
    // push rax
    Code(Insn::Push(Source::Reg(Reg::RAX))),
    // test byte [rsp+0x10], 0x3
    Code(Insn::Test(Width::Byte, Place::Mem(RSP_10), Source::Imm(3))),
    // jnz NMI_MOVES
    Code(Insn::Jcc(5, NMI_MOVES)),
    // mov rax, [rsp+0x20]
    Code(Insn::Mov(Width::Quad, Place::Reg(Reg::RAX), Source::Mem(RSP_20))),
    // and rax, -0x1000
    Code(Insn::Alu(
        AluOp::And,
        Width::Quad,
        Place::Reg(Reg::RAX),
        Source::Imm(-0x1000),
    )),
    // cmp rax, 0xffffffff84009000
    Code(Insn::Alu(
        AluOp::Cmp,
        Width::Quad,
        Place::Reg(Reg::RAX),
        Source::Imm(WORK_STACK),
    )),
    // jz NMI_RETURNS
    Code(Insn::Jcc(4, NMI_RETURNS)),
    // cmp rax, 0xffffffff84007000
    Code(Insn::Alu(
        AluOp::Cmp,
        Width::Quad,
        Place::Reg(Reg::RAX),
        Source::Imm(MACHINE_CHECK_STACK),
    )),
    // jnz NMI_MOVES
    Code(Insn::Jcc(5, NMI_MOVES)),
    At(NMI_RETURNS),
    // pop rax
    Code(Insn::Pop(Place::Reg(Reg::RAX))),
    // iretq
    Code(Insn::Iretq),
    At(NMI_MOVES),
    // mov rax, rsp
    Code(Insn::Mov(Width::Quad, Place::Reg(Reg::RAX), Source::Reg(Reg::RSP))),
    // mov rsp, 0xffffffff8400a000
    Code(Insn::Mov(
        Width::Quad,
        Place::Reg(Reg::RSP),
        Source::Imm(WORK_STACK_TOP),
    )),
    // push [rax+0x28]
    Code(Insn::Push(Source::Mem(RAX_28))),
    // push [rax+0x20]
    Code(Insn::Push(Source::Mem(RAX_20))),
    // push [rax+0x18]
    Code(Insn::Push(Source::Mem(RAX_18))),
    // push [rax+0x10]
    Code(Insn::Push(Source::Mem(RAX_10))),
    // push [rax+0x8]
    Code(Insn::Push(Source::Mem(RAX_8))),
    // push [rax]
    Code(Insn::Push(Source::Mem(RAX_0))),
];

/// The entries of S1 after SYSCALL_FRAME, in the order of their addresses.
pub const S1_AFTER_FRAME: &[&[Line]] = &[
    SYSCALL_HANDLER,
    INTERRUPT_ENTRY,
    PUSH_RAX,
    PUSH_OTHERS,
    KERNEL_CR3,
    CALL_ON_INTERRUPT,
    USER_CR3,
    RESTORE,
    RETURN_TO_USER,
    INTERRUPT_KERNEL_PART,
    PUSH_RAX,
    PUSH_OTHERS,
    CALL_ON_INTERRUPT,
    RESTORE,
    RETURN,
    PAGE_FAULT_ENTRY,
    PUSH_RAX,
    PUSH_OTHERS,
    KERNEL_CR3,
    CALL_ON_PAGE_FAULT,
    USER_CR3,
    RESTORE,
    DROP_ERROR_CODE,
    RETURN_TO_USER,
    PAGE_FAULT_KERNEL_PART,
    PUSH_RAX,
    PUSH_OTHERS,
    CALL_ON_PAGE_FAULT,
    RESTORE,
    DROP_ERROR_CODE,
    RETURN,
    DEBUG_ENTRY,
    PUSH_RAX,
    PUSH_OTHERS,
    DEBUG_TAKES_GS,
    TAKE_KERNEL_CR3,
    CALL_ON_DEBUG,
    DEBUG_GIVES_BACK,
    RESTORE,
    RETURN,
    NMI_ENTRY,
    PUSH_RAX,
    PUSH_OTHERS,
    NMI_TAKES_GS,
    TAKE_KERNEL_CR3,
    CALL_ON_NMI,
    NMI_GIVES_BACK,
    RESTORE,
    RETURN,
    MACHINE_CHECK_ENTRY,
    PUSH_RAX,
    PUSH_OTHERS,
    KERNEL_CR3,
    CALL_ON_MACHINE_CHECK,
    USER_CR3,
    RESTORE,
    RETURN_TO_USER,
    MACHINE_CHECK_TAKES_GS,
    KERNEL_CR3,
    CALL_ON_MACHINE_CHECK_IN_KERNEL,
];

/// The entries of S2: those of S1, with another NMI entry.
pub const S2_PARTS: &[&[Line]] = &[
    SYSCALL_FRAME,
    SYSCALL_HANDLER,
    INTERRUPT_ENTRY,
    PUSH_RAX,
    PUSH_OTHERS,
    KERNEL_CR3,
    CALL_ON_INTERRUPT,
    USER_CR3,
    RESTORE,
    RETURN_TO_USER,
    INTERRUPT_KERNEL_PART,
    PUSH_RAX,
    PUSH_OTHERS,
    CALL_ON_INTERRUPT,
    RESTORE,
    RETURN,
    PAGE_FAULT_ENTRY,
    PUSH_RAX,
    PUSH_OTHERS,
    KERNEL_CR3,
    CALL_ON_PAGE_FAULT,
    USER_CR3,
    RESTORE,
    DROP_ERROR_CODE,
    RETURN_TO_USER,
    PAGE_FAULT_KERNEL_PART,
    PUSH_RAX,
    PUSH_OTHERS,
    CALL_ON_PAGE_FAULT,
    RESTORE,
    DROP_ERROR_CODE,
    RETURN,
    DEBUG_ENTRY,
    PUSH_RAX,
    PUSH_OTHERS,
    DEBUG_TAKES_GS,
    TAKE_KERNEL_CR3,
    CALL_ON_DEBUG,
    DEBUG_GIVES_BACK,
    RESTORE,
    RETURN,
    MOVING_NMI_ENTRY,
    PUSH_OTHERS,
    MOVED_NMI_TAKES_GS,
    TAKE_KERNEL_CR3,
    CALL_ON_NMI,
    MOVED_NMI_GIVES_BACK,
    RESTORE,
    RETURN,
    MACHINE_CHECK_ENTRY,
    PUSH_RAX,
    PUSH_OTHERS,
    KERNEL_CR3,
    CALL_ON_MACHINE_CHECK,
    USER_CR3,
    RESTORE,
    RETURN_TO_USER,
    MACHINE_CHECK_TAKES_GS,
    KERNEL_CR3,
    CALL_ON_MACHINE_CHECK_IN_KERNEL,
];
