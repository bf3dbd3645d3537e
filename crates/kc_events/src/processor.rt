//! The processor after SYSCALL (Intel SDM vol. 2, "SYSCALL") and after turns of user code and of C
//! handlers.

ghost use Rattle.std.specs.Prelude.{◌≡◌};
ghost use Rattle.kc_events.specs.Turns.{after_syscall, user_cpu, body_cpu, after_leave};

use crate::turn::{BodySet, LeaveSet, UserSet};
use kc_cpu::{Call, Cpu, Mode};
use kc_regions::Config;

const RCX: usize = 1;

const R11: usize = 11;

/// The processor in the kernel's SYSCALL entry: RCX has RIP, the address after the instruction, and
/// R11 has RFLAGS. RSP stays.
pub fn enter_syscall(cfg: &Config, cpu: &Cpu) -> Cpu
    ensures value { result ≡ after_syscall cfg.now cpu.now }
{
    let mut after = *cpu;
    after.regs[R11] = cpu.flags;
    after.regs[RCX] = cpu.rip;
    after.rip = cfg.cpu.syscall;
    after.flags = cpu.flags & !cfg.cpu.fmask;
    after.cs = cfg.cpu.star_kernel;
    after.ss = cfg.cpu.star_kernel + 8;
    after.mode = Mode::Code;
    after
}

/// The processor that user code leaves; SS, the inactive GS base and CR3 stay.
pub fn user_cpu(cpu: &Cpu, set: &UserSet) -> Cpu
    ensures value { result ≡ user_cpu cpu.now set.now }
{
    let regs = set.regs;
    let mut after = *cpu;
    after.regs = regs;
    after.rip = set.rip;
    after.flags = set.flags;
    after.cs = set.cs;
    after.gs = set.gs;
    after
}

/// The processor that a handler's step leaves; CS, SS, the GS bases and CR3 stay.
pub fn body_cpu(cpu: &Cpu, set: &BodySet) -> Cpu
    ensures value { result ≡ body_cpu cpu.now set.now }
{
    let regs = set.regs;
    let mut after = *cpu;
    after.regs = regs;
    after.rip = set.rip;
    after.flags = set.flags;
    after
}

/// The processor after the handler's return: the code after the call goes on, with RBX, RBP and R12
/// to R15 as they were at the call.
pub fn leave_cpu(cpu: &Cpu, call: &Call, set: &LeaveSet) -> Cpu
    ensures value { result ≡ after_leave cpu.now call.now set.now }
{
    let regs = set.regs;
    let mut after = *cpu;
    after.regs = regs;
    after.regs[3] = call.kept[0];
    after.regs[5] = call.kept[1];
    after.regs[12] = call.kept[2];
    after.regs[13] = call.kept[3];
    after.regs[14] = call.kept[4];
    after.regs[15] = call.kept[5];
    after.regs[4] = call.rsp.wrapping_add(8);
    after.rip = call.back;
    after.flags = set.flags;
    after.mode = Mode::Code;
    after
}
