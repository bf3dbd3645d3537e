//! The processors with which user code may run. This project's own.

ghost use Rattle.std.specs.Prelude.{◌≡◌, IsTrue, ◌↔◌};
ghost use Rattle.kc_exec.specs.Admitted.{AreUserFlags, IsUserGs, IsAdmitted};

use crate::breaks::is_canonical;
use crate::register::value_of;
use kc_cpu::Cpu;
use kc_insn::Reg;
use kc_regions::Config;

// The flags of the model and bit 1. The definition has the mask again, so that a wrong one shows.
const MODEL_FLAGS: u64 = 0x24_0FD7;

fn are_user_flags(flags: u64) -> bool
    ensures { IsTrue result ↔ AreUserFlags flags }
{
    (flags >> 9) & 1 == 1 && ((flags >> 1) & 1 == 1 && flags & MODEL_FLAGS == flags)
}

fn is_user_gs(gs_writes: bool, gs: u64) -> bool
    ensures { IsTrue result ↔ IsUserGs gs_writes gs }
{
    if gs_writes {
        is_canonical(gs)
    } else {
        gs < 1 << 47
    }
}

/// Whether user code may run with this processor: CS and SS are configured for it, RIP is below
/// 2^47, RFLAGS has IF and bit 1 and no flag outside the model, CR3 is the user's, the inactive GS
/// base is the kernel's, the active one is below 2^47 (or canonical, where user code may write it),
/// and RSP lies in no stack. The mode isn't looked at.
pub fn admitted(cfg: &Config, cpu: &Cpu) -> bool
    ensures is { IsTrue result ↔ IsAdmitted cfg.now cpu.now }
{
    cfg.is_user_cs(cpu.cs)
        && cpu.ss == cfg.user_ss()
        && cpu.rip < 1 << 47
        && are_user_flags(cpu.flags)
        && cpu.cr3 == cfg.cpu.user_cr3
        && cpu.kgs == cfg.cpu.kernel_gs
        && is_user_gs(cfg.cpu.user_gs_writes, cpu.gs)
        && cfg.regions.stack_of(value_of(cpu, Reg::RSP)).is_none()
}
