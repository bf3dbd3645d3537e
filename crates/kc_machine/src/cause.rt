//! The causes of the breaks B1, B5 and B8 that an instruction's accesses don't show.

ghost use Rattle.std.specs.Prelude.{◌≡◌, ◌≢◌, ◌<◌, ℕ, IsTrue, ◌↔◌, IsSomeAnd, true};
ghost use Rattle.kc_insn.specs.declared.insn.Insn.TheVariants.{Sysretq};
ghost use Rattle.kc_regions.specs.declared.region.Kind.TheVariants.{Text};
ghost use Rattle.kc_regions.specs.Region.{region_of};
ghost use Rattle.kc_cpu.specs.declared.cpu.Mode.TheVariants.{User};
ghost use Rattle.kc_exec.specs.Moment.{Moment};
ghost use Rattle.kc_exec.specs.Breaks.{effect as effect_of};
ghost use Rattle.kc_exec.specs.Operand.{plus};
ghost use Rattle.kc_exec.specs.declared.executed.ExecEnd.TheVariants.{Returned};
ghost use Rattle.kc_events.specs.Turns.{newest as newest_of, mode_below};
ghost use Rattle.kc_events.specs.Attempt.{is_return};
ghost use Rattle.kc_events.specs.Breaks.{IsUndecodable, IsContext, Restores};
ghost use Rattle.kc_machine.specs.JudgeSteps.{IsExecutable, IsLeastBesides, cpu_after};

use crate::chain::newest;
use crate::one_region::are_code;
use kc_cpu::{Cpu, Mode};
use kc_exec::{Activation, ExecEnd, Executed};
use kc_insn::Insn;
use kc_regions::{Config, Kind};

/// B5: a return to another context.
const OTHER_CONTEXT: u8 = 5;

/// B8: SYSRETQ in an activation that isn't a syscall's.
const NO_SYSCALL: u8 = 8;

/// RSP's number among the registers.
const RSP: usize = 4;

fn is_executable(cfg: &Config, at: u64) -> bool
    ensures { IsTrue result ↔ IsExecutable cfg.now at }
{
    match cfg.regions.of(at) {
        Some(region) => region.kind == Kind::Text && region.exec,
        None => false,
    }
}

// Whether one of so many bytes from `at` on isn't in executable text, one after another.
fn finds_other_byte(cfg: &Config, at: u64, len: u8) -> bool
    ensures { IsTrue result ↔ ((i : ℕ) × (i < len) × ¬ IsExecutable cfg.now (plus at i)) }
{
    for i in 0..len {
        if !is_executable(cfg, at.wrapping_add(i as u64)) {
            return true;
        }
    }
    false
}

// Whether one of so many bytes from `at` on isn't in executable text.
fn has_other_byte(cfg: &Config, at: u64, len: u8) -> bool
    ensures { IsTrue result ↔ ((i : ℕ) × (i < len) × ¬ IsExecutable cfg.now (plus at i)) }
{
    if are_code(cfg, at, len) {
        cfg.tell();
        false
    } else {
        finds_other_byte(cfg, at, len)
    }
}

/// Whether the instruction at this address breaks B1: there is none, or a byte of it isn't in
/// executable text.
pub(crate) fn is_undecodable(cfg: &Config, at: u64, found: Option<(Insn, u8)>) -> bool
    ensures { IsTrue result ↔ IsUndecodable cfg.now at found }
{
    match found {
        None => true,
        Some((_, len)) => has_other_byte(cfg, at, len),
    }
}

// Whether the processor is that of the context, its registers but RSP aside.
fn is_context(cpu: &Cpu, due: &Cpu) -> bool
    ensures { IsTrue result ↔ IsContext cpu.now due.now }
{
    cpu.rip == due.rip
        && cpu.cs == due.cs
        && cpu.flags == due.flags
        && cpu.regs[RSP] == due.regs[RSP]
        && cpu.ss == due.ss
        && cpu.gs == due.gs
        && cpu.kgs == due.kgs
        && cpu.cr3 == due.cr3
}

// Whether a return into the kernel gives back all registers.
fn keeps_registers(cpu: &Cpu, activation: &Activation) -> bool
    ensures { IsTrue result ↔ (activation.now.saved.mode ≢ User → cpu.now.regs ≡ activation.now.due.regs) }
{
    match activation.saved.mode {
        Mode::User => true,
        Mode::Code | Mode::Inside(_) => cpu.regs == activation.due.regs,
    }
}

// Whether a return to this processor restores the context that is due.
fn restores(cpu: &Cpu, activation: &Activation) -> bool
    ensures { IsTrue result ↔ Restores cpu.now activation.now }
{
    is_context(cpu, &activation.due) && keeps_registers(cpu, activation)
}

fn returns_elsewhere(chain: &[Activation], cpu: &Cpu) -> bool
    ensures { IsTrue result ↔ ¬ IsSomeAnd (newest_of chain.now) (Restores cpu.now) }
{
    match newest(chain) {
        Some(activation) => !restores(cpu, activation),
        None => true,
    }
}

// Whether the newest activation isn't a syscall's.
fn is_no_syscall(chain: &[Activation]) -> bool
    ensures { IsTrue result ↔ ¬ IsSomeAnd (newest_of chain.now) (λ a. a.syscall ≡ true) }
{
    match newest(chain) {
        Some(activation) => !activation.syscall,
        None => true,
    }
}

fn is_sysretq(insn: &Insn) -> bool
    ensures { IsTrue result ↔ (insn.now ≡ Sysretq) }
{
    match insn {
        Insn::Sysretq => true,
        _ => false,
    }
}

// The mode that a return goes back to.
fn mode_of_newest(chain: &[Activation], mode: Mode) -> Mode
    ensures { result ≡ mode_below chain.now mode }
{
    match newest(chain) {
        Some(activation) => activation.saved.mode,
        None => mode,
    }
}

/// Whether the instruction was a return.
pub(crate) fn has_returned(end: ExecEnd) -> bool
    ensures { result ≡ is_return end }
{
    match end {
        ExecEnd::Returned => true,
        ExecEnd::Next | ExecEnd::Stopped | ExecEnd::Forbidden(_) => false,
    }
}

/// The processor after an instruction with these changes: a return's mode is that of the interrupted
/// context.
pub(crate) fn processor_after(chain: &[Activation], done: &Executed) -> Cpu
    ensures { result ≡ cpu_after chain.now done.now }
{
    let mut cpu = done.cpu;
    if has_returned(done.end) {
        cpu.mode = mode_of_newest(chain, cpu.mode);
    }
    cpu
}

// The least break of a return to this processor.
fn break_of_return(chain: &[Activation], insn: &Insn, cpu: &Cpu) -> Option<u8>
    ensures { IsLeastBesides chain.now insn.now Returned cpu.now result }
{
    if returns_elsewhere(chain, cpu) {
        Some(OTHER_CONTEXT)
    } else if is_sysretq(insn) && is_no_syscall(chain) {
        Some(NO_SYSCALL)
    } else {
        None
    }
}

/// The least of the breaks B5 to B8 of the instruction, which ends so and leaves this processor.
pub(crate) fn break_besides(
    chain: &[Activation],
    insn: &Insn,
    end: ExecEnd,
    cpu: &Cpu,
) -> Option<u8>
    requires { (m : Moment) × (end ≡ (effect_of m insn.now).end) }
    ensures { IsLeastBesides chain.now insn.now end cpu.now result }
{
    match end {
        ExecEnd::Next | ExecEnd::Stopped => None,
        ExecEnd::Forbidden(number) => Some(number),
        ExecEnd::Returned => break_of_return(chain, insn, cpu),
    }
}
