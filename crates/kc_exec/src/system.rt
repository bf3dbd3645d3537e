//! CLI, STI, CLD, CLAC, STAC, SWAPGS, RDGSBASE, WRGSBASE, RDMSR, WRMSR and the moves from and to CR3
//! (Intel SDM vol. 2).

ghost use Rattle.std.specs.Prelude.{◌≡◌, ◌<◌, ◌^◌};
ghost use Rattle.kc_exec.specs.Effect.{row, msr_number, edx_eax, msr, with_msr, stored_cr3};
ghost use Rattle.kc_insn.specs.declared.insn.Insn.TheVariants.{Cli, Sti, Cld, Clac, Stac, Swapgs, ReadGs, WriteGs, Rdmsr, Wrmsr, ReadCr3, WriteCr3};

use crate::before::Before;
use crate::executed::{Executed, go_on, go_on_with};
use crate::flags::{AC, DF, IF, clear_flag, has_if, set_flag};
use crate::log::Log;
use crate::register::{put_register, value_of};
use kc_cpu::Cpu;
use kc_insn::Reg;
use kc_words::Width;

/// The numbers of IA32_GS_BASE, IA32_KERNEL_GS_BASE and IA32_MCG_STATUS (Intel SDM vol. 4). The
/// definitions have them again, so that a wrong one shows.
pub(crate) const GS_BASE: u64 = 0xC000_0101;

pub(crate) const KERNEL_GS_BASE: u64 = 0xC000_0102;

pub(crate) const MCG_STATUS: u64 = 0x17A;

// MCIP, the one bit of IA32_MCG_STATUS that is modelled.
const MCIP: u64 = 4;

// The processor with these flags.
fn with_flags(cpu: &Cpu, flags: u64) -> Cpu
    ensures { result ≡ record cpu.now { flags = flags } }
{
    let mut after = *cpu;
    after.flags = flags;
    after
}

#[tactic(auto, unfolding(crate::specs::Effect::row))]
pub(crate) fn cli(m: &Before) -> Executed
    ensures { result ≡ row m.now Cli }
{
    go_on_with(m, with_flags(m.cpu, clear_flag(m.cpu.flags, IF)))
}

#[tactic(auto, unfolding(crate::specs::Effect::row))]
pub(crate) fn cld(m: &Before) -> Executed
    ensures { result ≡ row m.now Cld }
{
    go_on_with(m, with_flags(m.cpu, clear_flag(m.cpu.flags, DF)))
}

#[tactic(auto, unfolding(crate::specs::Effect::row))]
pub(crate) fn clac(m: &Before) -> Executed
    ensures { result ≡ row m.now Clac }
{
    go_on_with(m, with_flags(m.cpu, clear_flag(m.cpu.flags, AC)))
}

#[tactic(auto, unfolding(crate::specs::Effect::row))]
pub(crate) fn stac(m: &Before) -> Executed
    ensures { result ≡ row m.now Stac }
{
    go_on_with(m, with_flags(m.cpu, set_flag(m.cpu.flags, AC)))
}

#[tactic(auto, unfolding(crate::specs::Effect::row))]
pub(crate) fn sti(m: &Before) -> Executed
    ensures { result ≡ row m.now Sti }
{
    let mut done = go_on_with(m, with_flags(m.cpu, set_flag(m.cpu.flags, IF)));
    done.latch.shadow = !has_if(m.cpu.flags);
    done
}

#[tactic(auto, unfolding(crate::specs::Effect::row))]
pub(crate) fn swapgs(m: &Before) -> Executed
    ensures { result ≡ row m.now Swapgs }
{
    let mut cpu = *m.cpu;
    cpu.gs = m.cpu.kgs;
    cpu.kgs = m.cpu.gs;
    go_on_with(m, cpu)
}

#[tactic(auto, unfolding(crate::specs::Effect::row))]
pub(crate) fn read_gs(m: &Before, r: Reg) -> Executed
    ensures { result ≡ row m.now (ReadGs r) }
{
    go_on_with(m, put_register(m.cpu, r, m.cpu.gs))
}

#[tactic(auto, unfolding(crate::specs::Effect::row))]
pub(crate) fn write_gs(m: &Before, r: Reg) -> Executed
    ensures { result ≡ row m.now (WriteGs r) }
{
    let mut cpu = *m.cpu;
    cpu.gs = value_of(m.cpu, r);
    go_on_with(m, cpu)
}

// The number in ECX.
pub(crate) fn number_of(cpu: &Cpu) -> u64
    ensures { result ≡ msr_number cpu.now }
{
    Width::Long.cut(value_of(cpu, Reg::RCX))
}

// EDX:EAX.
pub(crate) fn value_to_write(cpu: &Cpu) -> u64
    ensures { result ≡ edx_eax cpu.now }
{
    let high = Width::Long.cut(value_of(cpu, Reg::RDX));
    (high << 32) + Width::Long.cut(value_of(cpu, Reg::RAX))
}

// What the model-specific register holds.
fn read_msr(m: &Before, number: u64) -> u64
    ensures { result ≡ msr m.now number }
{
    match number {
        GS_BASE => m.cpu.gs,
        KERNEL_GS_BASE => m.cpu.kgs,
        MCG_STATUS if m.latch.mcip => MCIP,
        _ => 0,
    }
}

#[tactic(auto, unfolding(crate::specs::Effect::row))]
pub(crate) fn rdmsr(m: &Before) -> Executed
    ensures { result ≡ row m.now Rdmsr }
{
    let v = read_msr(m, number_of(m.cpu));
    let cpu = put_register(m.cpu, Reg::RDX, v >> 32);
    go_on_with(m, put_register(&cpu, Reg::RAX, Width::Long.cut(v)))
}

fn write_msr(m: &Before, number: u64, v: u64) -> Executed
    ensures { result ≡ with_msr m.now number v }
{
    let mut done = go_on_with(m, *m.cpu);
    match number {
        GS_BASE => done.cpu.gs = v,
        KERNEL_GS_BASE => done.cpu.kgs = v,
        MCG_STATUS => done.latch.mcip = false,
        _ => {}
    }
    done
}

#[tactic(auto, unfolding(crate::specs::Effect::row))]
pub(crate) fn wrmsr(m: &Before) -> Executed
    ensures { result ≡ row m.now Wrmsr }
{
    write_msr(m, number_of(m.cpu), value_to_write(m.cpu))
}

#[tactic(auto, unfolding(crate::specs::Effect::row))]
pub(crate) fn read_cr3(m: &Before, r: Reg) -> Executed
    ensures { result ≡ row m.now (ReadCr3 r) }
{
    go_on_with(m, put_register(m.cpu, r, m.cpu.cr3))
}

// What CR3 takes of a number: bit 63 isn't stored.
pub(crate) fn without_bit_63(v: u64) -> u64
    ensures { result ≡ stored_cr3 v }
{
    v % (1 << 63)
}

#[tactic(auto, unfolding(crate::specs::Effect::row))]
pub(crate) fn write_cr3(m: &Before, r: Reg) -> Executed
    ensures { result ≡ row m.now (WriteCr3 r) }
{
    let mut cpu = *m.cpu;
    cpu.cr3 = without_bit_63(value_of(m.cpu, r));
    go_on_with(m, cpu)
}
