//! The general registers (Intel SDM vol. 1, "General-Purpose Registers in 64-Bit Mode").

ghost use Rattle.std.specs.Prelude.{◌≡◌};
ghost use Rattle.kc_exec.specs.Register.{register, with_register};

use kc_cpu::Cpu;
use kc_insn::Reg;

// What the register holds; 0 for a number that names none.
pub(crate) fn value_of(cpu: &Cpu, r: Reg) -> u64
    ensures { result ≡ register cpu.now r }
{
    cpu.regs.get(r.0 as usize).copied().unwrap_or(0)
}

// The processor with all 64 bits of the register replaced; as it is for a number that names none.
pub(crate) fn put_register(cpu: &Cpu, r: Reg, v: u64) -> Cpu
    ensures { result ≡ with_register r v cpu.now }
{
    let held: &[u64] = &cpu.regs;
    let mut after = *cpu;
    if (r.0 as usize) < held.len() {
        after.regs[r.0 as usize] = v;
    }
    after
}
