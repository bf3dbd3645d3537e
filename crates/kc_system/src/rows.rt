//! The rows of the effect tables for GS bases, model-specific registers and CR3: where the conditions on
//! the instruction hold, it breaks nothing, and what the analysis knows after it stands for what the
//! processor leaves.

ghost use Rattle.kc_insn.specs.declared.insn.Insn.TheVariants.{Swapgs, Rdmsr, Wrmsr, ReadCr3, WriteCr3, ReadGs, WriteGs};
ghost use Rattle.kc_insn.specs.declared.insn.Reg.{Reg};
ghost use Rattle.kc_system.specs.Laws.{CoversAlways, CoversKnownCr3, CoversAllowed};

/// SWAPGS, RDGSBASE and WRGSBASE.
pub fn gs_rows()
    ensures swap { CoversAlways Swapgs }
    ensures read { (r : Reg) → CoversAlways (ReadGs r) }
    ensures write { (r : Reg) → CoversAllowed (WriteGs r) }
{}

/// RDMSR and WRMSR.
pub fn msr_rows()
    ensures read { CoversAllowed Rdmsr }
    ensures write { CoversAllowed Wrmsr }
{}

/// MOV from and to CR3.
pub fn cr3_rows()
    ensures read { (r : Reg) → CoversAlways (ReadCr3 r) }
    ensures write { (r : Reg) → CoversKnownCr3 (WriteCr3 r) }
{}
