//! The rows of the effect tables for the stack: what the analysis knows after such an instruction stands
//! for what the processor leaves, and its store is the write.

ghost use Rattle.std.specs.Prelude.{ℕ};
ghost use Rattle.kc_insn.specs.declared.insn.Insn.TheVariants.{Push, Pushfq, Pop, Call, Ret};
ghost use Rattle.kc_insn.specs.declared.insn.Place.{Place};
ghost use Rattle.kc_insn.specs.declared.insn.Source.{Source};
ghost use Rattle.kc_stack.specs.Rows.{CoversRow};

/// PUSH, of a register, of memory and of an immediate, and PUSHFQ.
pub fn push_rows()
    ensures push { (src : Source) → CoversRow (Push src) }
    ensures pushfq { CoversRow Pushfq }
{}

/// POP, to a register and to memory.
pub fn pop_rows()
    ensures pop { (dest : Place) → CoversRow (Pop dest) }
{}

/// CALL, of kernel code and of a handler, and RET.
pub fn call_rows()
    ensures call { (target : ℕ) → CoversRow (Call target) }
    ensures ret { CoversRow Ret }
{}
