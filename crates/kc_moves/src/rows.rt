//! The rows of the effect tables for moves: what the analysis knows after such an instruction stands for
//! what the processor leaves, and its store is the write.

ghost use Rattle.kc_insn.specs.declared.insn.Insn.TheVariants.{Nop, Endbr64, Lfence, Mov, Lea, Xchg};
ghost use Rattle.kc_insn.specs.declared.insn.Place.{Place};
ghost use Rattle.kc_insn.specs.declared.insn.Mem.{Mem};
ghost use Rattle.kc_insn.specs.declared.insn.Reg.{Reg};
ghost use Rattle.kc_insn.specs.declared.insn.Source.{Source};
ghost use Rattle.kc_words.specs.declared.width.Width.{Width};
ghost use Rattle.kc_moves.specs.Moves.{CoversMove};

/// NOP, ENDBR64 and LFENCE.
pub fn plain_rows()
    ensures nop { CoversMove Nop }
    ensures endbr64 { CoversMove Endbr64 }
    ensures lfence { CoversMove Lfence }
{}

/// MOV, LEA and XCHG.
pub fn move_rows()
    ensures mov { (w : Width) (dest : Place) (src : Source) → CoversMove (Mov w dest src) }
    ensures lea { (w : Width) (dest : Reg) (src : Mem) → CoversMove (Lea w dest src) }
    ensures xchg { (w : Width) (dest : Place) (src : Reg) → CoversMove (Xchg w dest src) }
{}
