//! The rows of the effect tables for arithmetic, branches and flags: what the analysis knows after such
//! an instruction covers what the processor leaves.

ghost use Rattle.std.specs.Prelude.{ℕ, ◌<◌, ℤ};
ghost use Rattle.kc_words.specs.declared.width.Width.{Width};
ghost use Rattle.kc_bits.specs.Bits.{IsValid};
ghost use Rattle.kc_insn.specs.Fields.{source_of};
ghost use Rattle.kc_insn.specs.declared.insn.AluOp.{AluOp};
ghost use Rattle.kc_insn.specs.declared.insn.BitOp.{BitOp};
ghost use Rattle.kc_insn.specs.declared.insn.Insn.TheVariants.{Alu, Test, Bit, Jcc, Jmp, Cli, Cld, Clac, Stac, Sti, Popfq};
ghost use Rattle.kc_insn.specs.declared.insn.Place.{Place};
ghost use Rattle.kc_insn.specs.declared.insn.Reg.{Reg};
ghost use Rattle.kc_insn.specs.declared.insn.Source.{Source};
ghost use Rattle.kc_insn.specs.declared.insn.Source.TheVariants as source;
ghost use Rattle.kc_value.specs.Value.{Represents};
ghost use Rattle.kc_value.specs.declared.env.ValueEnv.{ValueEnv};
ghost use Rattle.kc_state.specs.AbsEffect.{rsp as known_rsp, stack_word as known_stack_word, abs_row};
ghost use Rattle.kc_state.specs.Operand.{AbsMoment, register as known_register, operand as known_operand, destination as known_destination};
ghost use Rattle.kc_exec.specs.Change.{stack_word};
ghost use Rattle.kc_exec.specs.Effect.{row};
ghost use Rattle.kc_exec.specs.Moment.{Moment};
ghost use Rattle.kc_exec.specs.Operand.{destination};
ghost use Rattle.kc_exec.specs.Register.{register, rsp};
ghost use Rattle.kc_arith.specs.Rows.{Finds, IsWritable, OperandStands, MovesStand, IsMovable, CoversChange};

/// What is known of a register or an immediate stands for the operand.
pub fn operands()
    ensures register { (env : ValueEnv) (known : AbsMoment) (m : Moment) → Finds env known m → (w : Width) (r : Reg)
        → r.0 < 16 → OperandStands env known m w (source.Reg r) }
    ensures immediate { (env : ValueEnv) (known : AbsMoment) (m : Moment) → Finds env known m → (w : Width) (z : ℤ)
        → OperandStands env known m w (source.Imm z) }
{}

/// ADD, OR, AND, SUB, XOR, CMP, TEST, BT, BTS and BTR, where what is known of the operands stands for
/// them.
pub fn arithmetic_rows()
    // A sum or a difference may move a destination that is relative to the base.
    ensures operation { (env : ValueEnv) (known : AbsMoment) (m : Moment) → Finds env known m
        → (op : AluOp) (w : Width) (dest : Place) (src : Source) → IsWritable dest
        → OperandStands env known m w (source_of dest) → OperandStands env known m w src
        → IsValid (known_operand known w src).bits
        → IsMovable env known w (known_destination known w dest) (destination m w dest)
        → CoversChange env known m (abs_row known (Alu op w dest src)) (row m (Alu op w dest src)) }
    ensures comparison { (env : ValueEnv) (known : AbsMoment) (m : Moment) → Finds env known m
        → (w : Width) (dest : Place) (src : Source) → IsWritable dest
        → OperandStands env known m w (source_of dest) → OperandStands env known m w src
        → CoversChange env known m (abs_row known (Test w dest src)) (row m (Test w dest src)) }
    ensures bit { (env : ValueEnv) (known : AbsMoment) (m : Moment) → Finds env known m
        → (op : BitOp) (w : Width) (dest : Place) (number : ℕ) → IsWritable dest
        → OperandStands env known m w (source_of dest)
        → CoversChange env known m (abs_row known (Bit op w dest number)) (row m (Bit op w dest number)) }
{}

/// Jcc, of each code, and JMP.
pub fn branch_rows()
    ensures conditional { (env : ValueEnv) (known : AbsMoment) (m : Moment) → Finds env known m → (code target : ℕ)
        → CoversChange env known m (abs_row known (Jcc code target)) (row m (Jcc code target)) }
    ensures jump { (env : ValueEnv) (known : AbsMoment) (m : Moment) → Finds env known m → (target : ℕ)
        → CoversChange env known m (abs_row known (Jmp target)) (row m (Jmp target)) }
{}

/// CLI, CLD, CLAC, STAC, STI, and POPFQ where RSP can be moved and what is known of the word at RSP
/// covers it.
pub fn flag_rows()
    ensures cli { (env : ValueEnv) (known : AbsMoment) (m : Moment) → Finds env known m
        → CoversChange env known m (abs_row known Cli) (row m Cli) }
    ensures cld { (env : ValueEnv) (known : AbsMoment) (m : Moment) → Finds env known m
        → CoversChange env known m (abs_row known Cld) (row m Cld) }
    ensures clac { (env : ValueEnv) (known : AbsMoment) (m : Moment) → Finds env known m
        → CoversChange env known m (abs_row known Clac) (row m Clac) }
    ensures stac { (env : ValueEnv) (known : AbsMoment) (m : Moment) → Finds env known m
        → CoversChange env known m (abs_row known Stac) (row m Stac) }
    ensures sti { (env : ValueEnv) (known : AbsMoment) (m : Moment) → Finds env known m
        → CoversChange env known m (abs_row known Sti) (row m Sti) }
    ensures popfq { (env : ValueEnv) (known : AbsMoment) (m : Moment) → Finds env known m
        → MovesStand env known (known_register known.cpu known_rsp) (register m.cpu rsp)
        → Represents (known_stack_word known) env (stack_word m 0)
        → CoversChange env known m (abs_row known Popfq) (row m Popfq) }
{}
