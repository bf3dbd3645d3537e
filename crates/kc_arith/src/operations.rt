//! What is known of the results and the flags of arithmetic covers those of the processor, at each
//! width.

ghost use Rattle.std.specs.Prelude.{◌≡◌, ℕ, ◌^◌, ◌<◌, true, Some, IfSome, bit_and, bit_or};
ghost use Rattle.std.specs.Int.{w64, bit_not};
ghost use Rattle.kc_words.specs.Flags.{bits_of};
ghost use Rattle.kc_words.specs.declared.width.Width.{Width};
ghost use Rattle.kc_bits.specs.KnownBits.{KnownBits};
ghost use Rattle.kc_bits.specs.Bits.{StandsFor, flipped, all_of, bits_and, bits_or, bits_cut};
ghost use Rattle.kc_insn.specs.declared.insn.AluOp.{AluOp};
ghost use Rattle.kc_state.specs.AbsEffect.{cancels};
ghost use Rattle.kc_state.specs.Flags.{alu_bits, alu_flags as known_alu_flags, bit_flags as known_bit_flags};
ghost use Rattle.kc_exec.specs.Effect.{alu_flags, alu_result, bit_flags};
ghost use Rattle.kc_arith.specs.Covers.{Covers, CoversOperand, HasBits};

/// The six operations of the ALU; TEST has the flags of AND.
pub fn arithmetic()
    ensures result { (op : AluOp) (w : Width) (a b : KnownBits) (x y : ℕ) → HasBits w a x → HasBits w b y
        → IfSome (alu_result op w x y)
        (CoversOperand w (alu_bits op (bits_of w) (bits_cut (bits_of w) a) (bits_cut (bits_of w) b))) }
    ensures flags { (op : AluOp) (w : Width) (a b known : KnownBits) (x y flags : ℕ) → HasBits w a x → HasBits w b y
        → StandsFor known flags
        → Covers (known_alu_flags op (bits_of w) (bits_cut (bits_of w) a) (bits_cut (bits_of w) b) known)
        (alu_flags op w x y flags) }

    // A difference or an exclusive or of an operand with itself is that of 0 with 0.
    ensures self_result { (op : AluOp) (w : Width) (x : ℕ) → cancels op ≡ true → alu_result op w x x ≡ Some 0 }
    ensures self_flags { (op : AluOp) (w : Width) (x flags : ℕ) → cancels op ≡ true
        → alu_flags op w x x flags ≡ alu_flags op w 0 0 flags }
{}

/// BT, BTS and BTR.
pub fn bit_tests()
    ensures flags { (i : ℕ) (a known : KnownBits) (x flags : ℕ) → StandsFor a x → StandsFor known flags
        → Covers (known_bit_flags i a known) (bit_flags i x flags) }
    ensures set { (w : Width) (a : KnownBits) (x i : ℕ) → i < bits_of w → HasBits w a x
        → CoversOperand w (bits_or (bits_cut (bits_of w) a) (all_of (2 ^ i))) (bit_or x (2 ^ i)) }
    ensures reset { (w : Width) (a : KnownBits) (x i : ℕ) → HasBits w a x
        → CoversOperand w (bits_and (bits_cut (bits_of w) a) (all_of (flipped (2 ^ i))))
        (bit_and x (bit_not w64 (2 ^ i))) }
{}
