//! What is known of RFLAGS where one instruction sets, clears, loads or tests flags.

ghost use Rattle.std.specs.Prelude.{◌≡◌, ℕ, ◌^◌, ◌<◌, not};
ghost use Rattle.std.specs.Int.{bit_at};
ghost use Rattle.kc_words.specs.declared.width.Width.{Width};
ghost use Rattle.kc_bits.specs.KnownBits.{KnownBits};
ghost use Rattle.kc_bits.specs.Bits.{StandsFor};
ghost use Rattle.kc_bits.specs.BitsLaws.{Has};
ghost use Rattle.kc_insn.specs.declared.insn.AluOp.{AluOp};
ghost use Rattle.kc_space.specs.Latches.{TriStands};
ghost use Rattle.kc_state.specs.AbsEffect.{loaded_flags};
ghost use Rattle.kc_state.specs.Flags.{set_flag, clear_flag, known_flag, tri_not, holds as known_holds};
ghost use Rattle.kc_exec.specs.Admitted.{model_flags};
ghost use Rattle.kc_exec.specs.Effect.{alu_flags, bit_flags};
ghost use Rattle.kc_exec.specs.RFlags.{loadable, is_set, with_set, with_clear, loaded, holds};
ghost use Rattle.kc_arith.specs.Covers.{Covers, AreModelled};

/// CLI, STI, CLD, CLAC, STAC and POPFQ.
pub fn flag_changes()
    ensures set { (b : KnownBits) (mask flags : ℕ) → mask < 2 ^ 64 → flags < 2 ^ 64 → StandsFor b flags
        → Covers (set_flag mask b) (with_set flags mask) }
    ensures cleared { (b : KnownBits) (mask flags : ℕ) → mask < 2 ^ 64 → StandsFor b flags
        → Covers (clear_flag mask b) (with_clear flags mask) }
    ensures loaded { (b : KnownBits) (n : ℕ) → StandsFor b n → Covers (loaded_flags b) (loaded loadable n) }

    // The gap after an STI is open where IF was clear.
    ensures gap { (b : KnownBits) (flags : ℕ) → StandsFor b flags
        → TriStands (tri_not (known_flag b 9)) (not (is_set flags 9)) }
{}

/// A condition that is decided is the processor's, of each code.
pub fn conditions()
    ensures decided { (b : KnownBits) (flags : ℕ) → StandsFor b flags → (code : ℕ)
        → TriStands (known_holds code b) (holds code flags) }
{}

/// The flags stay those of the model, with bit 1.
pub fn modelled_flags()
    ensures arithmetic { (op : AluOp) (w : Width) (x y flags : ℕ) → AreModelled flags
        → AreModelled (alu_flags op w x y flags) }
    ensures bit_test { (i x flags : ℕ) → AreModelled flags → AreModelled (bit_flags i x flags) }
    ensures set { (mask flags : ℕ) → Has model_flags mask → AreModelled flags
        → AreModelled (with_set flags mask) }
    ensures cleared { (mask flags : ℕ) → mask < 2 ^ 64 → bit_at mask 1 ≡ 0 → AreModelled flags
        → AreModelled (with_clear flags mask) }
    ensures loaded { (n : ℕ) → AreModelled (loaded loadable n) }
{}
