//! What is known of flags, of words and of operands covers them: laws on the definitions, with nothing
//! to run.

ghost use Rattle.std.specs.Prelude.{◌≡◌, ℕ, ◌+◌, ◌*◌, ◌/◌, ◌%◌, ◌^◌, ◌<◌, true};
ghost use Rattle.kc_words.specs.Flags.{bits_of, cut};
ghost use Rattle.kc_words.specs.declared.width.Width.{Width};
ghost use Rattle.kc_bits.specs.KnownBits.{KnownBits};
ghost use Rattle.kc_bits.specs.Bits.{StandsFor, word, all_of, bits_add, bits_cut};
ghost use Rattle.kc_state.specs.AbsEffect.{upper};
ghost use Rattle.kc_regions.specs.Description.{Description};
ghost use Rattle.kc_value.specs.AbsValue.{AbsValue};
ghost use Rattle.kc_value.specs.Value.{Represents};
ghost use Rattle.kc_value.specs.declared.env.ValueEnv.{ValueEnv};
ghost use Rattle.kc_state.specs.Flags.{marked};
ghost use Rattle.kc_state.specs.Operand.{at_width, bits_value, scaled_bits};
ghost use Rattle.kc_state.specs.Scaled.{is_scale};
ghost use Rattle.kc_exec.specs.RFlags.{replaced};
ghost use Rattle.kc_arith.specs.Covers.{Covers, Gives, SamePlaces, StandsAt, joined};

/// Flags of which the analysis forgets some and is given some, where the processor replaces some: what
/// is known afterwards covers what there is, if what is given is right.
pub fn flags_replaced()
    ensures covers { (b : KnownBits) (forget ones zeros defined new flags : ℕ)
        → Gives forget ones zeros defined new → StandsFor b flags
        → Covers (marked b forget ones zeros) (replaced defined new flags) }
{}

/// Known bits of a number, of a sum, and of a word times a scale, all in 64 bits.
pub fn words()
    ensures number { (n : ℕ) → n < 2 ^ 64 → Covers (all_of n) n }
    ensures sum { (a b : KnownBits) (x y : ℕ) → Covers a x → Covers b y → Covers (bits_add a b) (word (x + y)) }
    ensures scaled { (b : KnownBits) (n scale : ℕ) → is_scale scale ≡ true → StandsFor b n
        → Covers (scaled_bits b scale) (n * scale % 2 ^ 64) }
{}

/// Known bits of the upper half of a word, and of a word that is made of two lower halves.
pub fn halves()
    ensures upper { (b : KnownBits) (n : ℕ) → Covers b n → Covers (upper b) (n / 2 ^ 32) }
    ensures joined { (high low : KnownBits) (x y : ℕ) → StandsFor high x → StandsFor low y
        → Covers (joined high low) (x % 2 ^ 32 * 2 ^ 32 + y % 2 ^ 32) }
{}

/// Known bits and values at an operand's width.
pub fn widths()
    ensures bits { (w : Width) (b : KnownBits) (n : ℕ) → StandsFor b n → Covers (bits_cut (bits_of w) b) (cut w n) }

    // Bits that cover a number make a value of it.
    ensures value { (d : Description) (env : ValueEnv) (b : KnownBits) (n : ℕ) → SamePlaces d env → Covers b n
        → Represents (bits_value d b) env n }

    // A register as an operand, and what represents an operand's number as one.
    ensures register { (d : Description) (env : ValueEnv) (w : Width) (v : AbsValue) (n : ℕ) → SamePlaces d env
        → n < 2 ^ 64 → Represents v env n → Represents (at_width d w v) env (cut w n) }
    ensures operand { (env : ValueEnv) (w : Width) (v : AbsValue) (n : ℕ) → n < 2 ^ bits_of w → Represents v env n
        → StandsAt env w v n }

    // An operand that goes into a register.
    ensures put { (d : Description) (env : ValueEnv) (w : Width) (v : AbsValue) (n : ℕ) → SamePlaces d env
        → StandsAt env w v n → Represents (at_width d w v) env n }
{}
