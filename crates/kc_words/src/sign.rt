//! Sign extension of a doubleword (Intel SDM vol. 2, "MOVSXD").

ghost use Rattle.std.specs.Prelude.{◌≡◌, ◌<◌, ℕ, min};
ghost use Rattle.std.specs.Int.{bit_at};
ghost use Rattle.kc_words.specs.Sign.{sign_extended};

/// `v` with its bit 31 repeated in bits 32 to 63.
pub fn sign32(v: u32) -> u64
    ensures value { result ≡ sign_extended v }
    ensures bits { (i : ℕ) → i < 64 → bit_at result i ≡ bit_at v (min i 31) }
{
    i64::from(v.cast_signed()).cast_unsigned()
}
