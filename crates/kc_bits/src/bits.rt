//! Known bits of 64-bit words, this project's own: the tristate numbers of Linux's BPF verifier.

ghost use Rattle.std.specs.Prelude.{◌≡◌, ℕ, ◌+◌, ◌-◌, ◌%◌, ◌^◌, ◌<◌, bit_and, bit_or, bit_xor, IfSome, IsTrue, ◌↔◌, true};
ghost use Rattle.kc_bits.specs.Bits.{IsValid, StandsFor, IsOnly, is_below, bits_joined, nothing_known, bits_rank, all_of, unknown, bits_single, bits_and, bits_or, bits_xor, known_but, bits_add, bits_sub, bits_cut, bits_prefix, DiffersIn, IsSound, IsMonotoneAt, word};
ghost use Rattle.kc_bits.specs.KnownBits.{KnownBits};
ghost use Rattle.std.specs.Int.{bit_at};
ghost use Rattle.std.specs.Int.Count.{count_leading_zeros};
ghost use Rattle.kc_words.specs.Span.{Holds};
ghost use Rattle.kc_words.specs.Flags.{bits_of, cut};
ghost use Rattle.kc_bits.specs.BitsLaws.{bits_laws, bits_grow};
ghost use Rattle.kc_lattice.specs.Laws.{AllAlike};

use kc_lattice::{Domain, Meaning};
use kc_words::{Span, Width};
use std::marker::Model;

/// What is known of the bits of a 64-bit word: those in `zeros` are 0, those in `ones` are 1, and
/// no bit is in both. It stands for each word that has these bits.
#[derive(Clone, Copy, PartialEq, Eq, Debug)]
pub struct Bits {
    pub zeros: u64,
    pub ones: u64,
}

impl Model for Bits {
    ghost use Rattle.std.specs.Prelude.{◌≡◌, bit_and};
    ghost use Rattle.kc_bits.specs.KnownBits.{KnownBits};

    ghost Value = { KnownBits };

    ghost view = { λ b. record { zeros = b.zeros; ones = b.ones } };

    ghost invariant = { λ b. bit_and b.zeros b.ones ≡ 0 };

    ghost inverse = { λ b. record { zeros = b.zeros; ones = b.ones } };
}

impl Domain for Bits {
    ghost valid = { IsValid };

    ghost alike = { AllAlike };

    ghost below = { is_below };

    ghost joined = { bits_joined };

    ghost top_of = { λ x. nothing_known };

    ghost rank = { bits_rank };

    ghost laws = { bits_laws };

    fn leq(&self, other: &Bits) -> bool {
        self.zeros & other.zeros == other.zeros && self.ones & other.ones == other.ones
    }

    fn join(&mut self, other: &Bits) {
        self.zeros &= other.zeros;
        self.ones &= other.ones;
    }

    fn is_top(&self) -> bool {
        self.zeros == 0 && self.ones == 0
    }

    fn set_top(&mut self) {
        self.zeros = 0;
        self.ones = 0;
    }

    fn tell(&self) {
        let _zeros = self.zeros;
        let _ones = self.ones;
    }
}

impl Meaning for Bits {
    type Env = ();

    type Conc = u64;

    ghost holds = { λ b e n. StandsFor b n };

    ghost grows = { λ x y e n hx hy h. bits_grow x y n h };

    fn stands(&self, _env: &(), c: &u64) -> bool {
        *c & self.zeros == 0 && *c & self.ones == self.ones
    }
}

impl Bits {
    /// All bits of `v`.
    pub fn of(v: u64) -> Bits
        ensures value { result ≡ all_of v }
        ensures only { IsOnly result v }
    {
        Bits { zeros: !v, ones: v }
    }

    /// The bits in which all addresses of `span`, which has an address, agree.
    pub fn prefix(span: &Span) -> Bits
        requires { span.now.from < span.now.to }
        ensures value { result ≡ bits_prefix span.now }
        ensures sound { (a : ℕ) → Holds span.now a → StandsFor result a }
        ensures exact { (i : ℕ) → i < 64 → bit_at (unknown result) i ≡ 1 → DiffersIn span.now i }
    {
        known_but(span.from, up_to_highest(span.from ^ (span.to - 1)))
    }

    /// The number, where all bits are known.
    pub fn single(&self) -> Option<u64>
        ensures value { result ≡ bits_single self.now }
        ensures only { IfSome result (IsOnly self.now) }
    {
        self.tell();
        let open = self.unknown();
        if open == 0 { Some(self.ones) } else { None }
    }

    /// What is known of `x & y`, where `self` stands for x and `other` for y.
    pub fn and(&self, other: &Bits) -> Bits
        ensures value { result ≡ bits_and self.now other.now }
        ensures sound { IsSound bit_and self.now other.now result }
        ensures monotone { IsMonotoneAt bits_and self.now other.now }
    {
        Bits {
            zeros: self.zeros | other.zeros,
            ones: self.ones & other.ones,
        }
    }

    /// What is known of `x | y`.
    pub fn or(&self, other: &Bits) -> Bits
        ensures value { result ≡ bits_or self.now other.now }
        ensures sound { IsSound bit_or self.now other.now result }
        ensures monotone { IsMonotoneAt bits_or self.now other.now }
    {
        Bits {
            zeros: self.zeros & other.zeros,
            ones: self.ones | other.ones,
        }
    }

    /// What is known of `x ^ y`.
    pub fn xor(&self, other: &Bits) -> Bits
        ensures value { result ≡ bits_xor self.now other.now }
        ensures sound { IsSound bit_xor self.now other.now result }
        ensures monotone { IsMonotoneAt bits_xor self.now other.now }
    {
        Bits {
            zeros: self.zeros & other.zeros | self.ones & other.ones,
            ones: self.zeros & other.ones | self.ones & other.zeros,
        }
    }

    /// What is known of `x + y` modulo 2^64.
    pub fn add(&self, other: &Bits) -> Bits
        ensures value { result ≡ bits_add self.now other.now }
        ensures sound { IsSound (λ x y. word (x + y)) self.now other.now result }
        ensures monotone { IsMonotoneAt bits_add self.now other.now }
    {
        self.tell();
        other.tell();
        let least = self.ones.wrapping_add(other.ones);
        let greatest = least
            .wrapping_add(self.unknown())
            .wrapping_add(other.unknown());
        known_but(least, least ^ greatest | self.unknown() | other.unknown())
    }

    /// What is known of `x - y` modulo 2^64.
    pub fn sub(&self, other: &Bits) -> Bits
        ensures value { result ≡ bits_sub self.now other.now }
        ensures sound { IsSound (λ x y. word (x + (2 ^ 64 - y))) self.now other.now result }
        ensures monotone { IsMonotoneAt bits_sub self.now other.now }
    {
        self.tell();
        other.tell();
        let difference = self.ones.wrapping_sub(other.ones);
        let greatest = difference.wrapping_add(self.unknown());
        let least = difference.wrapping_sub(other.unknown());
        known_but(
            difference,
            greatest ^ least | self.unknown() | other.unknown(),
        )
    }

    /// What is known of the low bits of `x` that an operand of `width` takes, with 0 above them.
    pub fn cut(&self, width: Width) -> Bits
        ensures value { result ≡ bits_cut (bits_of width) self.now }
        ensures sound { (x : ℕ) → x < 2 ^ 64 → StandsFor self.now x → StandsFor result (cut width x) }
        ensures monotone { (b : KnownBits) → IsValid b → is_below self.now b ≡ true
            → is_below result (bits_cut (bits_of width) b) ≡ true }
    {
        self.tell();
        let above = !width.cut(u64::MAX);
        Bits {
            zeros: width.cut(self.zeros) | above,
            ones: width.cut(self.ones),
        }
    }

    fn unknown(&self) -> u64
        ensures { result ≡ unknown self.now }
    {
        !(self.zeros | self.ones)
    }
}

// The bits of `p` that are not in `unknown`.
fn known_but(p: u64, unknown: u64) -> Bits
    ensures { result ≡ known_but p unknown }
{
    Bits {
        zeros: !p & !unknown,
        ones: p & !unknown,
    }
}

// Ones from bit 0 to the highest 1 of `n`.
fn up_to_highest(n: u64) -> u64
    ensures { result ≡ 2 ^ (64 - count_leading_zeros 64 n) - 1 }
{
    match u64::MAX.checked_shr(n.leading_zeros()) {
        Some(ones) => ones,
        None => 0,
    }
}
