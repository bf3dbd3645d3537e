//! Values that are made of numbers and of bits, this project's own.

ghost use Rattle.std.specs.Prelude.{◌≡◌, ℕ, ◌<◌, ◌^◌, Option, true};
ghost use Rattle.kc_bits.specs.Bits.{StandsFor};
ghost use Rattle.kc_words.specs.Flags.{cut};
ghost use Rattle.kc_words.specs.declared.width.Width.TheVariants.{Long};
ghost use Rattle.kc_value.specs.Place.{HasPlace, place_bit};
ghost use Rattle.kc_value.specs.AbsValue.{AbsValue};
ghost use Rattle.kc_value.specs.Value.{Represents, value_below, value_top};
ghost use Rattle.kc_value.specs.declared.env.ValueEnv.{ValueEnv as Env};
ghost use Rattle.kc_value.specs.Made.{IsPlace, IsPlaceOf, constant, of_bits, derived, plain, low_bits, low, DerivedStands, DerivedGrows, LowStands, LowGrows};

use crate::symbol::Sym;
use crate::value::{ALL_PLACES, Value};
use kc_bits::Bits;
use kc_lattice::Domain;
use kc_words::Width;

impl Value {
    /// Nothing known: no symbol, no bit, and any place.
    pub fn top() -> Value
        ensures value { result ≡ value_top }
    {
        Value {
            sym: Sym::Plain,
            bits: Bits { zeros: 0, ones: 0 },
            stacks: ALL_PLACES,
        }
    }

    /// The number `n`, which lies in this stack, or in none.
    pub fn constant(n: u64, stack: Option<u8>) -> Value
        requires { IsPlace stack }
        ensures value { result ≡ constant n stack }
        ensures sound { (env : Env) → HasPlace env.stacks stack n → Represents result env n }
    {
        Value {
            sym: Sym::Plain,
            bits: Bits::of(n),
            stacks: 1 << place_bit(stack),
        }
    }

    /// What `bits` alone say: the number where they are all known, with `stack` as its place (the
    /// stack is not looked at else), or else these bits at any place.
    pub fn derived(bits: &Bits, stack: Option<u8>) -> Value
        requires { IsPlace stack }
        ensures value { (place : ℕ → Option ℕ) → IsPlaceOf place bits.now stack → result ≡ derived place bits.now }
        ensures sound { DerivedStands bits.now }
        ensures monotone { DerivedGrows bits.now }
    {
        bits.tell();
        match bits.single() {
            Some(n) => Value::constant(n, stack),
            None => Value {
                sym: Sym::Plain,
                bits: *bits,
                stacks: ALL_PLACES,
            },
        }
    }

    /// The value without its symbol.
    pub fn plain(&self) -> Value
        ensures value { result ≡ plain self.now }
        ensures sound { (env : Env) (n : ℕ) → Represents self.now env n → Represents result env n }
        ensures monotone { (v : AbsValue) → value_below self.now v ≡ true → value_below result (plain v) ≡ true }
    {
        Value {
            sym: Sym::Plain,
            bits: self.bits,
            stacks: self.stacks,
        }
    }

    /// What is known of the low 32 bits, with 0 above them; `stack` is the place of that number,
    /// where all bits are known.
    pub fn low(&self, stack: Option<u8>) -> Value
        requires { IsPlace stack }
        ensures value { (place : ℕ → Option ℕ) → IsPlaceOf place (low_bits self.now) stack
            → result ≡ low place self.now }
        ensures sound { LowStands self.now }
        ensures monotone { LowGrows self.now }
    {
        self.bits.tell();
        Value::derived(&self.bits.cut(Width::Long), stack)
    }
}

// The bit of a place in a set of places.
fn place_bit(stack: Option<u8>) -> u8
    requires { IsPlace stack }
    ensures value { result ≡ place_bit stack }
    ensures bound { result < 17 }
{
    match stack {
        Some(s) => s,
        None => 16,
    }
}
