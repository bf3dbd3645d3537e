//! Symbolic values, this project's own.

ghost use Rattle.std.specs.Prelude.{◌≡◌, ◌<◌, ◌^◌, IsTrue, ◌↔◌};
ghost use Rattle.kc_lattice.specs.Laws.{AllAlike};
ghost use Rattle.kc_value.specs.Place.{LiesIn};
ghost use Rattle.kc_value.specs.Value.{IsValidValue, value_below, value_joined, value_top, value_rank, Represents};
ghost use Rattle.kc_value.specs.ValueLaws.{value_laws, value_grows};

use crate::env::ValueEnv;
use crate::symbol::Sym;
use kc_bits::Bits;
use kc_lattice::{Domain, Meaning};
use kc_words::Span;
use std::marker::Model;

// Each of the 16 stacks, and outside.
pub(crate) const ALL_PLACES: u32 = 0x1_FFFF;

/// What is known of a 64-bit word: its symbol, its bits, and the stacks in which it may lie.
#[derive(Clone, Copy, PartialEq, Eq, Debug)]
pub struct Value {
    pub sym: Sym,
    pub bits: Bits,
    /// Bit s says that the number may lie in stack s, and bit 16 that it may lie in none. Below 2^17.
    pub stacks: u32,
}

impl Model for Value {
    ghost use Rattle.std.specs.Prelude.{◌<◌, ◌^◌};
    ghost use Rattle.kc_value.specs.AbsValue.{AbsValue};
    ghost use Rattle.kc_value.specs.Symbol.{IsSym};

    ghost Value = { AbsValue };

    ghost view = { λ v. record { sym = v.sym; bits = v.bits; stacks = v.stacks } };

    ghost invariant = { λ v. IsSym v.sym × (v.stacks < 2 ^ 17) };

    ghost inverse = { λ v. record { sym = v.sym; bits = v.bits; stacks = v.stacks } };
}

impl Domain for Value {
    ghost valid = { IsValidValue };

    ghost alike = { AllAlike };

    ghost below = { value_below };

    ghost joined = { value_joined };

    ghost top_of = { λ v. value_top };

    ghost rank = { value_rank };

    ghost laws = { value_laws };

    fn leq(&self, other: &Value) -> bool {
        self.sym.is_below(other.sym)
            && self.bits.leq(&other.bits)
            && other.stacks & self.stacks == self.stacks
    }

    fn join(&mut self, other: &Value) {
        self.sym = self.sym.joined(other.sym);
        self.bits.join(&other.bits);
        self.stacks |= other.stacks;
    }

    fn is_top(&self) -> bool {
        self.sym == Sym::Plain && self.bits.is_top() && self.stacks == ALL_PLACES
    }

    fn set_top(&mut self) {
        self.sym = Sym::Plain;
        self.bits.set_top();
        self.stacks = ALL_PLACES;
    }

    fn tell(&self) {
        self.bits.tell();
        let _stacks = self.stacks;
        let _sym = self.sym;
    }
}

impl Meaning for Value {
    type Env = ValueEnv;

    type Conc = u64;

    ghost holds = { Represents };

    ghost grows = { λ v w e n hv hw h. value_grows v w e n h };

    fn stands(&self, env: &ValueEnv, c: &u64) -> bool {
        self.sym.names(env, *c) && self.bits.stands(&(), c) && lies_in(self.stacks, &env.stacks, *c)
    }
}

// Whether a stack of the set holds `n`, or none does and the set has bit 16.
fn lies_in(set: u32, stacks: &[Span; 16], n: u64) -> bool
    ensures { IsTrue result ↔ LiesIn set stacks.now n }
{
    let mut outside = true;
    for s in 0..16 {
        if stacks[s].holds(n) {
            if (set >> s) & 1 == 1 {
                return true;
            }
            outside = false;
        }
    }
    outside && (set >> 16) & 1 == 1
}
