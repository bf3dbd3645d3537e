//! What an event may write, this project's own.

ghost use Rattle.std.specs.Prelude.{◌≡◌, ◌<◌, ℕ, ◌⊎◌, IsTrue, ◌↔◌};
ghost use Rattle.kc_lattice.specs.Laws.{AllAlike};
ghost use Rattle.kc_frames.specs.ClobberSets.{ClobberSets};
ghost use Rattle.kc_frames.specs.Clobber.{IsClobber, HasStack, HasWord, nothing_written, clobber_below, clobber_joined, clobber_top, clobber_rank, with_stack, with_word};
ghost use Rattle.kc_frames.specs.ClobberLaws.{clobber_laws};

use kc_lattice::Domain;
use std::marker::Model;

const ALL_STACKS: u32 = 0xFFFF;

const ALL_WORDS: u64 = 0xFF_FFFF_FFFF;

/// The stacks and the tracked words that may be written.
#[derive(Clone, Copy, PartialEq, Eq, Debug)]
pub struct Clobber {
    /// Bit s is stack s. Below 2^16.
    pub stacks: u32,
    /// Bits 0 to 7 are the TSS's words and 8 to 39 the configuration's, as slots number them. Below
    /// 2^40.
    pub words: u64,
}

impl Model for Clobber {
    ghost use Rattle.std.specs.Prelude.{◌<◌, ◌^◌};
    ghost use Rattle.kc_frames.specs.ClobberSets.{ClobberSets};

    ghost Value = { ClobberSets };

    ghost view = { λ c. record { stacks = c.stacks; words = c.words } };

    ghost invariant = { λ c. (c.stacks < 2 ^ 16) × (c.words < 2 ^ 40) };

    ghost inverse = { λ c. record { stacks = c.stacks; words = c.words } };
}

impl Clobber {
    /// Nothing is written.
    pub fn none() -> Clobber
        ensures value { result ≡ nothing_written }
    {
        Clobber {
            stacks: 0,
            words: 0,
        }
    }

    /// Whether stack `s` may be written.
    pub fn has_stack(&self, s: u8) -> bool
        requires { s < 16 }
        ensures value { IsTrue result ↔ HasStack self.now s }
    {
        (self.stacks >> s) & 1 == 1
    }

    /// Whether word `w`, a TSS or a tracked word by its slot's number, may be written.
    pub fn has_word(&self, w: u16) -> bool
        requires { w < 40 }
        ensures value { IsTrue result ↔ HasWord self.now w }
    {
        (self.words >> w) & 1 == 1
    }

    /// Adds stack `s`.
    pub fn add_stack(&mut self, s: u8)
        requires { s < 16 }
        ensures value { self.new ≡ with_stack self.old s }
        ensures stacks { (t : ℕ) → HasStack self.new t ↔ (HasStack self.old t ⊎ (t ≡ s)) }
    {
        self.stacks |= 1 << s;
    }

    /// Adds word `w`.
    pub fn add_word(&mut self, w: u16)
        requires { w < 40 }
        ensures value { self.new ≡ with_word self.old w }
        ensures words { (v : ℕ) → HasWord self.new v ↔ (HasWord self.old v ⊎ (v ≡ w)) }
    {
        self.words |= 1 << w;
    }
}

impl Domain for Clobber {
    ghost valid = { IsClobber };

    ghost alike = { AllAlike };

    ghost below = { clobber_below };

    ghost joined = { clobber_joined };

    ghost top_of = { λ x. clobber_top };

    ghost rank = { clobber_rank };

    ghost laws = { clobber_laws };

    fn leq(&self, other: &Clobber) -> bool {
        other.stacks & self.stacks == self.stacks && other.words & self.words == self.words
    }

    fn join(&mut self, other: &Clobber) {
        self.stacks |= other.stacks;
        self.words |= other.words;
    }

    fn is_top(&self) -> bool {
        self.stacks == ALL_STACKS && self.words == ALL_WORDS
    }

    fn set_top(&mut self) {
        self.stacks = ALL_STACKS;
        self.words = ALL_WORDS;
    }

    fn tell(&self) {
        let _stacks = self.stacks;
        let _words = self.words;
    }
}
