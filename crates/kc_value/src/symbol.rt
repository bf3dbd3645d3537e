//! The symbols of values, this project's own.

ghost use Rattle.std.specs.Prelude.{◌≡◌, IsTrue, ◌↔◌};
ghost use Rattle.kc_value.specs.Symbol.{IsSym, is_same_sym, is_sym_below, sym_joined, Names};

use crate::env::ValueEnv;

/// What a value is known to be, beside its bits.
#[derive(Clone, Copy, PartialEq, Eq, Debug)]
pub enum Sym {
    /// Nothing more.
    Plain,
    /// The newest activation's base plus this offset, modulo 2^64.
    Base(i64),
    /// This word of the interrupted processor: 0 to 15 are its registers by their numbers, then
    /// RIP, RFLAGS, CS and SS. A `Value` keeps it below 20.
    Entry(u8),
    /// The active GS base of the processor that the chain's oldest activation interrupted.
    UserGs,
}

impl Sym {
    fn is_same(self, other: Sym) -> bool
        ensures { result ≡ is_same_sym self other }
    {
        match (self, other) {
            (Sym::Plain, Sym::Plain) | (Sym::UserGs, Sym::UserGs) => true,
            (Sym::Base(k), Sym::Base(l)) => k == l,
            (Sym::Entry(v), Sym::Entry(w)) => v == w,
            _ => false,
        }
    }

    pub(crate) fn is_below(self, other: Sym) -> bool
        ensures { result ≡ is_sym_below self other }
    {
        match other {
            Sym::Plain => true,
            _ => self.is_same(other),
        }
    }

    pub(crate) fn joined(self, other: Sym) -> Sym
        ensures { result ≡ sym_joined self other }
    {
        if self.is_same(other) {
            self
        } else {
            Sym::Plain
        }
    }

    pub(crate) fn names(self, env: &ValueEnv, n: u64) -> bool
        requires { IsSym self }
        ensures { IsTrue result ↔ Names self env.now n }
    {
        match self {
            Sym::Plain => true,
            Sym::Base(k) => n == env.base.wrapping_add(k.cast_unsigned()),
            Sym::Entry(w) => n == env.words[w as usize],
            Sym::UserGs => n == env.user_gs,
        }
    }
}
