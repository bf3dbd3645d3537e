//! Spans of addresses, this project's own: a half-open range of the 64-bit address space.

ghost use Rattle.std.specs.Prelude.{IsTrue, ◌↔◌};
ghost use Rattle.kc_words.specs.Span.{Holds, Meets};

use std::marker::Model;

/// The addresses from `from` up to and without `to`, where `from <= to`; no address where the two
/// are equal. The byte at address 2^64 - 1 lies in no span.
#[derive(Clone, Copy, PartialEq, Eq, Debug)]
pub struct Span {
    pub from: u64,
    pub to: u64,
}

impl Model for Span {
    ghost use Rattle.std.specs.Prelude.{◌≤◌};
    ghost use Rattle.kc_words.specs.Range.{Range};

    ghost Value = { Range };

    ghost view = { λ s. record { from = s.from; to = s.to } };

    ghost invariant = { λ s. s.from ≤ s.to };

    ghost inverse = { λ r. record { from = r.from; to = r.to } };
}

impl Span {
    /// Whether `from <= a < to`.
    pub fn holds(&self, a: u64) -> bool
        ensures is { IsTrue result ↔ Holds self.now a }
    {
        self.from <= a && a < self.to
    }

    /// Whether some byte lies in both.
    pub fn meets(&self, other: &Span) -> bool
        ensures is { IsTrue result ↔ Meets self.now other.now }
    {
        self.from.max(other.from) < self.to.min(other.to)
    }
}
