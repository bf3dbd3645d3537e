//! What an instruction changes of what is known, as a record. This project's own.

ghost use Rattle.std.specs.Prelude.{◌≡◌};
ghost use Rattle.kc_state.specs.AbsEffect.{goes, falls};

use kc_space::Tri;
use kc_state::{AbsCpu, Location, Moment, Succ};
use kc_value::Value;
use std::marker::Model;

/// A store: the low bytes of `value`, as many as `size`, at a location, if it is known.
#[derive(Clone, Copy, PartialEq, Eq, Debug)]
pub struct Store {
    pub at: Option<Location>,
    pub size: u8,
    pub value: Value,
    /// Whether the active GS base went into the address.
    pub gs: bool,
}

impl Model for Store {
    ghost use Rattle.kc_state.specs.AbsEffect.{AbsStore};

    ghost Value = { AbsStore };

    ghost view = { λ s. record { at = s.at; size = s.size; value = s.value; gs = s.gs } };

    ghost inverse = { λ s. record { at = s.at; size = s.size; value = s.value; gs = s.gs } };
}

/// What an instruction leaves: of the processor, in memory, and where the program goes on.
#[derive(Clone, Copy, PartialEq, Eq, Debug)]
pub struct Changed {
    pub cpu: AbsCpu,
    pub store: Option<Store>,
    pub succ: Succ,
}

impl Model for Changed {
    ghost use Rattle.kc_state.specs.AbsEffect.{AbsChange};

    ghost Value = { AbsChange };

    ghost view = { λ c. record { cpu = c.cpu; store = c.store; succ = c.succ } };

    ghost inverse = { λ c. record { cpu = c.cpu; store = c.store; succ = c.succ } };
}

// The gap after an STI ends.
pub(crate) fn go(m: &Moment, succ: Succ, cpu: &AbsCpu, store: Option<Store>) -> Changed
    ensures { result ≡ goes m.now succ cpu.now store }
{
    let mut cpu = *cpu;
    cpu.latches.shadow = Tri::No;
    Changed { cpu, store, succ }
}

// The next instruction follows.
pub(crate) fn go_on(m: &Moment, cpu: &AbsCpu, store: Option<Store>) -> Changed
    ensures { result ≡ falls m.now cpu.now store }
{
    go(m, Succ::Falls, cpu, store)
}
