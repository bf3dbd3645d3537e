//! Both GS bases, this project's own.

ghost use Rattle.std.specs.Prelude.{◌≡◌, IsTrue, ◌↔◌};
ghost use Rattle.kc_lattice.specs.Laws.{AllAlike};
ghost use Rattle.kc_shapes.specs.Flat.{AllValid};
ghost use Rattle.kc_space.specs.Spaces.{gs_number, gs_below, gs_joined, gs_top, gs_rank};
ghost use Rattle.kc_space.specs.SpacesLaws.{gs_laws};

use crate::who::Who;
use kc_lattice::Domain;

/// Whose bases the active GS base and the inactive one, IA32_KERNEL_GS_BASE, are.
#[derive(Clone, Copy, PartialEq, Eq, Debug)]
pub struct GsPair {
    pub active: Who,
    pub inactive: Who,
}

impl GsPair {
    /// The number of the active one, and three times that of the inactive one: its number in a
    /// certificate.
    pub fn number(self) -> u8
        ensures value { result ≡ gs_number self }
    {
        self.active.number() + 3 * self.inactive.number()
    }
}

impl Domain for GsPair {
    ghost valid = { AllValid };

    ghost alike = { AllAlike };

    ghost below = { gs_below };

    ghost joined = { gs_joined };

    ghost top_of = { λ x. gs_top };

    ghost rank = { gs_rank };

    ghost laws = { gs_laws };

    fn leq(&self, other: &GsPair) -> bool {
        self.active.leq(&other.active) && self.inactive.leq(&other.inactive)
    }

    fn join(&mut self, other: &GsPair) {
        self.active.join(&other.active);
        self.inactive.join(&other.inactive);
    }

    fn is_top(&self) -> bool {
        self.active.is_top() && self.inactive.is_top()
    }

    fn set_top(&mut self) {
        self.active.set_top();
        self.inactive.set_top();
    }

    fn tell(&self) {}
}
