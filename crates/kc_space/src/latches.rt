//! What is known of the latches, this project's own.

ghost use Rattle.std.specs.Prelude.{◌≡◌, IsTrue, ◌↔◌};
ghost use Rattle.kc_lattice.specs.Laws.{AllAlike};
ghost use Rattle.kc_shapes.specs.Flat.{AllValid};
ghost use Rattle.kc_space.specs.Latches.{latches_below, latches_joined, latches_top, latches_rank};
ghost use Rattle.kc_space.specs.LatchesLaws.{latches_laws};

use crate::tri::Tri;
use kc_lattice::Domain;

/// Whether NMIs are blocked, whether the gap after STI is open, and whether a machine check is in
/// progress.
#[derive(Clone, Copy, PartialEq, Eq, Debug)]
pub struct Latches {
    pub nmi_blocked: Tri,
    pub shadow: Tri,
    pub mcip: Tri,
}

impl Domain for Latches {
    ghost valid = { AllValid };

    ghost alike = { AllAlike };

    ghost below = { latches_below };

    ghost joined = { latches_joined };

    ghost top_of = { λ x. latches_top };

    ghost rank = { latches_rank };

    ghost laws = { latches_laws };

    fn leq(&self, other: &Latches) -> bool {
        self.nmi_blocked.leq(&other.nmi_blocked)
            && self.shadow.leq(&other.shadow)
            && self.mcip.leq(&other.mcip)
    }

    fn join(&mut self, other: &Latches) {
        self.nmi_blocked.join(&other.nmi_blocked);
        self.shadow.join(&other.shadow);
        self.mcip.join(&other.mcip);
    }

    fn is_top(&self) -> bool {
        self.nmi_blocked.is_top() && self.shadow.is_top() && self.mcip.is_top()
    }

    fn set_top(&mut self) {
        self.nmi_blocked.set_top();
        self.shadow.set_top();
        self.mcip.set_top();
    }

    fn tell(&self) {}
}
