//! What a context may do while it runs, this project's own.

ghost use Rattle.std.specs.Prelude.{◌≡◌, IsTrue, ◌↔◌};
ghost use Rattle.kc_lattice.specs.Laws.{AllAlike};
ghost use Rattle.kc_state.specs.Summary.{IsSummary, summary_below, summary_joined, summary_top, summary_rank};
ghost use Rattle.kc_state.specs.SummaryLaws.{summary_laws};

use kc_frames::Clobber;
use kc_lattice::Domain;
use kc_space::Latches;

/// What a context may write until it returns, and the latches at its return.
#[derive(Clone, Copy, PartialEq, Eq, Debug)]
pub struct Summary {
    pub clobber: Clobber,
    pub latches: Latches,
}

impl Domain for Summary {
    ghost valid = { IsSummary };

    ghost alike = { AllAlike };

    ghost below = { summary_below };

    ghost joined = { summary_joined };

    ghost top_of = { λ x. summary_top };

    ghost rank = { summary_rank };

    ghost laws = { summary_laws };

    fn leq(&self, other: &Summary) -> bool {
        self.clobber.leq(&other.clobber) && self.latches.leq(&other.latches)
    }

    fn join(&mut self, other: &Summary) {
        self.clobber.join(&other.clobber);
        self.latches.join(&other.latches);
    }

    fn is_top(&self) -> bool {
        self.clobber.is_top() && self.latches.is_top()
    }

    fn set_top(&mut self) {
        self.clobber.set_top();
        self.latches.set_top();
    }

    fn tell(&self) {
        self.clobber.tell();
    }
}
