//! A floor for each of the 16 stacks, this project's own.

ghost use Rattle.std.specs.Prelude.{◌≡◌, IsTrue, ◌↔◌};
ghost use Rattle.kc_lattice.specs.Laws.{AllAlike};
ghost use Rattle.kc_frames.specs.Floors.{AreFloors, floors_below, floors_joined, floors_top, floors_rank};
ghost use Rattle.kc_frames.specs.FloorsLaws.{floors_laws};

use crate::floor::Floor;
use kc_lattice::{Domain, is_top_each, join_each, leq_each, set_top_each, tell_each};

/// The floors of the stacks by their numbers.
#[derive(Clone, Copy, PartialEq, Eq, Debug)]
pub struct Floors {
    pub at: [Floor; 16],
}

impl Domain for Floors {
    ghost valid = { AreFloors };

    ghost alike = { AllAlike };

    ghost below = { floors_below };

    ghost joined = { floors_joined };

    ghost top_of = { floors_top };

    ghost rank = { floors_rank };

    ghost laws = { floors_laws };

    fn leq(&self, other: &Floors) -> bool {
        leq_each(&self.at, &other.at)
    }

    fn join(&mut self, other: &Floors) {
        join_each(&mut self.at, &other.at);
    }

    fn is_top(&self) -> bool {
        is_top_each(&self.at)
    }

    fn set_top(&mut self) {
        set_top_each(&mut self.at);
    }

    fn tell(&self) {
        tell_each(&self.at);
    }
}
