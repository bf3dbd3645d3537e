//! Lower bounds of a stack's live bytes, this project's own.

ghost use Rattle.std.specs.Prelude.{◌≡◌, Option, IsTrue, ◌↔◌};
ghost use Rattle.kc_lattice.specs.Laws.{AllAlike};
ghost use Rattle.kc_frames.specs.Floors.{IsFloor, floor_below, floor_joined, beside_base, floor_top, floor_rank, floor_number, FloorStands};
ghost use Rattle.kc_frames.specs.FloorsLaws.{floor_laws, floor_grows};

use kc_lattice::{Domain, Meaning};

/// A bound below which a stack has no live byte: an address, or the newest activation's base. At
/// `u64::MAX` the stack has no live byte at all.
#[derive(Clone, Copy, PartialEq, Eq, Debug)]
pub enum Floor {
    At(u64),
    Base,
}

impl Floor {
    /// The bound as an address, where `base` is the base, if it is known.
    pub fn number(self, base: Option<u64>) -> Option<u64>
        ensures value { result ≡ floor_number base self }
    {
        match self {
            Floor::At(a) => Some(a),
            Floor::Base => base,
        }
    }
}

// What lies above both the floor at `a` and the base.
fn beside_base(a: u64) -> Floor
    ensures { result ≡ beside_base a }
{
    if a == u64::MAX {
        Floor::Base
    } else {
        Floor::At(0)
    }
}

impl Domain for Floor {
    ghost valid = { IsFloor };

    ghost alike = { AllAlike };

    ghost below = { floor_below };

    ghost joined = { floor_joined };

    ghost top_of = { λ x. floor_top };

    ghost rank = { floor_rank };

    ghost laws = { floor_laws };

    fn leq(&self, other: &Floor) -> bool {
        match (*self, *other) {
            (Floor::At(a), Floor::At(b)) => b <= a,
            (Floor::At(a), Floor::Base) => a == u64::MAX,
            (Floor::Base, Floor::At(b)) => b == 0,
            (Floor::Base, Floor::Base) => true,
        }
    }

    fn join(&mut self, other: &Floor) {
        *self = match (*self, *other) {
            (Floor::At(a), Floor::At(b)) => Floor::At(a.min(b)),
            (Floor::At(a), Floor::Base) | (Floor::Base, Floor::At(a)) => beside_base(a),
            (Floor::Base, Floor::Base) => Floor::Base,
        };
    }

    fn is_top(&self) -> bool {
        *self == Floor::At(0)
    }

    fn set_top(&mut self) {
        *self = Floor::At(0);
    }

    fn tell(&self) {
        if let Floor::At(a) = *self {
            let _at = a;
        }
    }
}

impl Meaning for Floor {
    type Env = u64;

    type Conc = Option<u64>;

    ghost holds = { FloorStands };

    ghost grows = { λ x y base least hx hy h. floor_grows x y base least hx hy h };

    fn stands(&self, env: &u64, c: &Option<u64>) -> bool {
        match (*self, *c) {
            (_, None) => true,
            (Floor::At(a), Some(least)) => a != u64::MAX && a <= least,
            (Floor::Base, Some(least)) => *env <= least,
        }
    }
}
