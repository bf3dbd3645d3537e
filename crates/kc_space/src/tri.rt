//! What is known of one latch, this project's own.

ghost use Rattle.std.specs.Prelude.{◌≡◌, IsTrue, ◌↔◌};
ghost use Rattle.kc_lattice.specs.Laws.{AllAlike};
ghost use Rattle.kc_shapes.specs.Flat.{AllValid};
ghost use Rattle.kc_space.specs.Latches.{tri_number, tri_below, tri_joined, tri_rank, TriStands};
ghost use Rattle.kc_space.specs.LatchesLaws.{tri_laws, tri_grows};
ghost use Rattle.kc_space.specs.declared.tri.Tri.TheVariants.{Any};

use kc_lattice::{Domain, Meaning};

/// Whether a latch is set: no, yes, or unknown.
#[derive(Clone, Copy, PartialEq, Eq, Debug)]
pub enum Tri {
    No,
    Yes,
    Any,
}

impl Tri {
    /// 0 for no, 1 for yes, 2 for any: its number in a certificate.
    pub fn number(self) -> u8
        ensures value { result ≡ tri_number self }
    {
        match self {
            Tri::No => 0,
            Tri::Yes => 1,
            Tri::Any => 2,
        }
    }
}

impl Domain for Tri {
    ghost valid = { AllValid };

    ghost alike = { AllAlike };

    ghost below = { tri_below };

    ghost joined = { tri_joined };

    ghost top_of = { λ x. Any };

    ghost rank = { tri_rank };

    ghost laws = { tri_laws };

    fn leq(&self, other: &Tri) -> bool {
        *other == Tri::Any || self == other
    }

    fn join(&mut self, other: &Tri) {
        if *self != *other {
            *self = Tri::Any;
        }
    }

    fn is_top(&self) -> bool {
        *self == Tri::Any
    }

    fn set_top(&mut self) {
        *self = Tri::Any;
    }

    fn tell(&self) {}
}

impl Meaning for Tri {
    type Env = ();

    type Conc = bool;

    ghost holds = { λ x e set. TriStands x set };

    ghost grows = { λ x y e set hx hy h. tri_grows x y set h };

    fn stands(&self, _env: &(), c: &bool) -> bool {
        match self {
            Tri::No => !*c,
            Tri::Yes => *c,
            Tri::Any => true,
        }
    }
}
