//! Whose GS base a register holds, this project's own.

ghost use Rattle.std.specs.Prelude.{◌≡◌, IsTrue, ◌↔◌};
ghost use Rattle.kc_lattice.specs.Laws.{AllAlike};
ghost use Rattle.kc_shapes.specs.Flat.{AllValid};
ghost use Rattle.kc_space.specs.Spaces.{who_number, who_below, who_joined, who_rank, WhoStands};
ghost use Rattle.kc_space.specs.SpacesLaws.{who_laws, who_grows};
ghost use Rattle.kc_space.specs.declared.who.Who.TheVariants.{Any};

use crate::env::SpaceEnv;
use kc_lattice::{Domain, Meaning};

/// Whose GS base it is: the kernel's, that of the user whom the oldest activation interrupted, or
/// either or another one.
#[derive(Clone, Copy, PartialEq, Eq, Debug)]
pub enum Who {
    Kernel,
    User,
    Any,
}

impl Who {
    /// 0 for the kernel's, 1 for the user's, 2 for any: its number in a certificate.
    pub fn number(self) -> u8
        ensures value { result ≡ who_number self }
    {
        match self {
            Who::Kernel => 0,
            Who::User => 1,
            Who::Any => 2,
        }
    }
}

impl Domain for Who {
    ghost valid = { AllValid };

    ghost alike = { AllAlike };

    ghost below = { who_below };

    ghost joined = { who_joined };

    ghost top_of = { λ x. Any };

    ghost rank = { who_rank };

    ghost laws = { who_laws };

    fn leq(&self, other: &Who) -> bool {
        *other == Who::Any || self == other
    }

    fn join(&mut self, other: &Who) {
        if *self != *other {
            *self = Who::Any;
        }
    }

    fn is_top(&self) -> bool {
        *self == Who::Any
    }

    fn set_top(&mut self) {
        *self = Who::Any;
    }

    fn tell(&self) {}
}

impl Meaning for Who {
    type Env = SpaceEnv;

    type Conc = u64;

    ghost holds = { WhoStands };

    ghost grows = { λ x y e n hx hy h. who_grows x y e n h };

    fn stands(&self, env: &SpaceEnv, c: &u64) -> bool {
        match self {
            Who::Kernel => *c == env.kernel,
            Who::User => *c == env.user,
            Who::Any => true,
        }
    }
}
