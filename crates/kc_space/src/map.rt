//! Which address space CR3 names, this project's own.

ghost use Rattle.std.specs.Prelude.{◌≡◌, IsTrue, ◌↔◌};
ghost use Rattle.kc_lattice.specs.Laws.{AllAlike};
ghost use Rattle.kc_shapes.specs.Flat.{AllValid};
ghost use Rattle.kc_space.specs.Spaces.{map_number, map_below, map_joined, map_rank, MapStands};
ghost use Rattle.kc_space.specs.SpacesLaws.{map_laws, map_grows};
ghost use Rattle.kc_space.specs.declared.map.MapState.TheVariants.{Any};

use crate::env::SpaceEnv;
use kc_lattice::{Domain, Meaning};

/// MapStatese GS base it is: the kernel's, that of the user whom the oldest activation interrupted, or
/// either or another one.
#[derive(Clone, Copy, PartialEq, Eq, Debug)]
pub enum MapState {
    Kernel,
    User,
    Any,
}

impl MapState {
    /// 0 for the kernel's, 1 for the user's, 2 for any: its number in a certificate.
    pub fn number(self) -> u8
        ensures value { result ≡ map_number self }
    {
        match self {
            MapState::Kernel => 0,
            MapState::User => 1,
            MapState::Any => 2,
        }
    }
}

impl Domain for MapState {
    ghost valid = { AllValid };

    ghost alike = { AllAlike };

    ghost below = { map_below };

    ghost joined = { map_joined };

    ghost top_of = { λ x. Any };

    ghost rank = { map_rank };

    ghost laws = { map_laws };

    fn leq(&self, other: &MapState) -> bool {
        *other == MapState::Any || self == other
    }

    fn join(&mut self, other: &MapState) {
        if *self != *other {
            *self = MapState::Any;
        }
    }

    fn is_top(&self) -> bool {
        *self == MapState::Any
    }

    fn set_top(&mut self) {
        *self = MapState::Any;
    }

    fn tell(&self) {}
}

impl Meaning for MapState {
    type Env = SpaceEnv;

    type Conc = u64;

    ghost holds = { MapStands };

    ghost grows = { λ x y e n hx hy h. map_grows x y e n h };

    fn stands(&self, env: &SpaceEnv, c: &u64) -> bool {
        match self {
            MapState::Kernel => *c == env.kernel,
            MapState::User => *c == env.user,
            MapState::Any => true,
        }
    }
}
