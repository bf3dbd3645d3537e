//! Domains whose values are all of one shape, and of which room can be made ahead. This project's own.

ghost use Rattle.std.specs.Prelude.{◌≡◌};

use kc_frames::Clobber;
use kc_lattice::Domain;
use kc_plain::NoMemory;
use kc_state::{AbsState, UserState};
use std::alloc::Global;

/// A domain of one shape, whose values can be overwritten.
pub trait Kept: Domain {
    /// A value to be overwritten.
    fn room(alloc: Global) -> Result<Self, NoMemory>;

    /// Makes it equal to `other`. It takes no memory.
    fn overwrite(&mut self, other: &Self)
        ensures value { self.new ≡ other.now };

    // What each `impl` proves.
    ghost of_one_shape: { (x y : Self) → Self.Domain.alike x y };
}

impl Kept for AbsState {
    ghost of_one_shape = { λ x y. tt };

    fn room(alloc: Global) -> Result<AbsState, NoMemory> {
        AbsState::new(alloc)
    }

    fn overwrite(&mut self, other: &AbsState) {
        self.copy_from(other);
    }
}

impl Kept for UserState {
    ghost of_one_shape = { λ x y. tt };

    fn room(alloc: Global) -> Result<UserState, NoMemory> {
        UserState::new(alloc)
    }

    fn overwrite(&mut self, other: &UserState) {
        self.copy_from(other);
    }
}

impl Kept for Clobber {
    ghost of_one_shape = { λ x y. tt };

    fn room(_alloc: Global) -> Result<Clobber, NoMemory> {
        Ok(Clobber::none())
    }

    fn overwrite(&mut self, other: &Clobber) {
        *self = *other;
    }
}
