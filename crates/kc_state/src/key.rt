//! What a context is keyed by, this project's own.

ghost use Rattle.std.specs.Prelude.{◌≡◌, IsTrue, ◌↔◌};
ghost use Rattle.std.specs.Cmp.Lexicographic.{slice_cmp};
ghost use Rattle.std.specs.Ordering.{nat_cmp};
ghost use Rattle.kc_state.specs.Key.{key_numbers, IsKey};

use kc_space::{GsPair, MapState};
use std::cmp::Ordering;

/// An entry into the kernel and what it interrupts.
#[derive(Clone, Copy, PartialEq, Eq, Debug)]
pub struct Key {
    /// Whether it is entered by SYSCALL, and else by an event.
    pub syscall: bool,
    /// The event's vector; 0 for SYSCALL.
    pub vector: u8,
    /// Whether it interrupts the kernel, and else the user.
    pub kernel: bool,
    /// The GS pair of what is interrupted.
    pub gs: GsPair,
    /// The CR3 of what is interrupted.
    pub map: MapState,
    /// The stack that holds the interrupted RSP, if one does.
    pub stack: Option<u8>,
    /// The activation's base, where it is a constant.
    pub base: Option<u64>,
}

impl Key {
    /// The numbers of a certificate's key record: kind (0 for SYSCALL), vector, origin (0 for the
    /// user), GS pair, map, stack (255 for none), whether there is a base, and the base or 0.
    pub fn numbers(&self) -> [u64; 8]
        ensures value { result ≡ key_numbers self.now }
    {
        [
            if self.syscall { 0 } else { 1 },
            u64::from(self.vector),
            if self.kernel { 1 } else { 0 },
            u64::from(self.gs.number()),
            u64::from(self.map.number()),
            u64::from(self.stack.unwrap_or(255)),
            if self.base.is_some() { 1 } else { 0 },
            self.base.unwrap_or(0),
        ]
    }

    /// The order of keys: that of the lists of their numbers.
    pub fn order(&self, other: &Key) -> Ordering
        ensures value { result ≡ slice_cmp nat_cmp (key_numbers self.now) (key_numbers other.now) }
    {
        self.numbers().cmp(&other.numbers())
    }

    /// Whether the key keeps the rules of keys, where there are `stacks` stacks: SYSCALL has vector 0,
    /// the user as its origin and no base; the user's RSP lies in no stack; and a stack has a number
    /// below `stacks`.
    pub fn keeps_rules(&self, stacks: u8) -> bool
        ensures value { IsTrue result ↔ IsKey stacks self.now }
    {
        let by_kind = !self.syscall || self.vector == 0 && !self.kernel && self.base.is_none();
        let by_origin = self.kernel || self.stack.is_none();
        let by_stack = match self.stack {
            Some(s) => s < stacks,
            None => true,
        };
        by_kind && by_origin && by_stack
    }
}
