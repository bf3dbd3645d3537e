//! Lists of accesses that take no memory. This project's own.

ghost use Rattle.std.specs.Prelude.{◌≡◌, ◌+◌, ◌<◌, ◌≤◌, [], ◌∷◌, ◌++◌, length};

use crate::access::Access;
use kc_regions::Touch;
use std::marker::Model;

/// The most accesses of a list.
pub const MAX_ACCESSES: usize = 16;

const NONE: Access = Access {
    at: 0,
    size: 0,
    touch: Touch::Read,
    gs: false,
};

/// At most `MAX_ACCESSES` accesses in their order. Contracts see the list.
#[derive(Debug, Drop)]
pub struct Log {
    items: [Access; MAX_ACCESSES],
    len: usize,
}

impl Model for Log {
    ghost use Rattle.std.specs.Prelude.{◌≤◌, List, take};
    ghost use Rattle.kc_exec.specs.declared.access.Access.{Access};

    ghost Value = { List Access };

    ghost view = { λ l. take l.len l.items };

    ghost invariant = { λ l. l.len ≤ 16 };
}

impl Log {
    /// The empty list.
    pub fn new() -> Log
        ensures list { result ≡ [] }
    {
        Log {
            items: [NONE; MAX_ACCESSES],
            len: 0,
        }
    }

    /// The list of this access alone.
    pub fn of(access: Access) -> Log
        ensures list { result ≡ access ∷ [] }
    {
        let mut log = Log::new();
        log.push(access);
        log
    }

    /// Empties the list.
    pub fn clear(&mut self)
        ensures list { self.new ≡ [] }
    {
        self.len = 0;
    }

    /// Appends the access.
    pub fn push(&mut self, access: Access)
        requires { length self.old < 16 }
        ensures list { self.new ≡ self.old ++ access ∷ [] }
    {
        self.items[self.len] = access;
        self.len += 1;
    }

    /// Appends the accesses of another list.
    pub fn append(&mut self, other: &Log)
        requires { length self.old + length other.now ≤ 16 }
        ensures list { self.new ≡ self.old ++ other.now }
    {
        for access in other.items() {
            self.push(*access);
        }
    }

    /// The accesses in their order.
    pub fn items(&self) -> &[Access]
        ensures items { result.now ≡ self.now }
        ensures few { length self.now ≤ 16 }
    {
        &self.items[..self.len]
    }
}
