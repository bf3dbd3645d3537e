//! Values that rise by joins, by their keys. It knows no domain.

ghost use Rattle.std.specs.Prelude.{◌≡◌, ◌<◌, ◌≤◌, ◌+◌, ◌^◌, [], OnOk, IfOk, cond, length, sum_by};
ghost use Rattle.kc_find.specs.Rounds.{IsSettled};

use crate::finder::FindEnd;
use indexmap::IndexSet;
use kc_lattice::Domain;
use kc_plain::NoMemory;
use kc_rising::{Kept, Numbers, Rising};
use std::alloc::Global;
use std::hash::Hash;
use std::marker::Model;

/// Values by keys, numbered in the order in which they came.
#[derive(Drop)]
pub(crate) struct Rows<K: Eq + Hash, D: Domain> {
    keys: IndexSet<K>,
    values: Rising<D>,
}

impl<K: Eq + Hash, D: Domain> Model for Rows<K, D> {
    ghost use Rattle.std.specs.Prelude.{ℕ, List, length};
    ghost use Rattle.std.specs.Coded.{coded_list, coded_ℕ, coded×};

    ghost Value = { List D × ℕ };

    ghost coded = { coded× (coded_list D.code) coded_ℕ };

    ghost view = { λ r. (r.values.0, length r.values.1) };
}

impl<K: Eq + Hash + Drop, D: Kept + Drop> Rows<K, D> {
    /// No row yet. It takes no memory.
    pub(crate) fn new(alloc: Global) -> Rows<K, D>
        ensures stood { result.0 ≡ [] }
        ensures count { result.1 ≡ 0 }
    {
        Rows {
            keys: IndexSet::new(alloc),
            values: Rising::new(alloc),
        }
    }

    /// How many there are, with those that came in this round.
    pub(crate) fn len(&self) -> usize
        requires { self.now.1 < 2 ^ 32 }
        ensures count { result ≡ self.now.1 }
    {
        self.values.len()
    }

    /// How many there were when the round began.
    pub(crate) fn stood(&self) -> usize
        ensures count { result ≡ length self.now.0 }
    {
        self.values.stood()
    }

    pub(crate) fn key(&self, number: usize) -> Option<&K> {
        self.keys.get_index(number)
    }

    /// The value of this number as it stood when the round began.
    pub(crate) fn now(&self, number: usize) -> Option<&D> {
        self.values.now(number)
    }

    /// Joins `value` into that of the key, or adds it where there aren't `most` yet: its number.
    pub(crate) fn want(&mut self, key: K, value: &D, most: usize) -> Result<usize, FindEnd>
        ensures stood { self.new.0 ≡ self.old.0 }
        ensures grown { self.old.1 ≤ self.new.1 }
        ensures few { self.old.1 ≤ most → self.new.1 ≤ most }
    {
        match self.keys.get_index_of(&key) {
            Some(number) => {
                self.values.raise(number, value)?;
                Ok(number)
            }
            None => self.add(key, value, most),
        }
    }

    fn add(&mut self, key: K, value: &D, most: usize) -> Result<usize, FindEnd>
        ensures stood { self.new.0 ≡ self.old.0 }
        ensures grown { self.old.1 ≤ self.new.1 }
        ensures few { self.old.1 ≤ most → self.new.1 ≤ most }
    {
        let number = self.keys.len();
        if self.values.is_full(most) {
            return Err(FindEnd::TooMany);
        }
        self.values.add(value)?;
        self.insert(key)?;
        Ok(number)
    }

    fn insert(&mut self, key: K) -> Result<(), NoMemory>
        ensures { self.new ≡ self.old }
    {
        self.keys.insert(key)?;
        Ok(())
    }

    /// Joins `by` into the value of this number.
    pub(crate) fn raise(&mut self, number: usize, by: &D) -> Result<(), NoMemory>
        ensures same { self.new ≡ self.old }
    {
        self.values.raise(number, by)
    }

    /// Ends the round: adds the numbers of the values that changed or came, and tells whether one changed.
    pub(crate) fn settle(&mut self, changed: &mut Numbers) -> Result<bool, NoMemory>
        ensures count { OnOk result (self.new.1 ≡ self.old.1) }
        ensures few { self.new.1 ≤ self.old.1 }
        ensures settled { OnOk result (IsSettled self.new) }
        ensures rank { IsSettled self.old
            → IfOk result (λ rose. sum_by D.rank self.new.0 + cond rose 1 0 ≤ sum_by D.rank self.old.0) }
    {
        self.values.settle(changed)
    }

    /// The keys, and the values as they stood when the round began.
    pub(crate) fn into_parts(self) -> Result<(IndexSet<K>, Vec<D>), NoMemory> {
        let Rows { keys, values } = self;
        let values = values.into_values()?;
        Ok((keys, values))
    }
}
