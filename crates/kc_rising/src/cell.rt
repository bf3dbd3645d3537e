//! A value that rises by joins, as it stood when the round began and as the next round will have it.

ghost use Rattle.std.specs.Prelude.{◌≡◌, ◌<◌, ◌≤◌, ◌+◌, Option, None, Some, Bool, true, false, IfOk, OnOk, OnErr};
ghost use Rattle.std.specs.Prelude.{IfSome};
ghost use Rattle.std.specs.Prelude.{IsTrue, IsFalse, is_some, cond};
ghost use Rattle.std.proofs.Props.{props};
ghost use Rattle.kc_rising.specs.Values.{next_value};

use crate::kept::Kept;
use crate::rooms::Rooms;
use kc_lattice::{Domain, join_changed};
use kc_plain::NoMemory;
use std::mem::replace;

/// A value of the table of a round.
#[derive(Drop)]
pub struct Cell<D: Domain> {
    value: D,
    /// Where it was raised in this round, what it will be.
    next: Option<D>,
    ghost rises: { IfSome next (λ n. D.rank n < D.rank value) } by { Prim.hlevel props },
}

/// Joins `by` into the value, which covers it or falls in rank.
pub fn join_into<D: Kept>(value: &mut D, by: &D)
    ensures joined { value.new ≡ D.joined value.old by.now }
    ensures rank { D.rank value.new ≤ D.rank value.old }
{
    join_changed(value, by);
}

impl<D: Kept + Drop> Cell<D> {
    pub fn new(value: D) -> Cell<D>
        ensures value { result.value ≡ value }
        ensures next { result.next ≡ None }
    {
        Cell { value, next: None }
    }

    /// The value as it stood when the round began.
    pub fn now(&self) -> &D
        ensures value { result.now ≡ self.now.value }
    {
        &self.value
    }

    pub fn into_value(self) -> D
        ensures value { result ≡ self.value }
    {
        let Cell { value, next: _next } = self;
        value
    }

    /// Whether the value rises by `by` for the first time in this round.
    pub fn begins(&self, by: &D) -> bool
        ensures first { IsTrue result → (self.now.next ≡ None) × (D.below by.now self.now.value ≡ false) }
        ensures covered { IsFalse result → self.now.next ≡ None → D.below by.now self.now.value ≡ true }
    {
        self.next.is_none() && !by.leq(&self.value)
    }

    /// The value joined with `by`, which it doesn't cover.
    pub fn raised(&self, by: &D, rooms: &mut Rooms<D>) -> Result<D, NoMemory>
        requires open { D.below by.now self.now.value ≡ false }
        ensures joined { IfOk result (λ next. next ≡ D.joined self.now.value by.now) }
        ensures rank { IfOk result (λ next. D.rank next < D.rank self.now.value) }
    {
        by.tell();
        self.value.tell();
        let mut next = rooms.take()?;
        next.overwrite(&self.value);
        next.join(by);
        Ok(next)
    }

    /// From now on it will be `next`.
    pub fn begin(&mut self, next: D)
        requires rises { D.rank next < D.rank self.old.value }
        ensures value { self.new.value ≡ self.old.value }
        ensures next { self.new.next ≡ Some next }
    {
        self.next = Some(next);
    }

    /// Joins `by` into what it will be, where it has risen or covers `by`.
    pub fn raise_more(&mut self, by: &D)
        requires covered { self.old.next ≡ None → D.below by.now self.old.value ≡ true }
        ensures value { self.new.value ≡ self.old.value }
        ensures next { is_some self.new.next ≡ is_some self.old.next }
        ensures joined { next_value self.new.value self.new.next
            ≡ D.joined (next_value self.old.value self.old.next) by.now }
    {
        if let Some(next) = &mut self.next {
            join_into(next, by);
        } else {
            by.tell();
            self.value.tell();
        }
    }

    /// Joins `by` into what it will be.
    pub fn raise(&mut self, by: &D, rooms: &mut Rooms<D>) -> Result<(), NoMemory>
        ensures value { self.new.value ≡ self.old.value }
        ensures joined { OnOk result (next_value self.new.value self.new.next
            ≡ D.joined (next_value self.old.value self.old.next) by.now) }
        ensures unchanged { OnErr result (self.new ≡ self.old) }
    {
        if self.begins(by) {
            let next = self.raised(by, rooms)?;
            self.begin(next);
        } else {
            self.raise_more(by);
        }
        Ok(())
    }

    /// The next value becomes the present one: whether it rose.
    pub fn settle(&mut self, rooms: &mut Rooms<D>) -> Result<bool, NoMemory>
        ensures value { self.new.value ≡ next_value self.old.value self.old.next }
        ensures next { self.new.next ≡ None }
        ensures rose { IfOk result (λ rose. rose ≡ is_some self.old.next) }
        ensures rank { IfOk result (λ rose. D.rank self.new.value + cond rose 1 0 ≤ D.rank self.old.value) }
    {
        match self.next.take() {
            Some(next) => {
                rooms.give(replace(&mut self.value, next))?;
                Ok(true)
            }
            None => Ok(false),
        }
    }
}
