//! The tracked memory words, this project's own.

ghost use Rattle.std.specs.Prelude.{◌≡◌, ◌<◌, ◌≤◌, ℕ, All, map, length, get_or, set, sum_by, IfOk, IsTrue, ◌↔◌, IfSome, ◌-◌, drop, replicate};
ghost use Rattle.std.specs.List.{AllZip};
ghost use Rattle.kc_lattice.specs.Rows.{rows_below, rows_joined};
ghost use Rattle.kc_frames.specs.Slots.{slot_count, every_slot, AreSlots, redone};
ghost use Rattle.kc_frames.specs.Padded.{padded};
ghost use Rattle.kc_frames.specs.SlotsLaws.{slots_laws};

use crate::first::{COUNT, First};
use crate::padding::{at, grow, is_same, join_first, join_rest, leq_padded, trim};
use crate::redo::{Change, redo_each};
use kc_lattice::{Domain, is_top_each, tell_each};
use kc_plain::NoMemory;
use std::alloc::Global;
use std::marker::Model;

/// What is known of each of the 296 tracked words: 0 is the TSS's RSP0 and 1 to 7 are IST1 to IST7,
/// 8 to 39 are the configuration's words, 40 to 103 those below the newest activation's base, from
/// base - 8 downwards, and 104 to 295 those below the tops of the marked stacks, 64 for each.
/// Contracts see them as their list. The first ones alone are kept, as many as were ever set to
/// another value than the rest have.
#[derive(Drop)]
pub struct Slots<V> {
    first: First<V>,
    rest: V,
}

impl<V> Model for Slots<V> {
    ghost use Rattle.std.specs.Prelude.{◌≤◌, List, length};
    ghost use Rattle.std.specs.Coded.{coded_list};
    ghost use Rattle.kc_frames.specs.Slots.{slot_count};
    ghost use Rattle.kc_frames.specs.Padded.{padded};

    ghost Value = { List V };

    ghost coded = { coded_list V.code };

    ghost view = { λ s. padded slot_count s.rest s.first };

    ghost invariant = { λ s. length s.first ≤ slot_count };
}

impl<V: Domain + Copy> Slots<V> {
    /// All slots `top`, which is the top.
    #[tactic(auto, unfolding(crate::specs::Slots::every_slot, crate::specs::Padded::padded))]
    pub fn new(alloc: Global, top: V) -> Result<Slots<V>, NoMemory>
        requires { V.top_of top ≡ top }
        ensures value { IfOk result (λ slots. slots ≡ every_slot top) }
    {
        let first = First::new(alloc)?;
        Ok(Slots { first, rest: top })
    }

    /// Does nothing, and tells a proof that there are 296 slots.
    pub fn whole(&self)
        ensures count { length self.now ≡ slot_count }
    {
        let _n = self.first.len();
    }

    /// Slot `i`.
    pub fn get(&self, i: u16) -> &V
        requires { i < slot_count }
        ensures value { (fallback : V) → result.now ≡ get_or self.now i fallback }
    {
        at(&self.first, &self.rest, usize::from(i))
    }

    /// Makes slot `i` `v`, and keeps the others. It takes no memory.
    pub fn set(&mut self, i: u16, v: V)
        requires { i < slot_count }
        ensures value { self.new ≡ set self.old i v }
    {
        let i = usize::from(i);
        if i < self.first.len() {
            self.first.set(i, v);
            return;
        }
        if is_same(&self.rest, &v) {
            return;
        }
        grow(&mut self.first, &self.rest, i + 1);
        self.first.set(i, v);
    }

    /// What all slots from `i` on are, where it is known that they are the same.
    pub fn rest_from(&self, i: u16) -> Option<&V>
        requires { i ≤ slot_count }
        ensures value { IfSome result (λ rest. drop i self.now ≡ replicate (slot_count - i) rest.now) }
    {
        if usize::from(i) < self.first.len() {
            None
        } else {
            Some(&self.rest)
        }
    }

    /// Makes each slot what `change` says. It takes no memory.
    pub fn redo<C: Change<V>>(&mut self, change: &C)
        ensures value { self.new ≡ redone (C.changed change.now) 0 self.old }
    {
        redo_each(self, change);
        trim(&mut self.first, &self.rest);
    }

    /// Makes each slot what it is in `other`. It takes no memory.
    pub fn copy_from(&mut self, other: &Slots<V>)
        ensures value { self.new ≡ other.now }
    {
        self.first.copy_from(&other.first);
        self.rest = other.rest;
    }
}

impl<V: Domain + Copy> Domain for Slots<V> {
    ghost valid = { AreSlots V.valid };

    ghost alike = { AllZip V.alike };

    ghost below = { rows_below V.below };

    ghost joined = { rows_joined V.joined };

    ghost top_of = { map V.top_of };

    ghost rank = { sum_by V.rank };

    ghost laws = { slots_laws V.laws };

    fn leq(&self, other: &Slots<V>) -> bool {
        leq_padded(&self.first, &self.rest, &other.first, &other.rest)
    }

    fn join(&mut self, other: &Slots<V>) {
        grow(&mut self.first, &self.rest, other.first.len());
        join_first(&mut self.first, &other.first, &other.rest);
        let kept = self.first.len();
        join_rest(&mut self.rest, &other.rest, kept);
        trim(&mut self.first, &self.rest);
    }

    fn is_top(&self) -> bool {
        is_top_each(self.first.as_slice()) && (self.first.len() == COUNT || self.rest.is_top())
    }

    fn set_top(&mut self) {
        self.first.set_top();
        self.rest.set_top();
        trim(&mut self.first, &self.rest);
    }

    fn tell(&self) {
        let _n = self.first.len();
        tell_each(self.first.as_slice());
        self.rest.tell();
    }
}
