//! The first ones of some slots, this project's own.

ghost use Rattle.std.specs.Prelude.{◌≡◌, ◌<◌, ◌≤◌, ◌-◌, ℕ, [], ◌∷◌, ◌++◌, length, take, map, get_or, set, IfOk};
ghost use Rattle.kc_frames.specs.Slots.{slot_count};

use kc_lattice::{Domain, set_top_each};
use kc_plain::NoMemory;
use std::alloc::Global;
use std::marker::Model;

/// How many slots there are.
pub(crate) const COUNT: usize = 296;

/// Up to 296 values, for which memory is taken once. Contracts see them as their list.
#[derive(Drop)]
pub(crate) struct First<V> {
    items: Vec<V>,
}

impl<V> Model for First<V> {
    ghost use Rattle.std.specs.Prelude.{◌≤◌, List, length};
    ghost use Rattle.std.specs.Coded.{coded_list};
    ghost use Rattle.std.specs.Vec.{vec_capacity};
    ghost use Rattle.kc_frames.specs.Slots.{slot_count};

    ghost Value = { List V };

    ghost coded = { coded_list V.code };

    ghost view = { λ f. f.items.items };

    ghost invariant = { λ f. (length f.items.items ≤ slot_count) × (slot_count ≤ vec_capacity f.items) };
}

impl<V: Copy> First<V> {
    /// No values, with room for 296.
    pub(crate) fn new(alloc: Global) -> Result<First<V>, NoMemory>
        ensures { IfOk result (λ first. first ≡ []) }
    {
        let items = Vec::with_capacity(alloc, COUNT)?;
        Ok(First { items })
    }

    /// How many there are.
    pub(crate) fn len(&self) -> usize
        ensures value { result ≡ length self.now }
        ensures bound { length self.now ≤ slot_count }
    {
        self.items.len()
    }

    /// All of them.
    pub(crate) fn as_slice(&self) -> &[V]
        ensures { result.now ≡ self.now }
    {
        &self.items
    }

    /// The one at `i`.
    pub(crate) fn get(&self, i: usize) -> &V
        requires { i < length self.now }
        ensures { (fallback : V) → result.now ≡ get_or self.now i fallback }
    {
        &self.items[i]
    }

    /// Makes the one at `i` `v`.
    pub(crate) fn set(&mut self, i: usize, v: V)
        requires { i < length self.old }
        ensures { self.new ≡ set self.old i v }
    {
        self.items[i] = v;
    }

    /// Puts `v` behind them. It takes no memory.
    pub(crate) fn push(&mut self, v: V)
        requires { length self.old < slot_count }
        ensures { self.new ≡ self.old ++ v ∷ [] }
    {
        let _ = self.items.push(v);
    }

    /// Takes the last one off.
    pub(crate) fn pop(&mut self)
        requires { 0 < length self.old }
        ensures { self.new ≡ take (length self.old - 1) self.old }
    {
        let n = self.items.len();
        self.items.truncate(n - 1);
    }

    /// Makes them those of `other`. It takes no memory.
    pub(crate) fn copy_from(&mut self, other: &First<V>)
        ensures { self.new ≡ other.now }
    {
        self.items.truncate(0);
        let _ = self.items.extend_from_slice(&other.items);
    }
}

impl<V: Domain + Copy> First<V> {
    /// Makes each the top of its shape.
    pub(crate) fn set_top(&mut self)
        ensures { self.new ≡ map V.top_of self.old }
    {
        set_top_each(&mut self.items);
    }
}
