//! The states that were written in a certificate of version 2 so far.

ghost use Rattle.std.specs.Prelude.{◌≡◌, ◌+◌, ◌-◌, ◌^◌, ◌<◌, ◌≤◌, [], List, length, slice_get, slice_index_or, Some, OnOk, OnErr};
ghost use Rattle.kc_state.specs.declared.state.AbsState.{AbsState as StateValue};
ghost use Rattle.kc_cert.specs.Table.{IsFirstFrom};
ghost use Rattle.kc_certform.specs.Numbers.{state_order};
ghost use Rattle.kc_certform.specs.Written.{IsWritten, sorted_states};
ghost use Rattle.kc_certform.specs.Finds.{Finds, AddsNext};

use crate::order::order_states;
use kc_cert::Node;
use kc_plain::NoMemory;
use kc_state::AbsState;
use std::alloc::Global;
use std::cmp::Ordering;
use std::marker::Model;

/// The states written so far, by the numbers of the nodes that have them.
#[derive(Drop)]
pub struct Written {
    /// In the order in which they were written.
    nodes: Vec<u32>,
    /// Indexes into `nodes`, in the order of the states.
    sorted: Vec<u32>,
}

impl Model for Written {
    ghost use Rattle.std.specs.Prelude.{◌<◌, ◌^◌, length};
    ghost use Rattle.kc_certform.specs.Written.{WrittenNodes};

    ghost Value = { WrittenNodes };

    ghost view = { λ w. record { nodes = w.nodes.items; sorted = w.sorted.items } };

    ghost invariant = { λ w. length w.nodes.items < 2 ^ 32 };
}

/// Where a state is among those written.
pub enum Found {
    /// It is the one with this number, counted from 1.
    At(u32),
    /// It isn't there, and belongs at this index of the sorted ones.
    Gap(usize),
}

impl Written {
    /// No state. It takes no memory.
    pub fn new(alloc: Global) -> Written
        ensures empty { result ≡ record { nodes = []; sorted = [] } }
    {
        Written {
            nodes: Vec::new(alloc),
            sorted: Vec::new(alloc),
        }
    }

    /// How many there are.
    pub fn len(&self) -> u32
        ensures len { result ≡ length self.now.nodes }
    {
        self.nodes.len() as u32
    }

    /// The number of the node that has the state with this number, counted from 1.
    pub fn node(&self, share: u32) -> u32
        requires first { 0 < share }
        requires last { share ≤ length self.now.nodes }
        ensures number { slice_get self.now.nodes (share - 1) ≡ Some result }
    {
        self.nodes[share as usize - 1]
    }

    // How many sorted states there are.
    fn count(&self) -> usize
        ensures count { result ≡ length self.now.sorted }
    {
        self.sorted.len()
    }

    // The order of the sorted state at index `i` and this one.
    fn order_at(&self, nodes: &[Node], i: usize, state: &AbsState) -> Ordering
        requires written { IsWritten nodes.now self.now }
        requires within { i < length self.now.sorted }
        ensures order { (d : StateValue)
            → result ≡ state_order (slice_index_or (sorted_states nodes.now self.now) i d) state.now }
    {
        let node = self.nodes[self.sorted[i] as usize];
        order_states(&nodes[node as usize].state, state)
    }

    // The index of the first sorted state that isn't before this one, or how many there are.
    fn first_from(&self, nodes: &[Node], state: &AbsState) -> usize
        requires written { IsWritten nodes.now self.now }
        ensures first { IsFirstFrom state_order (sorted_states nodes.now self.now) state.now result }
    {
        let mut low = 0;
        let mut high = self.count();
        while low < high {
            let middle = low + (high - low) / 2;
            if self.order_at(nodes, middle, state).is_lt() {
                low = middle + 1;
            } else {
                high = middle;
            }
        }
        low
    }

    /// Finds a state among those that these nodes have written.
    pub fn find(&self, nodes: &[Node], state: &AbsState) -> Found
        requires written { IsWritten nodes.now self.now }
        ensures found { Finds nodes.now self.now state.now result }
    {
        let at = self.first_from(nodes, state);
        if at < self.count() && self.order_at(nodes, at, state).is_eq() {
            Found::At(self.sorted[at] + 1)
        } else {
            Found::Gap(at)
        }
    }

    /// Adds the state of the next node, which has this number, and which `find` didn't find and gave
    /// this gap. After `NoMemory` it is as before.
    pub fn add(&mut self, node: u32, gap: usize) -> Result<(), NoMemory>
        requires within { gap ≤ length self.old.sorted }
        requires few { length self.old.nodes + 1 < 2 ^ 32 }
        ensures added { OnOk result (AddsNext self.old self.new node gap) }
        ensures unchanged { OnErr result (self.new ≡ self.old) }
    {
        let index = self.len();
        self.nodes.reserve(1)?;
        self.sorted.insert(gap, index)?;
        self.nodes.push(node)?;
        Ok(())
    }
}
