//! The nodes that were read so far.

ghost use Rattle.std.specs.Prelude.{◌≡◌, ◌+◌, ◌-◌, ◌<◌, ◌≤◌, [], ◌∷◌, ◌++◌, length, slice_get, option_copied, OnOk, OnErr};
ghost use Rattle.kc_cert.specs.declared.certificate.TheConstants.{MAX_NODES};
ghost use Rattle.kc_certfmt.specs.Steps.{PushesNew};

use kc_cert::Node;
use kc_certform::{Found, Written};
use kc_plain::{Items, NoMemory};
use kc_state::AbsState;
use std::alloc::Global;
use std::marker::Model;

/// The nodes that were read so far, and which of them wrote their state. Contracts see the nodes and
/// the states that were written.
#[derive(Drop)]
pub struct NodeList {
    nodes: Items<Node>,
    written: Written,
}

impl Model for NodeList {
    ghost use Rattle.kc_certform.specs.Written.{IsWritten, written_states};
    ghost use Rattle.kc_certfmt.specs.Reading.{Nodes};

    ghost Value = { Nodes };

    ghost view = { λ l. record { nodes = l.nodes; written = written_states l.nodes l.written } };

    ghost invariant = { λ l. IsWritten l.nodes l.written };
}

/// Why a node wasn't added.
#[derive(Clone, Copy, PartialEq, Eq, Debug)]
pub enum PushEnd {
    /// Its state was written before.
    Known,
    /// Memory ran out.
    NoMemory,
}

impl From<NoMemory> for PushEnd {
    ghost use Rattle.std.specs.Prelude.{◌≡◌};
    ghost use Rattle.kc_certfmt.specs.declared.list.PushEnd.TheVariants.{NoMemory as OutOfMemory};

    ghost from_gives = { λ _ e. e ≡ OutOfMemory };

    fn from(_: NoMemory) -> PushEnd {
        PushEnd::NoMemory
    }
}

impl NodeList {
    /// No node. It takes no memory.
    pub fn new(alloc: Global) -> NodeList
        ensures empty { result ≡ record { nodes = []; written = [] } }
    {
        NodeList {
            nodes: Items::new(alloc),
            written: Written::new(alloc),
        }
    }

    /// The nodes.
    pub fn as_slice(&self) -> &[Node]
        ensures nodes { result.now ≡ self.now.nodes }
    {
        self.nodes.as_slice()
    }

    /// The state with this number among those written, counted from 1.
    pub fn written_state(&self, share: u32) -> Option<&AbsState>
        requires first { 0 < share }
        ensures state { option_copied result ≡ slice_get self.now.written (share - 1) }
    {
        if share > self.written.len() {
            return None;
        }
        let node = self.written.node(share);
        Some(&self.nodes.as_slice()[node as usize].state)
    }

    /// Adds a node whose state wasn't written with it. After `NoMemory` all is as before.
    pub fn push(&mut self, node: Node) -> Result<(), NoMemory>
        ensures added { OnOk result
            (self.new ≡ record { nodes = self.old.nodes ++ node ∷ []; written = self.old.written }) }
        ensures unchanged { OnErr result (self.new ≡ self.old) }
    {
        self.nodes.push(node)
    }

    /// Adds a node that wrote its state, where that wasn't written before. After an `Err` all is as
    /// before.
    pub fn push_new(&mut self, node: Node) -> Result<(), PushEnd>
        requires few { length self.old.nodes < MAX_NODES }
        ensures added { PushesNew self.old self.new node result }
    {
        match self.written.find(self.nodes.as_slice(), &node.state) {
            Found::At(_) => Err(PushEnd::Known),
            Found::Gap(gap) => {
                let number = self.nodes.len() as u32;
                self.nodes.push(node)?;
                if self.written.add(number, gap).is_err() {
                    self.nodes.pop();
                    return Err(PushEnd::NoMemory);
                }
                Ok(())
            }
        }
    }

    /// The nodes.
    pub fn into_items(self) -> Items<Node>
        ensures nodes { result ≡ self.nodes }
    {
        let NodeList { nodes, written: _ } = self;
        nodes
    }
}
