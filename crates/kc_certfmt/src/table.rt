//! The part of a certificate that was read so far.

ghost use Rattle.std.specs.Prelude.{◌≡◌, ◌+◌, true};
ghost use Rattle.kc_certfields.specs.Reads.{ReadsOrEnds};
ghost use Rattle.kc_certfmt.specs.Reading.{certificate};
ghost use Rattle.kc_certfmt.specs.Resume.{start_at, context_more, node_count_more, more_at, is_whole, nodes_in};
ghost use Rattle.kc_certfmt.specs.Steps.{Becomes};
ghost use Rattle.kc_certfmt.specs.declared.table.Left.TheVariants.{Contexts as ContextsLeft};

use crate::head::{Head, read_context, read_count, read_head};
use crate::list::NodeList;
use crate::nodes::add_node;
use kc_cert::{Certificate, Context, MAX_CONTEXTS, MAX_NODES};
use kc_certfields::{CertFault, CertKind, Input};
use kc_plain::Items;
use std::alloc::Global;
use std::marker::Model;

/// What is left to read of a certificate.
#[derive(Drop)]
pub enum Left {
    /// So many contexts, the count of nodes, and the nodes.
    Contexts(u32),
    /// So many nodes after these.
    Nodes(NodeList, u32),
}

/// The part of a certificate that was read so far, from the count of contexts on.
#[derive(Drop)]
pub struct Table {
    head: Head,
    contexts: Items<Context>,
    left: Left,
}

impl Model for Table {
    ghost use Rattle.kc_certfmt.specs.Resume.{Part, IsTable};

    ghost Value = { Part };

    ghost view = { λ t. record { head = t.head; contexts = t.contexts; left = t.left } };

    ghost invariant = { λ t. IsTable t.head t.contexts t.left };
}

impl Table {
    /// Reads what stands before the first context.
    #[tactic(auto, unfolding(crate::specs::Resume::start_at))]
    pub fn read(alloc: Global, input: &mut Input<'_>) -> Result<Table, CertFault>
        ensures read { ReadsOrEnds (λ x. x) start_at input.old result input.new }
    {
        let head = read_head(alloc, input)?;
        let count = read_count(input, MAX_CONTEXTS as u32)?;
        Ok(Table {
            head,
            contexts: Items::new(alloc),
            left: Left::Contexts(count),
        })
    }

    /// Whether no context and no node is left.
    pub fn is_whole(&self) -> bool
        ensures value { result ≡ is_whole self.now.left }
    {
        match &self.left {
            Left::Contexts(_) => false,
            Left::Nodes(_, left) => *left == 0,
        }
    }

    // Reads the next context, after which so many are left.
    #[tactic(auto, unfolding(crate::specs::Resume::context_more))]
    fn read_context(&mut self, input: &mut Input<'_>, left: u32) -> Result<(), CertFault>
        requires next { self.old.left ≡ ContextsLeft (left + 1) }
        ensures read { Becomes (context_more self.old left) input.old self.old result self.new input.new }
    {
        let context = read_context(input, self.head.stacks, self.contexts.as_slice())?;
        self.contexts.push(context)?;
        self.left = Left::Contexts(left);
        Ok(())
    }

    // Reads the count of nodes.
    #[tactic(auto, unfolding(crate::specs::Resume::node_count_more))]
    fn read_node_count(&mut self, alloc: Global, input: &mut Input<'_>) -> Result<(), CertFault>
        ensures read { Becomes (node_count_more self.old) input.old self.old result self.new input.new }
    {
        let count = read_count(input, MAX_NODES as u32)?;
        self.left = Left::Nodes(NodeList::new(alloc), count);
        Ok(())
    }

    /// Reads the next context, the count of nodes, or the next node.
    #[tactic(auto, unfolding(crate::specs::Resume::node_more))]
    pub fn read_part(&mut self, alloc: Global, input: &mut Input<'_>) -> Result<(), CertFault>
        ensures read { Becomes (more_at self.old) input.old self.old result self.new input.new }
    {
        match &mut self.left {
            Left::Contexts(0) => self.read_node_count(alloc, input),
            Left::Contexts(left) => {
                let left = *left - 1;
                self.read_context(input, left)
            }
            Left::Nodes(_, 0) => Err(CertFault {
                kind: CertKind::Trailing,
                at: input.at(),
            }),
            Left::Nodes(nodes, left) => {
                let contexts = self.contexts.len() as u32;
                add_node(alloc, input, nodes, &self.head, contexts)?;
                *left -= 1;
                Ok(())
            }
        }
    }

    /// The certificate.
    pub fn into_certificate(self) -> Certificate
        requires whole { is_whole self.left ≡ true }
        ensures value { result ≡ certificate self.head self.contexts (nodes_in self.left) }
    {
        let Table {
            head: Head {
                version: _,
                digests,
                stacks,
                user,
            },
            contexts,
            left,
        } = self;
        match left {
            Left::Contexts(_) => unreachable!(),
            Left::Nodes(nodes, _) => Certificate {
                digests,
                user,
                stacks,
                contexts,
                nodes: nodes.into_items(),
            },
        }
    }
}
