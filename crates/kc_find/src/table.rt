//! The table of the rounds: what is known while the user runs, the contexts and the nodes. It knows what is demanded, and not
//! why: each demand is joined into it, and is read in the next round.

ghost use Rattle.std.specs.Prelude.{◌≡◌, ◌≤◌, ◌+◌, [], IfOk, OnOk, cond};
ghost use Rattle.kc_cert.specs.declared.certificate.TheConstants.{MAX_CONTEXTS, MAX_NODES};
ghost use Rattle.kc_find.specs.Rounds.{AreSettled, IsGrown, count, stood};
ghost use Rattle.kc_state.specs.User.{user_rank};

use crate::contexts::Contexts;
use crate::finder::FindEnd;
use crate::rows::Rows;
use indexmap::IndexSet;
use kc_cert::MAX_NODES;
use kc_frames::Clobber;
use kc_plain::NoMemory;
use kc_rising::{Cell, Rooms};
use kc_state::{AbsState, Key, Site, Summary, UserState};
use std::alloc::Global;
use std::marker::Model;

/// Where a node is: the number of its context, its address, and whether it is inside the handler that is called there.
pub(crate) type Position = (usize, u64, bool);

/// A node with the context that it is of.
#[derive(Clone, Copy, PartialEq, Eq, Debug)]
pub(crate) struct Here {
    pub node: usize,
    pub context: usize,
    pub site: Site,
    pub key: Key,
}

#[derive(Drop)]
pub(crate) struct Table {
    pub user: Cell<UserState>,
    pub contexts: Contexts,
    pub nodes: Rows<Position, AbsState>,
    user_rooms: Rooms<UserState>,
    /// A context with each node that enters it.
    entries: IndexSet<(usize, usize)>,
}

impl Model for Table {
    ghost use Rattle.std.specs.Prelude.{◌≤◌};
    ghost use Rattle.kc_cert.specs.declared.certificate.TheConstants.{MAX_NODES};
    ghost use Rattle.kc_find.specs.Rounds.{Rounds};

    ghost Value = { Rounds };

    ghost view = { λ t. record { user = t.user.value; contexts = t.contexts; nodes = t.nodes } };

    ghost invariant = { λ t. t.nodes.1 ≤ MAX_NODES };
}

impl Table {
    /// Of the user this is known, and there is no context and no node.
    pub(crate) fn new(alloc: Global, user: UserState) -> Table
        ensures settled { AreSettled result }
    {
        Table {
            user: Cell::new(user),
            contexts: Contexts::new(alloc),
            nodes: Rows::new(alloc),
            user_rooms: Rooms::new(alloc),
            entries: IndexSet::new(alloc),
        }
    }

    /// Where the node of this number is.
    pub(crate) fn here(&self, node: usize) -> Option<Here> {
        let (context, at, inside) = *self.nodes.key(node)?;
        let key = self.contexts.key(context)?;
        Some(Here {
            node,
            context,
            site: Site { at, inside },
            key,
        })
    }

    /// More is known while the user runs.
    pub(crate) fn want_user(&mut self, user: &UserState) -> Result<(), NoMemory>
        ensures same { self.new ≡ self.old }
    {
        self.user.raise(user, &mut self.user_rooms)?;
        Ok(())
    }

    /// There is a context of this key: its number.
    pub(crate) fn want_context(&mut self, key: &Key) -> Result<usize, FindEnd>
        ensures stood { stood self.new ≡ stood self.old }
        ensures grown { IsGrown self.old self.new }
    {
        self.contexts.want(key)
    }

    /// The context may write more.
    pub(crate) fn want_clobber(&mut self, context: usize, clobber: &Clobber) -> Result<(), NoMemory>
        ensures same { self.new ≡ self.old }
    {
        self.contexts.want_clobber(context, clobber)
    }

    /// More is known at a site of the context.
    pub(crate) fn want_node(
        &mut self,
        context: usize,
        site: &Site,
        state: &AbsState,
    ) -> Result<(), FindEnd>
        ensures stood { stood self.new ≡ stood self.old }
        ensures grown { IsGrown self.old self.new }
    {
        self.nodes
            .want((context, site.at, site.inside), state, MAX_NODES)?;
        Ok(())
    }

    /// More is known at the node of this number.
    pub(crate) fn raise_node(&mut self, node: usize, state: &AbsState) -> Result<(), NoMemory>
        ensures same { self.new ≡ self.old }
    {
        self.nodes.raise(node, state)
    }

    /// The node enters the context.
    pub(crate) fn note_entry(&mut self, context: usize, node: usize) -> Result<(), NoMemory>
        ensures same { self.new ≡ self.old }
    {
        if self.entries.insert((context, node))? {
            self.contexts.note_entry(context, node)?;
        }
        Ok(())
    }

    /// The summary of the context as it stood when the round began, if it returns.
    pub(crate) fn summary(&self, context: usize) -> Option<Summary> {
        self.contexts.summary(context)
    }

    /// Ends the round for what is known while the user runs: whether it changed.
    pub(crate) fn settle_user(&mut self) -> Result<bool, NoMemory>
        ensures contexts { self.new.contexts ≡ self.old.contexts }
        ensures nodes { self.new.nodes ≡ self.old.nodes }
        ensures rank { IfOk result (λ rose. user_rank self.new.user + cond rose 1 0 ≤ user_rank self.old.user) }
    {
        self.user.settle(&mut self.user_rooms)
    }

    /// How many contexts and nodes there are, with those that came in this round.
    pub(crate) fn count(&self) -> usize
        ensures count { result ≡ count self.now }
        ensures few { count self.now ≤ MAX_CONTEXTS + MAX_NODES }
    {
        self.contexts.len() + self.nodes.len()
    }

    /// What is known while the user runs, and the nodes.
    pub(crate) fn into_parts(self) -> (UserState, Rows<Position, AbsState>) {
        let Table {
            user,
            contexts: _contexts,
            nodes,
            user_rooms: _user_rooms,
            entries: _entries,
        } = self;
        (user.into_value(), nodes)
    }
}
