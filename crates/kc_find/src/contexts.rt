//! The contexts of the table: what each may write, the latches at its returns, and which nodes enter it.

ghost use Rattle.std.specs.Prelude.{◌≡◌, ◌≤◌, ◌+◌, ◌^◌, ◌<◌, [], OnOk, IfOk, cond, length, sum_by};
ghost use Rattle.kc_cert.specs.declared.certificate.TheConstants.{MAX_CONTEXTS};
ghost use Rattle.kc_find.specs.Rounds.{IsSettled};
ghost use Rattle.kc_frames.specs.Clobber.{clobber_rank};

use crate::finder::FindEnd;
use crate::rows::Rows;
use kc_cert::MAX_CONTEXTS;
use kc_frames::Clobber;
use kc_lattice::join_changed;
use kc_plain::NoMemory;
use kc_rising::Numbers;
use kc_space::{Latches, Tri};
use kc_state::{Key, Summary};
use std::alloc::Global;
use std::marker::Model;

/// What else there is of a context.
#[derive(Drop)]
struct Entered {
    key: Key,
    /// The latches at its returns, joined. None where it has none.
    latches: Option<Latches>,
    /// The numbers of the nodes of which an event has entered it.
    entered_by: Vec<usize>,
}

/// Contexts by the numbers of their keys.
#[derive(Drop)]
pub(crate) struct Contexts {
    alloc: Global,
    clobbers: Rows<[u64; 8], Clobber>,
    entered: Vec<Entered>,
}

impl Model for Contexts {
    ghost use Rattle.std.specs.Prelude.{◌≤◌, ℕ, List};
    ghost use Rattle.kc_cert.specs.declared.certificate.TheConstants.{MAX_CONTEXTS};
    ghost use Rattle.kc_frames.specs.ClobberSets.{ClobberSets};

    ghost Value = { List ClobberSets × ℕ };

    ghost view = { λ c. c.clobbers };

    ghost invariant = { λ c. c.clobbers.1 ≤ MAX_CONTEXTS };
}

/// A context as the certificate has it, and its number.
#[derive(Clone, Copy, Drop)]
pub(crate) struct Counted {
    pub number: usize,
    pub key: Key,
    pub summary: Summary,
}

impl Contexts {
    /// No context. It takes no memory.
    pub(crate) fn new(alloc: Global) -> Contexts
        ensures stood { result.0 ≡ [] }
        ensures count { result.1 ≡ 0 }
    {
        Contexts {
            alloc,
            clobbers: Rows::new(alloc),
            entered: Vec::new(alloc),
        }
    }

    /// How many there are, with those that came in this round.
    pub(crate) fn len(&self) -> usize
        ensures count { result ≡ self.now.1 }
        ensures few { self.now.1 ≤ MAX_CONTEXTS }
    {
        self.clobbers.len()
    }

    /// How many there were when the round began.
    pub(crate) fn stood(&self) -> usize
        ensures count { result ≡ length self.now.0 }
    {
        self.clobbers.stood()
    }

    /// The key of the context of this number.
    pub(crate) fn key(&self, number: usize) -> Option<Key> {
        match self.entered.get(number) {
            Some(entered) => Some(entered.key),
            None => None,
        }
    }

    /// The number of the context of this key, which is added with nothing written where it isn't there.
    pub(crate) fn want(&mut self, key: &Key) -> Result<usize, FindEnd>
        ensures stood { self.new.0 ≡ self.old.0 }
        ensures grown { self.old.1 ≤ self.new.1 }
    {
        let number = self
            .clobbers
            .want(key.numbers(), &Clobber::none(), MAX_CONTEXTS)?;
        if number == self.entered.len() {
            self.add(key)?;
        }
        Ok(number)
    }

    fn add(&mut self, key: &Key) -> Result<(), NoMemory>
        ensures { self.new ≡ self.old }
    {
        self.entered.push(Entered {
            key: *key,
            latches: None,
            entered_by: Vec::new(self.alloc),
        })?;
        Ok(())
    }

    /// Joins `clobber` into what the context may write.
    pub(crate) fn want_clobber(&mut self, number: usize, clobber: &Clobber) -> Result<(), NoMemory>
        ensures same { self.new ≡ self.old }
    {
        self.clobbers.raise(number, clobber)
    }

    /// The node enters the context.
    pub(crate) fn note_entry(&mut self, number: usize, node: usize) -> Result<(), NoMemory>
        ensures same { self.new ≡ self.old }
    {
        if let Some(entered) = self.entered.get_mut(number) {
            entered.entered_by.push(node)?;
        }
        Ok(())
    }

    /// The summary of the context as it stood when the round began, if it returns.
    pub(crate) fn summary(&self, number: usize) -> Option<Summary> {
        let latches = self.entered.get(number)?.latches?;
        let clobber = *self.clobbers.now(number)?;
        Some(Summary { clobber, latches })
    }

    /// Joins the latches at a return into those of the context: whether they changed, or are its first.
    pub(crate) fn count_return(&mut self, number: usize, latches: &Latches) -> bool
        ensures same { self.new ≡ self.old }
    {
        match self.entered.get_mut(number) {
            Some(entered) => entered.count_return(latches),
            None => false,
        }
    }

    /// Ends the round for what contexts may write: adds the numbers of those that changed or came, and tells whether one
    /// changed.
    pub(crate) fn settle(&mut self, changed: &mut Numbers) -> Result<bool, NoMemory>
        ensures count { OnOk result (self.new.1 ≡ self.old.1) }
        ensures few { self.new.1 ≤ self.old.1 }
        ensures settled { OnOk result (IsSettled self.new) }
        ensures rank { IsSettled self.old
            → IfOk result (λ rose. sum_by clobber_rank self.new.0 + cond rose 1 0 ≤ sum_by clobber_rank self.old.0) }
    {
        self.clobbers.settle(changed)
    }

    /// Adds the nodes that enter the context, where it returns.
    pub(crate) fn list_entering(
        &self,
        number: usize,
        listed: &mut Numbers,
    ) -> Result<(), NoMemory> {
        match self.entered.get(number) {
            Some(entered) => entered.list_entering(listed),
            None => Ok(()),
        }
    }

    /// The contexts with their summaries, in the order of their numbers; those of one that never returns have no latch.
    pub(crate) fn counted(&self) -> Result<Vec<Counted>, NoMemory> {
        let mut all = Vec::new(self.alloc);
        for number in 0..self.entered.len() {
            if let Some(counted) = self.counted_at(number) {
                all.push(counted)?;
            }
        }
        Ok(all)
    }

    fn counted_at(&self, number: usize) -> Option<Counted> {
        let entered = self.entered.get(number)?;
        let clobber = *self.clobbers.now(number)?;
        let latches = match entered.latches {
            Some(latches) => latches,
            None => NO_LATCHES,
        };
        Some(Counted {
            number,
            key: entered.key,
            summary: Summary { clobber, latches },
        })
    }
}

/// No latch is set.
const NO_LATCHES: Latches = Latches {
    nmi_blocked: Tri::No,
    shadow: Tri::No,
    mcip: Tri::No,
};

impl Entered {
    fn count_return(&mut self, latches: &Latches) -> bool {
        match &mut self.latches {
            Some(all) => join_changed(all, latches),
            None => {
                self.latches = Some(*latches);
                true
            }
        }
    }

    fn list_entering(&self, listed: &mut Numbers) -> Result<(), NoMemory> {
        if self.latches.is_some() {
            for node in self.entered_by.as_slice() {
                listed.add(*node)?;
            }
        }
        Ok(())
    }
}
