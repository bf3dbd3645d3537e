//! Where the words of the slots lie in a context, with the marked stacks looked up once. This project's
//! own.

ghost use Rattle.std.specs.Prelude.{◌≡◌, ◌<◌, ◌≤◌, ◌+◌, ◌-◌, ◌*◌, ◌^◌, true, false, List, ◌∷◌, length, set, Some, nat_le};
ghost use Rattle.kc_regions.specs.Region.{is_stack};
ghost use Rattle.kc_regions.specs.declared.region.Region.{Region as TheRegion};
ghost use Rattle.kc_state.specs.declared.slot_words.Mark.{Mark as TheMark};
ghost use Rattle.kc_state.specs.Marks.{mark_in, marks_of, with_marks};
ghost use Rattle.kc_state.specs.MarkWalk.{marks_left};
ghost use Rattle.kc_state.specs.Memory.{is_marked_slot, hits};
ghost use Rattle.kc_state.specs.PartSteps.{hits_stack, AreApart, IsApartFrom, IsApart, IsMissedFrom, IsMissed};
ghost use Rattle.kc_state.specs.Places.{marked_word, word_of};

use crate::key::Key;
use crate::location::Location;
use crate::places::near_word;
use crate::slot::{is_same_stack, meets_word};
use kc_regions::{Config, Region};

/// A marked stack: where it ends, and its number.
#[derive(Clone, Copy)]
pub struct Mark {
    pub to: u64,
    pub stack: Option<u8>,
}

// Puts the mark at this place, if there is one, and says whether there is.
fn put(places: &mut [Option<Mark>], at: usize, mark: Mark) -> bool
    ensures put { result ≡ true → (places.new ≡ set places.old at (Some mark)) × (at < length places.old) }
    ensures full { result ≡ false → (places.new ≡ places.old) × (length places.old ≤ at) }
{
    if at < places.len() {
        places[at] = Some(mark);
        true
    } else {
        false
    }
}

// The marked stacks that a walk over the regions has found, and how many stacks it has passed.
#[derive(Drop)]
struct Found {
    marks: [Option<Mark>; 3],
    count: usize,
    stacks: u8,
}

impl Found {
    // Adds a mark, where there is room.
    #[tactic(auto, using(crate::proofs::MarkLemmas::add_full))]
    fn add(&mut self, mark: Mark)
        ensures stacks { self.new.stacks ≡ self.old.stacks }
        ensures marks { (more : List TheMark) → with_marks self.new.count self.new.marks more
            ≡ with_marks self.old.count self.old.marks (mark ∷ more) }
    {
        if put(&mut self.marks, self.count, mark) {
            self.count += 1;
        }
    }

    // Passes the next stack.
    fn pass_stack(&mut self, stack: &Region)
        requires kind { is_stack stack.now.kind ≡ true }
        requires room { self.old.stacks < 255 }
        ensures stacks { self.new.stacks ≡ self.old.stacks + 1 }
        ensures marks { (rest : List TheRegion) → marks_left self.new rest ≡ marks_left self.old (stack.now ∷ rest) }
    {
        let number = self.stacks;
        self.stacks += 1;
        if stack.marked {
            self.add(Mark {
                to: stack.span.to,
                stack: Some(number),
            });
        }
    }

    // Passes the next region.
    fn pass(&mut self, region: &Region)
        requires room { self.old.stacks < 255 }
        ensures stacks { self.new.stacks ≤ self.old.stacks + 1 }
        ensures marks { (rest : List TheRegion) → marks_left self.new rest ≡ marks_left self.old (region.now ∷ rest) }
    {
        if region.kind.is_stack() {
            self.pass_stack(region);
        }
    }
}

// The marked stacks, by one walk over the regions.
fn marks_of(cfg: &Config) -> [Option<Mark>; 3]
    ensures { result ≡ marks_of cfg.now }
{
    cfg.tell();
    let mut found = Found {
        marks: [None; 3],
        count: 0,
        stacks: 0,
    };
    let list = cfg.regions.list();
    for region in list {
        found.pass(region);
    }
    found.marks
}

/// The words of the slots in a context with this key.
#[derive(Drop)]
pub struct SlotWords<'a> {
    pub cfg: &'a Config,
    pub key: &'a Key,
    marks: [Option<Mark>; 3],
    ghost its_marks: { marks ≡ marks_of cfg.now },
}

impl<'a> SlotWords<'a> {
    /// Those of this description and key.
    pub fn of(cfg: &'a Config, key: &'a Key) -> SlotWords<'a>
        ensures cfg { result.cfg.now ≡ cfg.now }
        ensures key { result.key.now ≡ key.now }
    {
        SlotWords {
            cfg,
            key,
            marks: marks_of(cfg),
        }
    }

    #[tactic(auto, using(crate::proofs::MarkLemmas::one_mark))]
    fn mark(&self, m: u16) -> Option<Mark>
        requires { m < 3 }
        ensures { result ≡ mark_in self.now.cfg.now m }
    {
        self.marks[usize::from(m)]
    }

    // The n-th word below the top of marked stack `m`.
    #[tactic(auto, using(crate::proofs::MarkLemmas::word_by))]
    fn below_top(&self, m: u16, n: u16) -> Option<Location>
        requires mark { m < 3 }
        requires word { n ≤ 64 }
        ensures { result ≡ marked_word self.now.cfg.now m n }
    {
        match self.mark(m) {
            Some(mark) => Some(Location::Number(mark.to.wrapping_sub(8 * u64::from(n)))),
            None => None,
        }
    }

    /// The word of slot `i`; none where the slot stands for no word.
    pub fn at(&self, i: u16) -> Option<Location>
        requires { i < 296 }
        ensures value { result ≡ word_of self.now.cfg.now self.now.key.now i }
    {
        if i < 104 {
            near_word(self.cfg, self.key, i)
        } else {
            self.below_top((i - 104) / 64, (i - 104) % 64 + 1)
        }
    }

    #[tactic(auto, using(crate::proofs::MarkLemmas::holds_by))]
    fn is_marked_slot(&self, stack: Option<u8>, i: u16) -> bool
        requires { i < 296 }
        ensures { result ≡ is_marked_slot self.now.cfg.now stack i }
    {
        if i < 104 {
            return false;
        }
        match self.mark((i - 104) / 64) {
            Some(mark) => is_same_stack(mark.stack, stack),
            None => false,
        }
    }

    // What a change at `l`, in this stack, may change in slot `i`, wherever its word lies.
    fn hits_stack(&self, stack: Option<u8>, l: Location, i: u16) -> bool
        requires { i < 296 }
        ensures { result ≡ hits_stack self.now.cfg.now self.now.key.now stack l i }
    {
        let key = self.key;
        match l {
            Location::Number(_) => {
                key.base.is_none() && is_same_stack(stack, key.stack) && 40 <= i && i < 104
            }
            Location::Relative(_) => self.is_marked_slot(key.stack, i),
        }
    }

    /// Whether a change of the `size` bytes at `l`, which belong to this stack, may change the word of
    /// slot `i`.
    pub fn hits(&self, stack: Option<u8>, l: Location, size: u32, i: u16) -> bool
        requires { i < 296 }
        ensures value { result ≡ hits self.now.cfg.now self.now.key.now stack l size i }
    {
        self.hits_at(stack, l, size, i, self.at(i))
    }

    // The same, where this is the word of slot `i`.
    #[tactic(auto, using(crate::proofs::ApartLemmas::hit_by))]
    pub(crate) fn hits_at(
        &self,
        stack: Option<u8>,
        l: Location,
        size: u32,
        i: u16,
        w: Option<Location>,
    ) -> bool
        requires slot { i < 296 }
        requires word { w ≡ word_of self.now.cfg.now self.now.key.now i }
        ensures value { result ≡ hits self.now.cfg.now self.now.key.now stack l size i }
    {
        meets_word(l, size, w) || self.hits_stack(stack, l, i)
    }

    // Whether part 1 to 4 has no tracked word, or part 0 to 4 no offset.
    fn is_near_apart(&self, l: Location, size: u32, part: u16) -> bool
        requires { part < 5 }
        ensures { result ≡ true → IsApart self.now.cfg.now self.now.key.now l size (8 * part) 8 }
    {
        let cfg = self.cfg;
        match l {
            Location::Relative(_) => true,
            Location::Number(_) => part != 0 && is_past_words(cfg, part),
        }
    }

    // Whether the bytes are known to meet none of the words of the part.
    pub(crate) fn is_apart(&self, l: Location, size: u32, part: u16) -> bool
        requires { part < 37 }
        ensures { result ≡ true → IsApart self.now.cfg.now self.now.key.now l size (8 * part) 8 }
    {
        if part < 5 {
            self.is_near_apart(l, size, part)
        } else {
            is_apart_from(l, size, self.at(8 * part + 7), 64)
        }
    }

    // Whether the bytes are known to meet none of the words of the 64 slots from 64 `block` + 40 on.
    pub(crate) fn is_block_apart(&self, l: Location, size: u32, block: u16) -> bool
        requires { block < 4 }
        ensures { result ≡ true → IsApart self.now.cfg.now self.now.key.now l size (64 * block + 40) 64 }
    {
        is_apart_from(l, size, self.at(64 * block + 103), 512)
    }

    /// Whether such a change is known to change no word of the slots from 8 `part` to 8 `part` + 7.
    pub fn misses(&self, stack: Option<u8>, l: Location, size: u32, part: u16) -> bool
        requires { part < 37 }
        ensures missed { result ≡ true → IsMissed self.now.cfg.now self.now.key.now stack l size part }
    {
        if self.hits_stack(stack, l, 8 * part) {
            return false;
        }
        self.is_apart(l, size, part)
    }

    /// Whether such a change is known to change no word of the 64 slots from 64 `block` + 40 on.
    pub fn misses_block(&self, stack: Option<u8>, l: Location, size: u32, block: u16) -> bool
        requires { block < 4 }
        ensures missed { result ≡ true
            → IsMissedFrom self.now.cfg.now self.now.key.now stack l size (64 * block + 40) 64 }
    {
        if self.hits_stack(stack, l, 64 * block + 40) {
            return false;
        }
        self.is_block_apart(l, size, block)
    }
}

// Whether the description has no word for the slots of the part.
fn is_past_words(cfg: &Config, part: u16) -> bool
    requires { (1 ≤ part) × (part < 5) }
    ensures { result ≡ nat_le (length cfg.now.words) (8 * part - 8) }
{
    cfg.words.len() <= usize::from(8 * part - 8)
}

// Whether the `size` bytes at `a` have none in common with the `n` bytes at `b`.
fn are_apart(a: u64, size: u32, b: u64, n: u64) -> bool
    ensures { result ≡ true → AreApart a size b n }
{
    n <= a.wrapping_sub(b) && u64::from(size) <= b.wrapping_sub(a)
}

// Whether the bytes at `l` have none in common with the `n` bytes from `low` on.
fn is_apart_from(l: Location, size: u32, low: Option<Location>, n: u64) -> bool
    ensures { result ≡ true → IsApartFrom l size low n }
{
    match (l, low) {
        (Location::Number(a), Some(Location::Number(b))) => are_apart(a, size, b, n),
        (Location::Relative(k), Some(Location::Relative(j))) => {
            are_apart(k.cast_unsigned(), size, j.cast_unsigned(), n)
        }
        _ => true,
    }
}

/// The word of slot `i` in a context with this key; none where the slot stands for no word.
pub fn word_of(cfg: &Config, key: &Key, i: u16) -> Option<Location>
    requires { i < 296 }
    ensures value { result ≡ word_of cfg.now key.now i }
{
    if i < 104 {
        near_word(cfg, key, i)
    } else {
        SlotWords::of(cfg, key).at(i)
    }
}
