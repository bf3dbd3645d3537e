//! What is known after the return of an event. This project's own.

ghost use Rattle.std.specs.Prelude.{◌≡◌, ◌<◌, ◌%◌, ◌&&◌, not, get_or, Option};
ghost use Rattle.kc_regions.specs.Region.{stack_of};
ghost use Rattle.kc_value.specs.Made.{IsPlace};
ghost use Rattle.kc_value.specs.Value.{value_top};
ghost use Rattle.kc_state.specs.declared.key.Key.{Key as KeyValue};
ghost use Rattle.kc_state.specs.AbsEvents.{HasStack};
ghost use Rattle.kc_state.specs.Location.{location_of};
ghost use Rattle.kc_state.specs.Memory.{is_same_stack};
ghost use Rattle.kc_state.specs.State.{state_below};
ghost use Rattle.kc_state.specs.WellFormed.{IsStateWellFormed};
ghost use Rattle.kc_state.specs.AbsReturn.{is_clobbered, is_protected, is_offset_protected, loses_bytes, loses_word, loses, kept, returned};
ghost use Rattle.kc_absevent.specs.Covers.{CoversReturn};

use crate::covered::{Becomes, are_slots_covered};
use kc_frames::{Change, Clobber};
use kc_lattice::Domain;
use kc_regions::Config;
use kc_state::{AbsState, Key, Location, Scratch, Site, SlotWords, Summary, loc};
use kc_value::Value;

// RSP's number among the registers.
const RSP: usize = 4;

// Whether the stack may have been written.
fn is_clobbered(c: &Clobber, stack: Option<u8>) -> bool
    requires { IsPlace stack }
    ensures { result ≡ is_clobbered c.now stack }
{
    match stack {
        Some(s) => c.has_stack(s),
        None => false,
    }
}

fn is_same_stack(one: Option<u8>, other: Option<u8>) -> bool
    ensures { result ≡ is_same_stack one other }
{
    match (one, other) {
        (Some(s), Some(t)) => s == t,
        _ => false,
    }
}

// Whether the address `a`, which lies in this stack, is at or above RSP, a number in the same stack.
fn is_protected(cfg: &Config, rsp: Option<Location>, a: u64, stack: Option<u8>) -> bool
    ensures { result ≡ is_protected cfg.now rsp a stack }
{
    match rsp {
        Some(Location::Number(c)) => c <= a && is_same_stack(cfg.regions.stack_of(c), stack),
        Some(Location::Relative(_)) | None => false,
    }
}

// Whether the offset `j` is at or above RSP, an offset too.
fn is_offset_protected(rsp: Option<Location>, j: i64) -> bool
    ensures { result ≡ is_offset_protected rsp j }
{
    match rsp {
        Some(Location::Relative(k)) => k <= j,
        Some(Location::Number(_)) | None => false,
    }
}

// Whether the byte at `at`, of the word at `a`, may have changed.
#[tactic(auto, using(kc_state::proofs::StackLemmas::is_place))]
fn loses_byte(cfg: &Config, rsp: Option<Location>, c: &Clobber, a: u64, at: u64) -> bool
    ensures { result ≡ (is_clobbered c.now (stack_of cfg.now.regions at) && not
        (is_protected cfg.now rsp a (stack_of cfg.now.regions at))) }
{
    cfg.tell();
    let stack = cfg.regions.stack_of(at);
    is_clobbered(c, stack) && !is_protected(cfg, rsp, a, stack)
}

// A word at a multiple of 8 lies in one stack or in none, as its first byte does: stacks begin and end at
// multiples of 16.
#[tactic(auto, using(crate::proofs::WordLemmas::first_decides))]
fn loses_aligned(cfg: &Config, rsp: Option<Location>, c: &Clobber, a: u64) -> bool
    requires { a % 8 ≡ 0 }
    ensures { result ≡ loses_bytes cfg.now rsp c.now a a 8 }
{
    cfg.tell();
    loses_byte(cfg, rsp, c, a, a)
}

// Byte by byte.
#[tactic(auto, using(crate::proofs::ByteLemmas::loses_first, crate::proofs::ByteLemmas::loses_none))]
fn loses_one(cfg: &Config, rsp: Option<Location>, c: &Clobber, a: u64) -> bool
    ensures { result ≡ loses_bytes cfg.now rsp c.now a a 8 }
{
    let mut at = a;
    let mut left = 8u8;
    while left > 0 {
        if loses_byte(cfg, rsp, c, a, at) {
            return true;
        }
        at = at.wrapping_add(1);
        left -= 1;
    }
    false
}

fn loses_bytes(cfg: &Config, rsp: Option<Location>, c: &Clobber, a: u64) -> bool
    ensures { result ≡ loses_bytes cfg.now rsp c.now a a 8 }
{
    if a % 8 == 0 {
        loses_aligned(cfg, rsp, c, a)
    } else {
        loses_one(cfg, rsp, c, a)
    }
}

// Whether the word of a base or marked slot may have changed, where `home` says so of the key's stack.
fn loses_word(
    cfg: &Config,
    rsp: Option<Location>,
    c: &Clobber,
    home: bool,
    w: Option<Location>,
) -> bool
    ensures { (key : KeyValue) → home ≡ is_clobbered c.now key.stack → result ≡ loses_word cfg.now key rsp c.now w }
{
    match w {
        Some(Location::Number(a)) => loses_bytes(cfg, rsp, c, a),
        Some(Location::Relative(j)) => home && !is_offset_protected(rsp, j),
        None => false,
    }
}

#[derive(Drop)]
struct Kept<'a> {
    words: SlotWords<'a>,
    rsp: Option<Location>,
    clobber: Clobber,
    /// Whether the key's stack may have been written.
    home: bool,
    ghost its_home: { home ≡ is_clobbered clobber words.key.now.stack },
}

impl<'a> Kept<'a> {
    // Whether slot `i` may have changed.
    fn loses(&self, i: u16) -> bool
        requires { i < 296 }
        ensures { result ≡ loses self.now.words.cfg.now self.now.words.key.now self.now.rsp self.now.clobber i }
    {
        if i < 40 {
            self.clobber.has_word(i)
        } else {
            let words = &self.words;
            let w = words.at(i);
            loses_word(words.cfg, self.rsp, &self.clobber, self.home, w)
        }
    }
}

impl<'a> Change<Value> for Kept<'a> {
    ghost changed = { λ s. kept s.words.cfg.now s.words.key.now s.rsp s.clobber };

    fn at(&self, i: u16, old: &Value) -> Value {
        if self.loses(i) { Value::top() } else { *old }
    }

    // What isn't known stays unknown.
    #[tactic(auto, using(crate::proofs::ReturnForms::kept_top))]
    fn keeps(&self, _i: u16, old: &Value) -> bool {
        old.is_top()
    }
}

impl<'a> Becomes for Kept<'a> {
    ghost changed = { λ s. kept s.words.cfg.now s.words.key.now s.rsp s.clobber };

    // Most slots are the top, which is above whatever they become.
    #[tactic(auto, using(crate::proofs::ReturnForms::kept_below_top))]
    fn is_below(&self, i: u16, old: &Value, new: &Value) -> bool {
        old.tell();
        new.is_top() || self.at(i, old).leq(new)
    }

    #[tactic(auto, using(crate::proofs::ReturnForms::kept_top))]
    fn keeps_rest(&self, _i: u16, old: &Value) -> bool {
        old.is_top()
    }
}

// What slots with these words become over a return with this summary.
#[tactic(auto, using(kc_state::proofs::KeyLemmas::key_place))]
fn kept_by<'a>(words: SlotWords<'a>, state: &AbsState, summary: &Summary) -> Kept<'a>
    requires stack { HasStack words.cfg.now words.key.now }
    ensures cfg { result.words.cfg.now ≡ words.entry.cfg.now }
    ensures key { result.words.key.now ≡ words.entry.key.now }
    ensures rsp { result.rsp ≡ location_of words.entry.key.now (get_or state.now.regs 4 value_top) }
    ensures clobber { result.clobber ≡ summary.now.clobber }
{
    let key = words.key;
    words.cfg.tell();
    Kept {
        words,
        rsp: loc(key, &state.regs[RSP]),
        clobber: summary.clobber,
        home: is_clobbered(&summary.clobber, key.stack),
    }
}

// The state after the return.
fn put_back(cfg: &Config, key: &Key, state: &AbsState, summary: &Summary, back: &mut AbsState)
    requires stack { HasStack cfg.now key.now }
    ensures { back.new ≡ returned cfg.now key.now state.now summary.now }
{
    back.copy_from(state);
    back.latches = summary.latches;
    back.slots
        .redo(&kept_by(SlotWords::of(cfg, key), state, summary));
}

/// What is known at the site after an event's return, in `out.back`: the latches are those of the
/// summary of the context that ran, a tracked word that it may have written is unknown, and so is a word
/// in a stack that it may have written, but for those at or above RSP in the same stack. Where `state`
/// is well-formed, so is that. It takes no memory.
pub fn after_return(
    cfg: &Config,
    key: &Key,
    site: &Site,
    state: &AbsState,
    summary: &Summary,
    out: &mut Scratch,
)
    requires stack { HasStack cfg.now key.now }
    ensures value { out.new.back ≡ returned cfg.now key.now state.now summary.now }
    ensures out { out.new.out ≡ out.old.out }
    ensures well_formed { IsStateWellFormed cfg.now key.now state.now
        → IsStateWellFormed cfg.now key.now out.new.back }
    // Where the state describes the machine before the event, and is exact (C4), it describes it after the return.
    ensures covers { CoversReturn cfg.now key.now site.now state.now summary.now out.new.back }
{
    cfg.tell();
    state.tell();
    let _at = site;
    put_back(cfg, key, state, summary, &mut out.back);
}

/// Whether what is known at the site after an event's return is at or below what is known there before:
/// the latches of the summary, and each slot that the context may have written. It takes no memory.
#[tactic(auto, using(crate::proofs::ReturnForms::returned_below))]
pub fn is_state_kept(cfg: &Config, key: &Key, state: &AbsState, summary: &Summary) -> bool
    requires stack { HasStack cfg.now key.now }
    ensures value { result ≡ state_below (returned cfg.now key.now state.now summary.now) state.now }
{
    state.tell();
    let kept = kept_by(SlotWords::of(cfg, key), state, summary);
    summary.latches.leq(&state.latches) && are_slots_covered(&state.slots, &kept, &state.slots)
}
