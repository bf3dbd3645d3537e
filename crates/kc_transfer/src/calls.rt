//! What is known at the body of a handler after its call. This project's own.

ghost use Rattle.std.specs.Prelude.{◌≡◌, Some};
ghost use Rattle.kc_frames.specs.Slots.{redone};
ghost use Rattle.kc_regions.specs.declared.entry.Handler.{Handler as TheHandler};
ghost use Rattle.kc_state.specs.Calls.{moved_down, used, called_at, called};
ghost use Rattle.kc_state.specs.Places.{location_stack};
ghost use Rattle.kc_state.specs.AbsStep.{with_call, entered};

use crate::edits::edit_frame;
use crate::handler_call::{frame_of, handler_at};
use kc_frames::Slots;
use kc_regions::{Config, Handler};
use kc_state::{AbsState, Key, Location, PartChange, SlotWords, Succ, loc, redo_parts, stack_at};
use kc_value::Value;

// `n` bytes below a location: addresses wrap, and offsets do as signed words.
fn moved_down(l: Location, n: u32) -> Location
    ensures { result ≡ moved_down l n }
{
    match l {
        Location::Number(a) => Location::Number(a.wrapping_sub(u64::from(n))),
        Location::Relative(k) => Location::Relative(k.wrapping_sub(i64::from(n))),
    }
}

// What a handler that uses `depth` bytes below `l`, which is RSP, may change.
#[derive(Drop)]
struct Used<'a> {
    words: SlotWords<'a>,
    stack: Option<u8>,
    l: Location,
    depth: u32,
    ghost its_stack: { stack ≡ location_stack words.cfg.now words.key.now (Some l) },
}

impl<'a> PartChange for Used<'a> {
    ghost changed = { λ u. used u.words.cfg.now u.words.key.now u.l u.depth };

    fn at(&self, i: u16, old: &Value) -> Value {
        let words = &self.words;
        let from = moved_down(self.l, self.depth);
        if words.hits(self.stack, from, self.depth, i) {
            Value::top()
        } else {
            *old
        }
    }

    fn keeps(&self, part: u16) -> bool {
        let words = &self.words;
        let from = moved_down(self.l, self.depth);
        words.misses(self.stack, from, self.depth, part)
    }

    fn keeps_block(&self, block: u16) -> bool {
        let words = &self.words;
        let from = moved_down(self.l, self.depth);
        words.misses_block(self.stack, from, self.depth, block)
    }
}

/// What a handler that uses `depth` bytes below `l`, which is RSP, leaves of the slots: those that it may
/// have changed become the top. It takes no memory.
pub fn use_stack(cfg: &Config, key: &Key, l: Location, depth: u32, slots: &mut Slots<Value>)
    ensures value { slots.new ≡ redone (used cfg.now key.now l depth) 0 slots.old }
{
    let used = Used {
        words: SlotWords::of(cfg, key),
        stack: stack_at(cfg, key, l),
        l,
        depth,
    };
    redo_parts(slots, &used);
}

fn enter_at(cfg: &Config, key: &Key, h: &Handler, s: &mut AbsState, at: Option<Location>)
    ensures { s.new ≡ called_at cfg.now key.now h.now s.old at }
{
    if let Some(l) = at {
        use_stack(cfg, key, l, h.stack, &mut s.slots);
        edit_frame(cfg, key, frame_of(key, h), l, s);
    }
}

/// What the call of the handler leaves of the state after the push: the slots that its stack may change,
/// and the words that it may edit. It takes no memory.
pub fn enter_handler(cfg: &Config, key: &Key, h: &Handler, s: &mut AbsState)
    ensures value { s.new ≡ called cfg.now key.now h.now s.old }
{
    let at = loc(key, &s.regs[4]);
    enter_at(cfg, key, h, s, at);
}

// At a call of a handler, the state at its body.
pub(crate) fn enter_called(cfg: &Config, key: &Key, succ: Succ, s: &mut AbsState)
    ensures { s.new ≡ with_call cfg.now key.now s.old succ }
{
    if let Succ::Calls(h) = succ {
        if let Some(handler) = handler_at(cfg, h) {
            enter_handler(cfg, key, &handler, s);
        }
    }
}
