//! Loads from and stores into the tracked words, this project's own.

ghost use Rattle.std.specs.Prelude.{◌≡◌, ◌≤◌, ◌<◌, ◌+◌, ◌*◌, ◌/◌, ◌^◌, Some};
ghost use Rattle.kc_words.specs.Flags.{bits_of};
ghost use Rattle.kc_frames.specs.Slots.{redone};
ghost use Rattle.kc_state.specs.Memory.{distance, offset_in, bits_from, part_of, loaded, is_below, meets, meets_word, is_same_stack, is_just, stored};
ghost use Rattle.kc_state.specs.PartSteps.{IsLoaded};
ghost use Rattle.kc_state.specs.Places.{location_stack};

use crate::key::Key;
use crate::location::Location;
use crate::parts::{PartChange, redo_parts};
use crate::places::stack_at;
use crate::shifts::derived;
use crate::slot_words::SlotWords;
use kc_bits::Bits;
use kc_frames::Slots;
use kc_regions::Config;
use kc_value::Value;
use kc_words::Width;

/// What is known of the bytes at `l`, as many as `width` has: by the least slot whose word holds them
/// all. The whole word is the slot's value, and a part of it has its bits alone; without a slot nothing
/// is known. The bits above them are 0.
pub fn load(cfg: &Config, key: &Key, slots: &Slots<Value>, l: Location, width: Width) -> Value
    ensures value { result ≡ loaded cfg.now key.now l (bits_of width / 8) slots.now }
{
    slots.whole();
    let words = SlotWords::of(cfg, key);
    if let Some(v) = load_parts(&words, slots, l, width, 0, 5) {
        return v;
    }
    for block in 0..4 {
        if let Some(v) = load_block(&words, slots, l, width, block) {
            return v;
        }
    }
    derived(cfg, &Bits { zeros: 0, ones: 0 }.cut(width))
}

// The same of the 64 slots from 64 `block` + 40 on; none where none of their words holds the bytes.
fn load_block(
    words: &SlotWords,
    slots: &Slots<Value>,
    l: Location,
    width: Width,
    block: u16,
) -> Option<Value>
    requires { block < 4 }
    ensures { IsLoaded words.now.cfg.now words.now.key.now l (bits_of width / 8) (64 * block + 40) (64 * block + 104)
        slots.now result }
{
    slots.whole();
    if words.is_block_apart(l, u32::from(size_of(width)), block) {
        return None;
    }
    load_parts(words, slots, l, width, 8 * block + 5, 8 * block + 13)
}

// The same of the parts from one up to another.
fn load_parts(
    words: &SlotWords,
    slots: &Slots<Value>,
    l: Location,
    width: Width,
    from: u16,
    to: u16,
) -> Option<Value>
    requires { (from ≤ to) × (to ≤ 37) }
    ensures { IsLoaded words.now.cfg.now words.now.key.now l (bits_of width / 8) (8 * from) (8 * to) slots.now result }
{
    for part in from..to {
        if let Some(v) = load_part(words, slots, l, width, part) {
            return Some(v);
        }
    }
    None
}

// The same of the eight slots of a part; none where none of their words holds the bytes.
fn load_part(
    words: &SlotWords,
    slots: &Slots<Value>,
    l: Location,
    width: Width,
    part: u16,
) -> Option<Value>
    requires { part < 37 }
    ensures { IsLoaded words.now.cfg.now words.now.key.now l (bits_of width / 8) (8 * part) (8 * part + 8)
        slots.now result }
{
    slots.whole();
    if words.is_apart(l, u32::from(size_of(width)), part) {
        return None;
    }
    find_in(words, slots, l, width, part)
}

// By the least slot of the part whose word holds the bytes.
fn find_in(
    words: &SlotWords,
    slots: &Slots<Value>,
    l: Location,
    width: Width,
    part: u16,
) -> Option<Value>
    requires { part < 37 }
    ensures { IsLoaded words.now.cfg.now words.now.key.now l (bits_of width / 8) (8 * part) (8 * part + 8)
        slots.now result }
{
    slots.whole();
    let size = size_of(width);
    for i in 8 * part..8 * part + 8 {
        if let Some(off) = offset_in(l, size, words.at(i)) {
            return Some(part_of(words.cfg, width, slots.get(i), off));
        }
    }
    None
}

fn size_of(width: Width) -> u8
    ensures { result ≡ bits_of width / 8 }
{
    match width {
        Width::Byte => 1,
        Width::Long => 4,
        Width::Quad => 8,
    }
}

// How far `l` is above `w`, of the same kind.
fn distance(l: Location, w: Location) -> Option<u64>
    ensures { result ≡ distance l w }
{
    match (l, w) {
        (Location::Number(a), Location::Number(b)) => Some(a.wrapping_sub(b)),
        (Location::Relative(k), Location::Relative(j)) => {
            Some(k.cast_unsigned().wrapping_sub(j.cast_unsigned()))
        }
        _ => None,
    }
}

fn offset_in(l: Location, size: u8, w: Option<Location>) -> Option<u8>
    requires { size ≤ 8 }
    ensures { result ≡ offset_in l size w }
{
    match distance(l, w?) {
        Some(off) if off <= u64::from(8 - size) => Some(off as u8),
        _ => None,
    }
}

fn part_of(cfg: &Config, width: Width, v: &Value, off: u8) -> Value
    requires { off < 8 }
    ensures { result ≡ part_of cfg.now (bits_of width / 8) v.now off }
{
    let bits = bits_from(&v.bits, off);
    match width {
        Width::Quad => *v,
        Width::Long => derived(cfg, &bits.cut(Width::Long)),
        Width::Byte => derived(cfg, &bits.cut(Width::Byte)),
    }
}

// The bits from byte `off` on, moved down.
fn bits_from(bits: &Bits, off: u8) -> Bits
    requires { off < 8 }
    ensures { result ≡ bits_from bits.now off }
{
    Bits {
        zeros: bits.zeros >> (8 * off),
        ones: bits.ones >> (8 * off),
    }
}

/// Stores `v` into `size` bytes at `l`: a slot with just these bytes takes `v`, where they are 8, and
/// each other one that they meet becomes the top. So do all slots of the base, where `l` is a number in
/// the stack of a key without a base, and those below the top of the key's stack, where `l` is an offset.
pub fn store(cfg: &Config, key: &Key, slots: &mut Slots<Value>, l: Location, size: u8, v: &Value)
    ensures value { slots.new ≡ redone (stored cfg.now key.now l size v.now) 0 slots.old }
{
    let stored = Stored {
        words: SlotWords::of(cfg, key),
        l,
        stack: stack_at(cfg, key, l),
        size,
        v: *v,
    };
    redo_parts(slots, &stored);
}

#[derive(Drop)]
struct Stored<'a> {
    words: SlotWords<'a>,
    l: Location,
    stack: Option<u8>,
    size: u8,
    v: Value,
    ghost its_stack: { stack ≡ location_stack words.cfg.now words.key.now (Some l) },
}

impl<'a> PartChange for Stored<'a> {
    ghost changed = { λ s. stored s.words.cfg.now s.words.key.now s.l s.size s.v };

    fn at(&self, i: u16, old: &Value) -> Value {
        let words = &self.words;
        let w = words.at(i);
        if is_just(self.l, self.size, w) {
            self.v
        } else if words.hits_at(self.stack, self.l, u32::from(self.size), i, w) {
            Value::top()
        } else {
            *old
        }
    }

    fn keeps(&self, part: u16) -> bool {
        let words = &self.words;
        words.misses(self.stack, self.l, u32::from(self.size), part)
    }

    fn keeps_block(&self, block: u16) -> bool {
        let words = &self.words;
        words.misses_block(self.stack, self.l, u32::from(self.size), block)
    }
}

/// Whether the `size` bytes at `l` are just this word.
pub fn is_just(l: Location, size: u8, w: Option<Location>) -> bool
    ensures value { result ≡ is_just l size w }
{
    match w {
        Some(w) => size == 8 && distance(l, w) == Some(0),
        None => false,
    }
}

/// Whether the `size` bytes at `l` have one in common with this word.
pub fn meets_word(l: Location, size: u32, w: Option<Location>) -> bool
    ensures value { result ≡ meets_word l size w }
{
    match w {
        Some(w) => meets(l, size, w),
        None => false,
    }
}

// Whether the bytes, if there are any, and those of the word have one in common.
fn meets(l: Location, size: u32, w: Location) -> bool
    ensures { result ≡ meets l size w }
{
    size != 0 && (is_within(distance(l, w), 8) || is_within(distance(w, l), size))
}

fn is_within(distance: Option<u64>, size: u32) -> bool
    ensures { result ≡ is_below size distance }
{
    match distance {
        Some(n) => n < u64::from(size),
        None => false,
    }
}

pub(crate) fn is_same_stack(one: Option<u8>, other: Option<u8>) -> bool
    ensures { result ≡ is_same_stack one other }
{
    match (one, other) {
        (Some(s), Some(t)) => s == t,
        _ => false,
    }
}
