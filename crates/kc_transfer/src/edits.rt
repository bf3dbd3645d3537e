//! What a handler that may edit the saved RIP, RFLAGS and RSP of the user leaves of what is known. This
//! project's own.

ghost use Rattle.std.specs.Prelude.{◌≡◌, ◌<◌, map};
ghost use Rattle.kc_state.specs.Calls.{edited_rip, edited_flags, edited_rsp, is_edited_word, is_edited_sym, tame, edited_by, edited, with_edits};
ghost use Rattle.kc_value.specs.Value.{value_joined};

use kc_bits::Bits;
use kc_frames::Change;
use kc_lattice::Domain;
use kc_regions::Config;
use kc_state::{AbsState, Key, Location, SlotWords, is_just, meets_word, moved_up};
use kc_value::{Sym, Value};

// RIP below 2^47.
fn edited_rip() -> Value
    ensures { result ≡ edited_rip }
{
    Value {
        sym: Sym::Entry(16),
        bits: Bits {
            zeros: 0xFFFF_8000_0000_0000,
            ones: 0,
        },
        stacks: 0x1_FFFF,
    }
}

// RFLAGS in the model's mask, with IF and bit 1.
fn edited_flags() -> Value
    ensures { result ≡ edited_flags }
{
    Value {
        sym: Sym::Entry(17),
        bits: Bits {
            zeros: !0x24_0FD7,
            ones: 0x202,
        },
        stacks: 0x1_FFFF,
    }
}

// RSP in no stack.
fn edited_rsp() -> Value
    ensures { result ≡ edited_rsp }
{
    Value {
        sym: Sym::Entry(4),
        bits: Bits { zeros: 0, ones: 0 },
        stacks: 0x1_0000,
    }
}

fn is_edited_sym(sym: Sym) -> bool
    ensures { result ≡ is_edited_sym sym }
{
    match sym {
        Sym::Entry(w) => w == 16 || (w == 17 || w == 4),
        _ => false,
    }
}

// The value without its symbol, where that is a word which a handler may edit.
fn tame(v: &Value) -> Value
    ensures { result ≡ tame v.now }
{
    if is_edited_sym(v.sym) { v.plain() } else { *v }
}

fn joined(v: &Value, other: &Value) -> Value
    ensures { result ≡ value_joined v.now other.now }
{
    let mut both = *v;
    both.join(other);
    both
}

// What the word of a slot becomes, where the saved RIP is at `l`.
fn edited_by(w: Option<Location>, l: Location, old: &Value) -> Value
    ensures { result ≡ edited_by w l old.now }
{
    let flags = moved_up(l, 16);
    let rsp = moved_up(l, 24);
    if is_just(l, 8, w) {
        joined(old, &edited_rip())
    } else if is_just(flags, 8, w) {
        joined(old, &edited_flags())
    } else if is_just(rsp, 8, w) {
        joined(old, &edited_rsp())
    } else if meets_word(l, 8, w) || (meets_word(flags, 8, w) || meets_word(rsp, 8, w)) {
        Value::top()
    } else {
        tame(old)
    }
}

// The edits of a frame whose RIP is at `l`.
#[derive(Drop)]
struct Edits<'a> {
    words: SlotWords<'a>,
    l: Location,
}

impl<'a> Change<Value> for Edits<'a> {
    ghost changed = { λ e. edited e.words.cfg.now e.words.key.now e.l };

    fn at(&self, i: u16, old: &Value) -> Value {
        let words = &self.words;
        edited_by(words.at(i), self.l, old)
    }

    // What isn't known stays unknown.
    #[tactic(auto, using(crate::proofs::EditForms::edited_top))]
    fn keeps(&self, _i: u16, old: &Value) -> bool {
        old.is_top()
    }
}

fn tame_each(items: &mut [Value])
    ensures { items.new ≡ map tame items.old }
{
    for item in items.iter_mut() {
        *item = tame(item);
    }
}

/// What a handler leaves that may edit the user's frame, whose RIP is `frame` bytes above `l`, if it may:
/// the three words are joined with what an edit writes, and no other value has their symbols. It takes
/// no memory.
pub fn edit_frame(cfg: &Config, key: &Key, frame: Option<u32>, l: Location, s: &mut AbsState)
    ensures value { s.new ≡ with_edits cfg.now key.now frame l s.old }
{
    if let Some(f) = frame {
        tame_each(&mut s.regs);
        s.flags = tame(&s.flags);
        s.slots.redo(&Edits {
            words: SlotWords::of(cfg, key),
            l: moved_up(l, f),
        });
    }
}
