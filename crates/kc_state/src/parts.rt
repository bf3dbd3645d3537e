//! Changes of slots, a part at a time, where a part is the eight slots from a multiple of eight on: most
//! changes leave most parts as they are. The slots from 40 on are four blocks of eight parts, of which
//! most changes leave all or all but one as they are. This project's own.

ghost use Rattle.std.specs.Prelude.{◌≡◌, ◌≤◌, ◌<◌, ◌+◌, ◌*◌, ℕ, true, length};
ghost use Rattle.kc_frames.specs.Slots.{slot_count, redone};
ghost use Rattle.kc_value.specs.AbsValue.{AbsValue};
ghost use Rattle.kc_state.specs.PartSteps.{changed_from, StaysFrom, Stays};

use kc_frames::Slots;
use kc_value::Value;

/// What each slot becomes, by its number and what it was, and which parts stay as they are.
pub trait PartChange {
    ghost changed: { Self → ℕ → AbsValue → AbsValue };

    /// What slot `i` becomes that is `old`.
    fn at(&self, i: u16, old: &Value) -> Value
        requires { i < slot_count }
        ensures value { result ≡ changed self.now i old.now };

    /// Whether the slots from 8 `part` to 8 `part` + 7 are known to stay as they are.
    fn keeps(&self, part: u16) -> bool
        requires { part < 37 }
        ensures same { result ≡ true → Stays (changed self.now) part };

    /// Whether the 64 slots from 64 `block` + 40 on are known to stay as they are.
    fn keeps_block(&self, _block: u16) -> bool
        requires { _block < 4 }
        ensures same { result ≡ true → StaysFrom (changed self.now) (64 * _block + 40) 64 }
    {
        false
    }
}

// Changes the eight slots of the part.
fn redo_part<C: PartChange>(slots: &mut Slots<Value>, part: u16, change: &C)
    requires { part < 37 }
    ensures count { length slots.new ≡ slot_count }
    ensures whole { changed_from (C.changed change.now) (8 * part + 8) slots.new
        ≡ changed_from (C.changed change.now) (8 * part) slots.old }
{
    slots.whole();
    for i in 8 * part..8 * part + 8 {
        let v = change.at(i, slots.get(i));
        slots.set(i, v);
    }
}

// Changes the part, where it isn't known to stay as it is.
fn visit<C: PartChange>(slots: &mut Slots<Value>, part: u16, change: &C)
    requires { part < 37 }
    ensures count { length slots.new ≡ slot_count }
    ensures whole { changed_from (C.changed change.now) (8 * part + 8) slots.new
        ≡ changed_from (C.changed change.now) (8 * part) slots.old }
{
    slots.whole();
    if change.keeps(part) {
        return;
    }
    redo_part(slots, part, change);
}

// Changes the parts from one up to another.
fn visit_each<C: PartChange>(slots: &mut Slots<Value>, from: u16, to: u16, change: &C)
    requires { (from ≤ to) × (to ≤ 37) }
    ensures count { length slots.new ≡ slot_count }
    ensures whole { changed_from (C.changed change.now) (8 * to) slots.new
        ≡ changed_from (C.changed change.now) (8 * from) slots.old }
{
    slots.whole();
    for part in from..to {
        visit(slots, part, change);
    }
}

// Changes the parts of the block, where it isn't known to stay as it is.
fn visit_block<C: PartChange>(slots: &mut Slots<Value>, block: u16, change: &C)
    requires { block < 4 }
    ensures count { length slots.new ≡ slot_count }
    ensures whole { changed_from (C.changed change.now) (64 * block + 104) slots.new
        ≡ changed_from (C.changed change.now) (64 * block + 40) slots.old }
{
    slots.whole();
    if change.keeps_block(block) {
        return;
    }
    visit_each(slots, 8 * block + 5, 8 * block + 13, change);
}

/// Makes each slot what `change` says. It takes no memory.
pub fn redo_parts<C: PartChange>(slots: &mut Slots<Value>, change: &C)
    ensures value { slots.new ≡ redone (C.changed change.now) 0 slots.old }
{
    visit_each(slots, 0, 5, change);
    for block in 0..4 {
        visit_block(slots, block, change);
    }
}
