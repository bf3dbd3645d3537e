//! The order of slots, of which one side is what a change makes of them. This project's own.

ghost use Rattle.std.specs.Prelude.{◌≡◌, ◌<◌, drop, IfSome};
ghost use Rattle.kc_frames.specs.Slots.{slot_count, redone};
ghost use Rattle.kc_lattice.specs.Rows.{rows_below};
ghost use Rattle.kc_value.specs.Value.{value_below};

use kc_frames::{Change, Slots};
use kc_lattice::Domain;
use kc_value::Value;

// Whether each slot from `i` on is at or above what `change` makes of that of `old`, where that is known of
// all at once.
fn is_rest_covered<C: Change<Value>>(
    old: &Slots<Value>,
    change: &C,
    slots: &Slots<Value>,
    i: u16,
) -> Option<bool>
    requires { i < slot_count }
    ensures value { IfSome result (λ is. is ≡ rows_below value_below
        (redone (C.changed change.now) i (drop i old.now)) (drop i slots.now)) }
{
    let x = old.rest_from(i)?;
    let y = slots.rest_from(i)?;
    if change.keeps(i, x) {
        Some(x.leq(y))
    } else {
        None
    }
}

/// Whether each slot of `slots` is at or above what `change` makes of that of `old`. It takes no memory.
pub fn are_slots_covered<C: Change<Value>>(
    old: &Slots<Value>,
    change: &C,
    slots: &Slots<Value>,
) -> bool
    ensures value { result ≡ rows_below value_below (redone (C.changed change.now) 0 old.now) slots.now }
{
    old.whole();
    slots.whole();
    for i in 0..296 {
        if let Some(is) = is_rest_covered(old, change, slots, i) {
            return is;
        }
        if !change.at(i, old.get(i)).leq(slots.get(i)) {
            return false;
        }
    }
    true
}
