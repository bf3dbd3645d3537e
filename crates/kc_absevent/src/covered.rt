//! The order of slots, of which one side is what a delivery or a return makes of others, slot by slot. This project's own.

ghost use Rattle.std.specs.Prelude.{◌≡◌, ◌≤◌, ◌<◌, ℕ, true, drop, IfSome};
ghost use Rattle.kc_frames.specs.Slots.{slot_count, redone};
ghost use Rattle.kc_lattice.specs.Rows.{rows_below};
ghost use Rattle.kc_value.specs.AbsValue.{AbsValue};
ghost use Rattle.kc_value.specs.Value.{value_below};

use kc_frames::Slots;
use kc_lattice::Domain;
use kc_value::Value;

/// What each slot becomes, by its number and what it was.
pub(crate) trait Becomes {
    ghost changed: { Self → ℕ → AbsValue → AbsValue };

    /// Whether `new` is at or above what slot `i` becomes that is `old`.
    fn is_below(&self, i: u16, old: &Value, new: &Value) -> bool
        requires { i < slot_count }
        ensures value { result ≡ value_below (changed self.now i old.now) new.now };

    /// Whether all slots from `i` on that are `old` are known to stay as they are.
    fn keeps_rest(&self, i: u16, old: &Value) -> bool
        requires { i < slot_count }
        ensures same { result ≡ true → (j : ℕ) → i ≤ j → j < slot_count → changed self.now j old.now ≡ old.now };
}

// Whether each slot from `i` on is at or above what that of `old` becomes, where that is known of all at
// once.
fn is_rest_covered<C: Becomes>(
    old: &Slots<Value>,
    change: &C,
    slots: &Slots<Value>,
    i: u16,
) -> Option<bool>
    requires { i < slot_count }
    ensures value { IfSome result (λ is. is ≡ rows_below value_below
        (redone (C.changed change.now) i (drop i old.now)) (drop i slots.now)) }
{
    let x = old.rest_from(i)?;
    let y = slots.rest_from(i)?;
    if change.keeps_rest(i, x) {
        Some(x.leq(y))
    } else {
        None
    }
}

/// Whether each slot of `slots` is at or above what that of `old` becomes.
pub(crate) fn are_slots_covered<C: Becomes>(
    old: &Slots<Value>,
    change: &C,
    slots: &Slots<Value>,
) -> bool
    ensures { result ≡ rows_below value_below (redone (C.changed change.now) 0 old.now) slots.now }
{
    old.whole();
    slots.whole();
    for i in 0..296 {
        if let Some(is) = is_rest_covered(old, change, slots, i) {
            return is;
        }
        if !change.is_below(i, old.get(i), slots.get(i)) {
            return false;
        }
    }
    true
}
