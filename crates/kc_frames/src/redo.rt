//! Pointwise changes of slots, this project's own.

ghost use Rattle.std.specs.Prelude.{◌≡◌, ◌≤◌, ◌<◌, ℕ, true, length, drop};
ghost use Rattle.kc_frames.specs.Slots.{slot_count, redone};

use crate::slots::Slots;
use kc_lattice::Domain;

/// What each slot becomes, by its number and what it was: a store, a call or a return.
pub trait Change<V> {
    ghost changed: { Self → ℕ → V → V };

    /// What slot `i` becomes that is `old`.
    fn at(&self, i: u16, old: &V) -> V
        requires { i < slot_count }
        ensures value { result ≡ changed self.now i old.now };

    /// Whether all slots from `_i` on that are `_old` are known to stay as they are.
    fn keeps(&self, _i: u16, _old: &V) -> bool
        requires { _i < slot_count }
        ensures same { result ≡ true → (j : ℕ) → _i ≤ j → j < slot_count → changed self.now j _old.now ≡ _old.now }
    {
        false
    }
}

// Whether the slots from `i` on are known to stay as they are.
fn keeps_rest<V: Domain + Copy, C: Change<V>>(slots: &Slots<V>, i: u16, change: &C) -> bool
    requires { i < slot_count }
    ensures same { result ≡ true → redone (C.changed change.now) i (drop i slots.now) ≡ drop i slots.now }
{
    match slots.rest_from(i) {
        Some(rest) => change.keeps(i, rest),
        None => false,
    }
}

/// Changes each slot.
pub(crate) fn redo_each<V: Domain + Copy, C: Change<V>>(slots: &mut Slots<V>, change: &C)
    ensures { slots.new ≡ redone (C.changed change.now) 0 slots.old }
{
    slots.whole();
    for i in 0..296 {
        if keeps_rest(slots, i, change) {
            return;
        }
        let v = change.at(i, slots.get(i));
        slots.set(i, v);
    }
}
