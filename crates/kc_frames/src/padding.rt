//! Slots of which all from some on are one value, this project's own.

ghost use Rattle.std.specs.Prelude.{◌≡◌, ◌<◌, ◌≤◌, ◌+◌, ◌-◌, ℕ, length, get_or, IsTrue};
ghost use Rattle.std.specs.List.{AllZip};
ghost use Rattle.kc_lattice.specs.Rows.{rows_below, rows_joined};
ghost use Rattle.kc_frames.specs.Slots.{slot_count};
ghost use Rattle.kc_frames.specs.Padded.{padded};

use crate::first::{COUNT, First};
use kc_lattice::Domain;

/// Whether the two are one value.
pub(crate) fn is_same<V: Domain>(one: &V, other: &V) -> bool
    ensures same { IsTrue result → one.now ≡ other.now }
{
    one.tell();
    other.tell();
    one.leq(other) && other.leq(one)
}

/// The one at `i`, which is `rest` from some place on.
pub(crate) fn at<'a, V: Copy>(first: &'a First<V>, rest: &'a V, i: usize) -> &'a V
    ensures value { result.now ≡ get_or first.now i rest.now }
{
    if i < first.len() { first.get(i) } else { rest }
}

/// Writes out the first `n` at least.
pub(crate) fn grow<V: Copy>(first: &mut First<V>, rest: &V, n: usize)
    requires { n ≤ slot_count }
    ensures value { padded slot_count rest.now first.new ≡ padded slot_count rest.now first.old }
    ensures enough { n ≤ length first.new }
    ensures bound { length first.new ≤ slot_count }
{
    while first.len() < n {
        first.push(*rest);
    }
}

// Whether there is a last one and it is `rest`.
fn is_last<V: Domain + Copy>(first: &First<V>, rest: &V) -> bool
    ensures some { IsTrue result → 0 < length first.now }
    ensures bound { length first.now ≤ slot_count }
    ensures last { IsTrue result → get_or first.now (length first.now - 1) rest.now ≡ rest.now }
{
    let n = first.len();
    n > 0 && is_same(first.get(n - 1), rest)
}

/// Takes off the last ones that are `rest`.
pub(crate) fn trim<V: Domain + Copy>(first: &mut First<V>, rest: &V)
    ensures value { padded slot_count rest.now first.new ≡ padded slot_count rest.now first.old }
    ensures bound { length first.new ≤ slot_count }
{
    while is_last(first, rest) {
        first.pop();
    }
    let _n = first.len();
}

// How many the longer of the two has.
fn longer<V: Copy>(these: &First<V>, those: &First<V>) -> usize
    ensures these { length these.now ≤ result }
    ensures those { length those.now ≤ result }
    ensures bound { result ≤ slot_count }
{
    let n = these.len();
    let m = those.len();
    if n < m { m } else { n }
}

/// Whether they are in order at each place.
pub(crate) fn leq_padded<V: Domain + Copy>(
    these: &First<V>,
    rest: &V,
    those: &First<V>,
    other: &V,
) -> bool
    ensures value { result ≡ rows_below V.below (padded slot_count rest.now these.now)
        (padded slot_count other.now those.now) }
{
    let n = longer(these, those);
    for i in 0..n {
        if !at(these, rest, i).leq(at(those, other, i)) {
            return false;
        }
    }
    n == COUNT || rest.leq(other)
}

/// Joins `other` into `rest`, where fewer than all are kept.
pub(crate) fn join_rest<V: Domain>(rest: &mut V, other: &V, kept: usize)
    requires { kept < slot_count → V.alike rest.old other.now }
    ensures value { kept < slot_count → rest.new ≡ V.joined rest.old other.now }
{
    if kept < COUNT {
        rest.join(other);
    }
}

/// Joins into each of `these` what stands at its place in the others.
pub(crate) fn join_first<V: Domain + Copy>(these: &mut First<V>, those: &First<V>, other: &V)
    requires few { length those.now ≤ length these.old }
    requires alike { AllZip V.alike these.old (padded (length these.old) other.now those.now) }
    ensures count { length these.new ≡ length these.old }
    ensures value { these.new ≡ rows_joined V.joined these.old (padded (length these.old) other.now those.now) }
{
    for i in 0..these.len() {
        let mut v = *these.get(i);
        v.join(at(those, other, i));
        these.set(i, v);
    }
}
