//! Lists of abstract values, place by place, this project's own.

ghost use Rattle.std.specs.Prelude.{◌≡◌, ℕ, IsTrue, IsFalse, ◌↔◌, ◌<◌, All, List, ◌∷◌, fold, map};
ghost use Rattle.kc_lattice.specs.Laws.{IsLeastUpperBound};
ghost use Rattle.std.specs.List.{AllZip};
ghost use Rattle.kc_lattice.specs.Rows.{rows_below, rows_joined};

use crate::domain::{Domain, Meaning};

/// Whether the lists have one length and are in order at each place.
pub fn leq_each<V: Domain>(these: &[V], those: &[V]) -> bool
    ensures value { result ≡ rows_below V.below these.now those.now }
{
    if these.len() != those.len() {
        return false;
    }
    for i in 0..these.len() {
        if !these[i].leq(&those[i]) {
            return false;
        }
    }
    true
}

/// Joins into each of `these` what stands at its place in `those`, a list of one length with it
/// and alike at each place.
pub fn join_each<V: Domain>(these: &mut [V], those: &[V])
    requires { AllZip V.alike these.old those.now }
    ensures value { these.new ≡ rows_joined V.joined these.old those.now }
{
    for i in 0..these.len() {
        these[i].join(&those[i]);
    }
}

/// Whether each value is the top of its shape.
pub fn is_top_each<V: Domain>(items: &[V]) -> bool
    ensures is { IsTrue result ↔ (items.now ≡ map V.top_of items.now) }
{
    for item in items {
        if !item.is_top() {
            return false;
        }
    }
    true
}

/// Makes each value the top of its shape.
pub fn set_top_each<V: Domain>(items: &mut [V])
    ensures value { items.new ≡ map V.top_of items.old }
{
    for item in items.iter_mut() {
        item.set_top();
    }
}

/// Does nothing, and tells a proof that each value is valid.
pub fn tell_each<V: Domain>(items: &[V])
    ensures valid { All V.valid items.now }
{
    for item in items {
        item.tell();
    }
}

/// Whether the lists have one length and each value stands, in `env`, for what is at its place.
pub fn stands_each<V: Meaning>(items: &[V], env: &V::Env, concs: &[V::Conc]) -> bool
    ensures is { IsTrue result ↔ AllZip (λ x c. V.holds x env.now c) items.now concs.now }
{
    if items.len() != concs.len() {
        return false;
    }
    for i in 0..items.len() {
        if !items[i].stands(env, &concs[i]) {
            return false;
        }
    }
    true
}

/// Joins `item`, which is alike it, into `total`, and says whether that changed it: then its rank
/// fell.
pub fn join_changed<D: Domain>(total: &mut D, item: &D) -> bool
    requires { D.alike total.old item.now }
    ensures value { total.new ≡ D.joined total.old item.now }
    ensures changed { IsTrue result → D.rank total.new < D.rank total.old }
    ensures unchanged { IsFalse result → total.new ≡ total.old }
{
    total.tell();
    item.tell();
    if item.leq(total) {
        return false;
    }
    total.join(item);
    true
}

/// Joins each of `items`, which are alike it, into `total`: it is then the least upper bound of
/// what it was and of all items.
pub fn join_all<D: Domain>(total: &mut D, items: &[D])
    requires { All (λ x. D.alike total.old x) items.now }
    ensures value { total.new ≡ fold D.joined total.old items.now }
    ensures bound { IsLeastUpperBound D.valid D.below (total.old ∷ items.now) total.new }
{
    total.tell();
    for item in items {
        item.tell();
        total.join(item);
    }
}
