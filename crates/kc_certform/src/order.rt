//! An order of states by their numbers, in which states are found.

ghost use Rattle.std.specs.Prelude.{◌≡◌, length, flat_map};
ghost use Rattle.std.specs.Cmp.Lexicographic.{slice_cmp};
ghost use Rattle.std.specs.Ordering.{nat_cmp};
ghost use Rattle.kc_certform.specs.Numbers.{symbol_numbers, value_numbers, floor_numbers, space_numbers, rest_numbers, state_numbers};

use kc_frames::{Floor, Slots};
use kc_state::AbsState;
use kc_value::{Sym, Value};
use std::cmp::Ordering;

// A tag, and what is beside it.
fn number_symbol(sym: Sym) -> [u64; 2]
    ensures { result ≡ symbol_numbers sym }
{
    match sym {
        Sym::Plain => [0, 0],
        Sym::Base(offset) => [1, offset.cast_unsigned()],
        Sym::Entry(word) => [2, u64::from(word)],
        Sym::UserGs => [3, 0],
    }
}

// The symbol, the known bits and the places.
fn number_value(value: &Value) -> [u64; 5]
    ensures { result ≡ value_numbers value.now }
{
    let [tag, beside] = number_symbol(value.sym);
    [
        tag,
        beside,
        value.bits.zeros,
        value.bits.ones,
        u64::from(value.stacks),
    ]
}

fn order_value(this: &Value, that: &Value) -> Ordering
    ensures { result ≡ slice_cmp nat_cmp (value_numbers this.now) (value_numbers that.now) }
{
    number_value(this).cmp(&number_value(that))
}

fn order_values(these: &[Value; 16], those: &[Value; 16]) -> Ordering
    ensures order { result ≡ slice_cmp nat_cmp (flat_map value_numbers these.now) (flat_map value_numbers those.now) }
    ensures even { length these.now ≡ length those.now }
{
    for i in 0..16 {
        let order = order_value(&these[i], &those[i]);
        if order.is_ne() {
            return order;
        }
    }
    Ordering::Equal
}

fn number_floor(floor: &Floor) -> [u64; 2]
    ensures { result ≡ floor_numbers floor.now }
{
    match floor {
        Floor::At(at) => [0, *at],
        Floor::Base => [1, 0],
    }
}

fn order_floor(this: &Floor, that: &Floor) -> Ordering
    ensures { result ≡ slice_cmp nat_cmp (floor_numbers this.now) (floor_numbers that.now) }
{
    number_floor(this).cmp(&number_floor(that))
}

fn order_floors(these: &[Floor; 16], those: &[Floor; 16]) -> Ordering
    ensures order { result ≡ slice_cmp nat_cmp (flat_map floor_numbers these.now) (flat_map floor_numbers those.now) }
    ensures even { length these.now ≡ length those.now }
{
    for i in 0..16 {
        let order = order_floor(&these[i], &those[i]);
        if order.is_ne() {
            return order;
        }
    }
    Ordering::Equal
}

fn order_slots(these: &Slots<Value>, those: &Slots<Value>) -> Ordering
    ensures { result ≡ slice_cmp nat_cmp (flat_map value_numbers these.now) (flat_map value_numbers those.now) }
{
    these.whole();
    those.whole();
    for i in 0..296 {
        let order = order_value(these.get(i), those.get(i));
        if order.is_ne() {
            return order;
        }
    }
    Ordering::Equal
}

// The GS pair, the map and the three latches.
fn number_spaces(state: &AbsState) -> [u8; 5]
    ensures { result ≡ space_numbers state.now }
{
    [
        state.gs.number(),
        state.map.number(),
        state.latches.nmi_blocked.number(),
        state.latches.shadow.number(),
        state.latches.mcip.number(),
    ]
}

fn order_spaces(this: &AbsState, that: &AbsState) -> Ordering
    ensures { result ≡ slice_cmp nat_cmp (space_numbers this.now) (space_numbers that.now) }
{
    number_spaces(this).cmp(&number_spaces(that))
}

// The order of two states whose registers and flags are the same.
fn order_rest(this: &AbsState, that: &AbsState) -> Ordering
    ensures { result ≡ slice_cmp nat_cmp (rest_numbers this.now) (rest_numbers that.now) }
{
    let order = order_spaces(this, that);
    if order.is_ne() {
        return order;
    }
    let order = order_floors(&this.floors.at, &that.floors.at);
    if order.is_ne() {
        return order;
    }
    order_slots(&this.slots, &that.slots)
}

/// The order of two states: equal where they are the same.
#[tactic(auto, unfolding(crate::specs::Numbers::state_numbers))]
pub fn order_states(this: &AbsState, that: &AbsState) -> Ordering
    ensures order { result ≡ slice_cmp nat_cmp (state_numbers this.now) (state_numbers that.now) }
{
    let order = order_values(&this.regs, &that.regs);
    if order.is_ne() {
        return order;
    }
    let order = order_value(&this.flags, &that.flags);
    if order.is_ne() {
        return order;
    }
    order_rest(this, that)
}
