//! The order of regions by address, and the look-up in it by halving.

ghost use Rattle.std.specs.Prelude.{◌≡◌, ◌≤◌, ◌<◌, ◌↔◌, IsTrue, length, IfSome, IfNone};
ghost use Rattle.std.specs.List.Sorted.{IsNonDecreasingBy, IsPermutation};
ghost use Rattle.kc_regions.specs.Regions.{AreRegions};
ghost use Rattle.kc_regions.specs.Order.{first_of, IsOrder, AreNumbers, AreUpTo, IsCut, IsHolder, NoneHolds, number_at};

use crate::region::Region;
use crate::regions::MAX_REGIONS;
use arrayvec::ArrayVec;

/// Indexes of regions, rising by the regions' first addresses.
pub(crate) type Order = ArrayVec<u8, MAX_REGIONS>;

/// For each region how many stacks stand before it.
pub(crate) type Numbers = ArrayVec<u8, MAX_REGIONS>;

/// The first address of the region of this index, and 0 where there is none.
fn first_of(list: &[Region], i: u8) -> u64
    ensures { result ≡ first_of list.now i }
{
    match list.get(i as usize) {
        Some(region) => region.span.from,
        None => 0,
    }
}

pub(crate) fn order_of(list: &[Region]) -> Order
    requires { length list.now ≤ MAX_REGIONS }
    ensures { IsOrder list.now result.items }
{
    let mut order = indexes(list.len());
    sort(order.as_mut_slice(), list);
    order
}

fn sort(order: &mut [u8], list: &[Region])
    ensures permutation { IsPermutation order.old order.new }
    ensures rising { IsNonDecreasingBy (first_of list.now) order.new }
    ensures length { length order.new ≡ length order.old }
{
    order.sort_unstable_by_key(|i| first_of(list, *i));
}

fn indexes(count: usize) -> Order
    requires { count ≤ MAX_REGIONS }
    ensures { AreUpTo count result.items }
{
    let mut order = Order::new();
    for i in 0..count {
        order.push(i as u8);
    }
    order
}

pub(crate) fn numbers_of(list: &[Region]) -> Numbers
    requires { length list.now ≤ MAX_REGIONS }
    ensures { AreNumbers list.now result.items }
{
    let mut numbers = Numbers::new();
    let mut count = 0;
    for region in list {
        numbers.push(count);
        if region.kind.is_stack() {
            count += 1;
        }
    }
    numbers
}

/// The index of the region that holds the address.
pub(crate) fn index_of(list: &[Region], order: &[u8], a: u64) -> Option<usize>
    requires regions { AreRegions list.now }
    requires order { IsOrder list.now order.now }
    ensures found { IfSome result (IsHolder list.now a) }
    ensures none { IfNone result (NoneHolds list.now a) }
{
    let end = begun(list, order, a);
    if end == 0 {
        return None;
    }
    let i = order[end - 1] as usize;
    if holds(list, i, a) { Some(i) } else { None }
}

/// How many regions begin at or below the address.
fn begun(list: &[Region], order: &[u8], a: u64) -> usize
    requires { IsOrder list.now order.now }
    ensures { IsCut list.now order.now a result }
{
    order.partition_point(|i| first_of(list, *i) <= a)
}

/// Whether the region of this index holds the address.
fn holds(list: &[Region], i: usize, a: u64) -> bool
    ensures { IsTrue result ↔ IsHolder list.now a i }
{
    match list.get(i) {
        Some(region) => region.span.holds(a),
        None => false,
    }
}

/// The number of the region of this index as a stack, where it is one.
pub(crate) fn number_at(list: &[Region], numbers: &[u8], i: usize) -> Option<u8>
    requires inside { i < length list.now }
    requires numbers { AreNumbers list.now numbers.now }
    ensures { result ≡ number_at list.now i }
{
    if list[i].kind.is_stack() {
        Some(numbers[i])
    } else {
        None
    }
}
