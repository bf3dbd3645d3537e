//! The regions of a description, by address and by number.

ghost use Rattle.std.specs.Prelude.{◌≡◌, IfOk, IfErr, option_copied};
ghost use Rattle.kc_regions.specs.Regions.{AreRegions, IsFirstRegionFault, HasByte, MeetsNone};
ghost use Rattle.std.specs.List.{list_all};
ghost use Rattle.kc_regions.specs.CrossTests.{spans_apart};
ghost use Rattle.kc_regions.specs.Region.{region_of, stack_of, stack_at};

use crate::each::{Rule, first_breaking};
use crate::order::{Numbers, Order, index_of, number_at, numbers_of, order_of};
use crate::region::Region;
use kc_plain::Items;
use std::marker::Model;

/// The most regions of a description.
pub const MAX_REGIONS: usize = 64;

/// The first rule on the list of regions that fails. An index counts regions from 0.
#[derive(Clone, Copy, PartialEq, Eq, Debug)]
pub enum RegionFault {
    /// This region has an address that lies in an earlier one too.
    Meet(u8),
    /// This region has no address.
    Empty(u8),
    /// There are more than `MAX_REGIONS`.
    TooMany,
}

/// At most `MAX_REGIONS` regions, none of them empty, of which no two meet. Contracts see the list
/// in the order given.
#[derive(Debug, Drop)]
pub struct Regions {
    list: Items<Region>,
    /// The indexes of the regions, rising by address.
    order: Order,
    /// For each region how many stacks stand before it.
    numbers: Numbers,
}

impl Model for Regions {
    ghost use Rattle.std.specs.Prelude.{List};
    ghost use Rattle.kc_regions.specs.declared.region.Region.{Region};

    ghost Value = { List Region };

    ghost use Rattle.kc_regions.specs.Order.{AreKept};

    ghost view = { λ r. r.list };

    ghost invariant = { λ r. AreKept r.list r.order.items r.numbers.items };
}

impl Regions {
    /// The regions of this list. It takes no memory.
    ///
    /// A refusal is the first of three rules that fails: at most `MAX_REGIONS`, then no empty one,
    /// then no two that meet.
    pub fn new(list: Items<Region>) -> Result<Regions, RegionFault>
        ensures list { IfOk result (λ r. r ≡ list) }
        ensures regions { IfOk result (λ r. AreRegions list) }
        ensures fault { IfErr result (IsFirstRegionFault list) }
    {
        check_list(list.as_slice())?;
        let order = order_of(list.as_slice());
        let numbers = numbers_of(list.as_slice());
        Ok(Regions {
            list,
            order,
            numbers,
        })
    }

    /// The region that holds the address.
    pub fn of(&self, a: u64) -> Option<&Region>
        ensures value { option_copied result ≡ region_of self.now a }
    {
        match index_of(self.list.as_slice(), self.order.as_slice(), a) {
            Some(i) => self.list.get(i),
            None => None,
        }
    }

    /// The number of the stack that holds the address: stacks are counted in order of the list.
    pub fn stack_of(&self, a: u64) -> Option<u8>
        ensures value { result ≡ stack_of self.now a }
    {
        match index_of(self.list.as_slice(), self.order.as_slice(), a) {
            Some(i) => number_at(self.list.as_slice(), self.numbers.as_slice(), i),
            None => None,
        }
    }

    /// The regions in the order given.
    pub fn list(&self) -> &[Region]
        ensures list { result.now ≡ self.now }
        ensures regions { AreRegions self.now }
    {
        self.list.as_slice()
    }

    /// The stack of this number, and None where there are not more than `s` stacks.
    pub fn stack(&self, s: u8) -> Option<&Region>
        ensures value { option_copied result ≡ stack_at self.now s }
    {
        self.list
            .as_slice()
            .iter()
            .filter(|r| r.kind.is_stack())
            .nth(s as usize)
    }
}

struct HasByte;

impl Rule<Region> for HasByte {
    ghost kept = { λ self. HasByte };

    fn keeps(&self, _earlier: &[Region], region: &Region) -> bool {
        region.span.from < region.span.to
    }
}

struct MeetsNone;

impl Rule<Region> for MeetsNone {
    ghost kept = { λ self. MeetsNone };

    fn keeps(&self, earlier: &[Region], region: &Region) -> bool {
        meets_none(earlier, region)
    }
}

fn meets_none(earlier: &[Region], region: &Region) -> bool
    ensures { result ≡ list_all (λ e. spans_apart e.span region.now.span) earlier.now }
{
    earlier.iter().all(|e| are_apart(e, region))
}

fn are_apart(one: &Region, other: &Region) -> bool
    ensures { result ≡ spans_apart one.now.span other.now.span }
{
    !one.span.meets(&other.span)
}

fn check_list(list: &[Region]) -> Result<(), RegionFault>
    ensures ok { IfOk result (λ _. AreRegions list.now) }
    ensures fault { IfErr result (IsFirstRegionFault list.now) }
{
    if list.len() > MAX_REGIONS {
        return Err(RegionFault::TooMany);
    }
    if let Some(i) = first_breaking(&HasByte, list) {
        return Err(RegionFault::Empty(i as u8));
    }
    if let Some(i) = first_breaking(&MeetsNone, list) {
        return Err(RegionFault::Meet(i as u8));
    }
    Ok(())
}
