//! The loaded segments of an image, in the file's order and by address.

ghost use Rattle.std.specs.Prelude.{◌≡◌, ◌<◌, ◌-◌, ◌^◌, IsSome, ◌++◌, [], ◌∷◌, length, false, MatchResult};
ghost use Rattle.kc_image.specs.AddressSteps.{IsByAddress, IsLastUpTo};
ghost use Rattle.kc_image.specs.Image.{meets_any, place_of_address};
ghost use Rattle.kc_image.specs.Fault.{no_memory};

use crate::fault::ImageFault;
use kc_words::Span;
use std::alloc::Global;
use std::collections::BTreeMap;
use std::marker::Model;

/// Where a segment lies.
#[derive(Clone, Copy, PartialEq, Eq, Debug)]
pub(crate) struct Place {
    /// Its addresses.
    pub(crate) span: Span,
    /// Where its bytes begin in the file.
    pub(crate) offset: u64,
    /// How many bytes it has in the file. They are those of its first addresses; the others are 0.
    pub(crate) size: u64,
}

/// The places of segments of which no two meet, in the file's order.
#[derive(Drop)]
pub(crate) struct Segments {
    list: Vec<Place>,
    /// Those that have an address, by their first one.
    by_address: BTreeMap<u64, Place>,
}

impl Model for Segments {
    ghost use Rattle.std.specs.Prelude.{List};
    ghost use Rattle.kc_image.specs.declared.segments.Place.{Place};

    ghost Value = { List Place };

    ghost use Rattle.kc_image.specs.AddressSteps.{IsByAddress};

    ghost view = { λ s. s.list.items };

    ghost invariant = { λ s. IsByAddress s.list.items s.by_address };
}

impl Segments {
    pub(crate) fn new(alloc: Global) -> Segments
        ensures { result ≡ [] }
    {
        Segments {
            list: Vec::new(alloc),
            by_address: BTreeMap::new(alloc),
        }
    }

    pub(crate) fn len(&self) -> usize
        ensures { result ≡ length self.now }
    {
        self.list.len()
    }

    /// Whether some address of the span lies in one of the segments.
    pub(crate) fn meets(&self, span: &Span) -> bool
        ensures { result ≡ meets_any span.now self.now }
    {
        if span.to <= span.from {
            return false;
        }
        match last_up_to(&self.by_address, span.to - 1) {
            Some(place) => span.from < place.span.to,
            None => false,
        }
    }

    /// With one segment more, which meets none of these.
    pub(crate) fn with(self, place: &Place) -> Result<Segments, ImageFault>
        requires { meets_any place.now.span self ≡ false }
        ensures { MatchResult result (λ s. s ≡ self ++ place.now ∷ []) (λ e. e ≡ no_memory) }
    {
        let Segments { list, by_address } = self;
        grown(list, by_address, place)
    }

    /// The segment that holds the address.
    pub(crate) fn find(&self, a: u64) -> Option<Place>
        ensures place { result ≡ place_of_address self.now a }
        ensures inside { IsSome result → a < 2 ^ 64 - 1 }
    {
        match last_up_to(&self.by_address, a) {
            Some(place) => (a < place.span.to).then_some(place),
            None => None,
        }
    }
}

/// The entry of the greatest key up to `a`.
fn last_up_to(map: &BTreeMap<u64, Place>, a: u64) -> Option<Place>
    ensures { IsLastUpTo map.now a result }
{
    match map.range(..=a).next_back() {
        Some((_, place)) => Some(*place),
        None => None,
    }
}

/// The segments of both with one more, which meets none of them.
fn grown(
    mut list: Vec<Place>,
    mut by_address: BTreeMap<u64, Place>,
    place: &Place,
) -> Result<Segments, ImageFault>
    requires parts { IsByAddress list.items by_address }
    requires apart { meets_any place.now.span list.items ≡ false }
    ensures { MatchResult result (λ s. s ≡ list.items ++ place.now ∷ []) (λ e. e ≡ no_memory) }
{
    let first = place.span.from;
    if first < place.span.to {
        by_address.insert(first, *place)?;
    }
    list.push(*place)?;
    Ok(Segments { list, by_address })
}
