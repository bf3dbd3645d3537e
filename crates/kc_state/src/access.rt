//! Which bytes may be accessed, and which hold no live byte, this project's own.

ghost use Rattle.std.specs.Prelude.{◌≡◌, ◌<◌, ◌≤◌, ◌+◌, true, Some, IfSome, length, nat_le};
ghost use Rattle.kc_regions.specs.Permission.{has_right};
ghost use Rattle.kc_regions.specs.Region.{region_of};
ghost use Rattle.kc_state.specs.declared.location.Location.TheVariants.{Number};
ghost use Rattle.kc_state.specs.Access.{is_present_under, may_region, may_byte, may_bytes, HoldsBytes, is_stack_present, may, is_floor_from, clear_stack, clear_bytes, is_base_or_none, is_base_clear, clear};

use crate::key::Key;
use crate::location::Location;
use kc_frames::{Floor, Floors};
use kc_lattice::Domain;
use kc_regions::{Config, Region, Touch};
use kc_space::MapState;

/// Whether `size` bytes at `l` may be accessed in a context with this key: each byte of a number lies
/// in a region that is present under the map and has the right that `touch` needs; an offset's lie in
/// the 4,096 bytes below the base, and the key's stack is present.
pub fn may(cfg: &Config, key: &Key, map: MapState, l: Location, size: u8, touch: Touch) -> bool
    ensures value { result ≡ may cfg.now key.now map l size touch }
{
    match l {
        Location::Number(a) => may_bytes(cfg, map, touch, a, size),
        Location::Relative(k) => {
            -4096 <= k && k <= -i64::from(size) && is_stack_present(cfg, key.stack, map)
        }
    }
}

fn is_present_under(map: MapState, region: &Region) -> bool
    ensures { result ≡ is_present_under map region.now }
{
    match map {
        MapState::Kernel => !region.kind.is_guard(),
        MapState::User | MapState::Any => !region.kind.is_guard() && region.user_map,
    }
}

fn has_right(touch: Touch, region: &Region) -> bool
    ensures { result ≡ has_right touch region.now }
{
    match touch {
        Touch::Fetch => region.exec,
        Touch::Read => true,
        Touch::Write => region.write,
    }
}

fn may_byte(cfg: &Config, map: MapState, touch: Touch, a: u64) -> bool
    ensures { result ≡ may_byte cfg.now map touch a }
{
    match cfg.regions.of(a) {
        Some(region) => may_region(map, touch, region),
        None => false,
    }
}

// Whether the `size` bytes from `a` on all lie in the region.
fn holds_bytes(region: &Region, a: u64, size: u8) -> bool
    ensures { result ≡ true → HoldsBytes region.now.span a size }
{
    let span = &region.span;
    span.from <= a && a <= span.to && u64::from(size) <= span.to - a
}

// Whether the region is present under the map and has the right.
fn may_region(map: MapState, touch: Touch, region: &Region) -> bool
    ensures { result ≡ may_region map touch region.now }
{
    is_present_under(map, region) && has_right(touch, region)
}

fn may_bytes(cfg: &Config, map: MapState, touch: Touch, a: u64, size: u8) -> bool
    ensures { result ≡ may_bytes cfg.now map touch a size }
{
    match cfg.regions.of(a) {
        Some(region) => may_from(cfg, map, touch, region, a, size),
        None => may_each(cfg, map, touch, a, size),
    }
}

// The same, where this region holds the first byte: where it holds all of them, it decides.
fn may_from(cfg: &Config, map: MapState, touch: Touch, first: &Region, a: u64, size: u8) -> bool
    requires { region_of cfg.now.regions a ≡ Some first.now }
    ensures { result ≡ may_bytes cfg.now map touch a size }
{
    cfg.tell();
    if size != 0 && holds_bytes(first, a, size) {
        may_region(map, touch, first)
    } else {
        may_each(cfg, map, touch, a, size)
    }
}

// The same, byte by byte.
#[tactic(auto, using(crate::proofs::AccessLemmas::may_bytes_first, crate::proofs::AccessLemmas::may_bytes_none))]
fn may_each(cfg: &Config, map: MapState, touch: Touch, a: u64, size: u8) -> bool
    ensures { result ≡ may_bytes cfg.now map touch a size }
{
    let mut at = a;
    let mut left = size;
    while left > 0 {
        if !may_byte(cfg, map, touch, at) {
            return false;
        }
        at = at.wrapping_add(1);
        left -= 1;
    }
    true
}

/// Whether there is a stack, and it is present under the map.
pub fn is_stack_present(cfg: &Config, stack: Option<u8>, map: MapState) -> bool
    ensures value { result ≡ is_stack_present cfg.now stack map }
{
    match stack {
        Some(s) => match cfg.regions.stack(s) {
            Some(region) => is_present_under(map, region),
            None => false,
        },
        None => false,
    }
}

/// Whether `size` bytes at `l` hold no live byte by these floors: a number's end at or below the floor
/// of each stack that they meet, where none count as the one at `l`; an offset's end at or below the
/// base, and the floor of the key's stack is the base or says that no byte is live.
pub fn clear(cfg: &Config, key: &Key, floors: &Floors, l: Location, size: u8) -> bool
    ensures value { result ≡ clear cfg.now key.now floors.now l size }
{
    match l {
        Location::Number(a) => clear_bytes(cfg, key, floors, a, size),
        Location::Relative(k) => k <= -i64::from(size) && is_base_clear(floors, key.stack),
    }
}

fn clear_bytes(cfg: &Config, key: &Key, floors: &Floors, a: u64, size: u8) -> bool
    ensures { result ≡ clear cfg.now key.now floors.now (Number a) size }
{
    match cfg.regions.of(a) {
        Some(region) => clear_from(cfg, key, floors, region, a, size),
        None => clear_each(cfg, key, floors, a, size),
    }
}

// The same, where this region holds the first byte: where it holds all of them, they meet one stack at most.
#[tactic(auto, using(crate::proofs::StackLemmas::is_place))]
fn clear_from(cfg: &Config, key: &Key, floors: &Floors, first: &Region, a: u64, size: u8) -> bool
    requires { region_of cfg.now.regions a ≡ Some first.now }
    ensures { result ≡ clear cfg.now key.now floors.now (Number a) size }
{
    cfg.tell();
    if holds_bytes(first, a, size.max(1)) {
        clear_stack(key, floors, a, size, cfg.regions.stack_of(a))
    } else {
        clear_each(cfg, key, floors, a, size)
    }
}

// The same, byte by byte.
#[tactic(auto, using(crate::proofs::AccessLemmas::clear_bytes_first, crate::proofs::AccessLemmas::clear_bytes_none, crate::proofs::StackLemmas::is_place))]
fn clear_each(cfg: &Config, key: &Key, floors: &Floors, a: u64, size: u8) -> bool
    ensures { result ≡ clear cfg.now key.now floors.now (Number a) size }
{
    cfg.tell();
    let mut at = a;
    let mut left = size.max(1);
    while left > 0 {
        if !clear_stack(key, floors, a, size, cfg.regions.stack_of(at)) {
            return false;
        }
        at = at.wrapping_add(1);
        left -= 1;
    }
    true
}

fn clear_stack(key: &Key, floors: &Floors, a: u64, size: u8, stack: Option<u8>) -> bool
    requires { IfSome stack (λ s. s < 16) }
    ensures { result ≡ clear_stack key.now floors.now (a + size) stack }
{
    match stack {
        Some(s) => match floors.at[usize::from(s)].number(key.base) {
            Some(floor) => reaches(floor, a, size),
            None => false,
        },
        None => true,
    }
}

// Whether `a + size`, without a bound, is at most `floor`.
fn reaches(floor: u64, a: u64, size: u8) -> bool
    ensures { result ≡ nat_le (a + size) floor }
{
    match a.checked_add(u64::from(size)) {
        Some(end) => end <= floor,
        None => false,
    }
}

fn is_base_clear(floors: &Floors, stack: Option<u8>) -> bool
    ensures { result ≡ is_base_clear floors.now stack }
{
    floors.tell();
    match stack {
        Some(s) if s < 16 => match floors.at[usize::from(s)] {
            Floor::Base => true,
            Floor::At(a) => a == u64::MAX,
        },
        _ => false,
    }
}
