//! The floors of all that is interrupted. This project's own.

ghost use Rattle.std.specs.Prelude.{◌≡◌, map, List};
ghost use Rattle.kc_value.specs.Made.{IsPlace};
ghost use Rattle.kc_frames.specs.Floors.{floor_joined};
ghost use Rattle.kc_state.specs.AbsDelivery.{floor_at, with_floor, numbered, live_from, lowered, interrupted_floors, is_under_floor};

use kc_frames::{Floor, Floors};
use kc_lattice::Domain;
use kc_state::Location;

// The base of the interrupted context as a number, or 0 where it is none.
fn number_floor(base: Option<u64>, floor: Floor) -> Floor
    ensures { result ≡ numbered base floor }
{
    match floor {
        Floor::At(a) => Floor::At(a),
        Floor::Base => match base {
            Some(base) => Floor::At(base),
            None => Floor::At(0),
        },
    }
}

fn number_each(base: Option<u64>, floors: &mut [Floor])
    ensures { floors.new ≡ map (numbered base) floors.old }
{
    for floor in floors.iter_mut() {
        *floor = number_floor(base, *floor);
    }
}

fn number_floors(base: Option<u64>, floors: &Floors) -> Floors
    ensures { result ≡ record { at = map (numbered base) floors.now.at } }
{
    let mut all = *floors;
    number_each(base, &mut all.at);
    all
}

// The floors with that of this stack, if there is one, replaced.
pub(crate) fn put_floor(floors: &Floors, stack: Option<u8>, floor: Floor) -> Floors
    requires { IsPlace stack }
    ensures { result ≡ with_floor floors.now stack floor }
{
    let mut all = *floors;
    if let Some(s) = stack {
        all.at[usize::from(s)] = floor;
    }
    all
}

// From where the interrupted context has live bytes, `depth` of which its handler may use.
pub(crate) fn live_from(depth: u32, rsp: Option<Location>) -> u64
    ensures { result ≡ live_from depth rsp }
{
    match rsp {
        Some(Location::Number(c)) => c.saturating_sub(u64::from(depth)),
        Some(Location::Relative(_)) | None => 0,
    }
}

// The floors with that of this stack lowered to `n`.
fn lower(floors: &Floors, stack: Option<u8>, n: u64) -> Floors
    requires { IsPlace stack }
    ensures { result ≡ lowered floors.now stack n }
{
    match stack {
        Some(s) => {
            let mut floor = floors.at[usize::from(s)];
            floor.join(&Floor::At(n));
            put_floor(floors, stack, floor)
        }
        None => *floors,
    }
}

// The floors of all that is interrupted: `stays` where the context's RSP is the one that it interrupted
// itself, and else it has live bytes in this stack from `n`.
pub(crate) fn interrupt_floors(
    floors: &Floors,
    base: Option<u64>,
    stays: bool,
    stack: Option<u8>,
    n: u64,
) -> Floors
    requires { IsPlace stack }
    ensures { result ≡ interrupted_floors floors.now base stays stack n }
{
    let numbered = number_floors(base, floors);
    if stays {
        numbered
    } else {
        lower(&numbered, stack, n)
    }
}

// Whether the base isn't above the floor of this stack.
pub(crate) fn is_under_floor(floors: &Floors, base: u64, stack: Option<u8>) -> bool
    requires { IsPlace stack }
    ensures { result ≡ is_under_floor floors.now base stack }
{
    match stack {
        Some(s) => match floors.at[usize::from(s)] {
            Floor::At(floor) => base <= floor,
            Floor::Base => false,
        },
        None => false,
    }
}
