//! Floors of stacks.

ghost use Rattle.std.specs.Prelude.{◌≡◌, ◌≤◌};
ghost use Rattle.kc_certfields.specs.Reads.{Reads};
ghost use Rattle.kc_certfields.specs.Floors.{address_at, floor_at, floors_at};

use crate::fault::{CertFault, CertKind};
use crate::input::Input;
use crate::numbers::read_u64;
use kc_frames::{Floor, Floors};

#[tactic(auto, unfolding(crate::specs::Floors::address_at))]
fn read_address(input: &mut Input<'_>) -> Result<Floor, CertFault>
    ensures read { Reads (λ x. x) address_at input.old result input.new }
{
    let at = read_u64(input)?;
    Ok(Floor::At(at))
}

/// A floor: an address or the base.
#[tactic(auto, unfolding(crate::specs::Floors::floor_at))]
fn read_floor(input: &mut Input<'_>) -> Result<Floor, CertFault>
    ensures read { Reads (λ x. x) floor_at input.old result input.new }
{
    let at = input.at();
    match input.byte()? {
        0 => read_address(input),
        1 => Ok(Floor::Base),
        _ => Err(CertFault {
            kind: CertKind::Range,
            at,
        }),
    }
}

/// The floors of so many stacks. Where there is no stack, no byte is live.
#[tactic(auto, unfolding(crate::specs::Floors::floors_at))]
pub fn read_floors(input: &mut Input<'_>, stacks: u8) -> Result<Floors, CertFault>
    requires { stacks ≤ 16 }
    ensures read { Reads (λ x. x) (floors_at stacks) input.old result input.new }
{
    let mut floors = Floors {
        at: [Floor::At(u64::MAX); 16],
    };
    for s in 0..stacks as usize {
        floors.at[s] = read_floor(input)?;
    }
    Ok(floors)
}
