//! What is known of latches, of GS bases and of CR3, as numbers.

ghost use Rattle.std.specs.Prelude.{◌≡◌, ◌<◌};
ghost use Rattle.kc_certfields.specs.Reads.{Reads};
ghost use Rattle.kc_certfields.specs.Spaces.{who_of, tri_at, map_at, gs_at, latches_at};
ghost use Rattle.kc_certfields.specs.Keys.{bit_at};

use crate::fault::{CertFault, CertKind};
use crate::input::Input;
use kc_space::{GsPair, Latches, MapState, Tri, Who};

/// No, yes or any.
#[tactic(auto, unfolding(crate::specs::Spaces::tri_at))]
pub fn read_tri(input: &mut Input<'_>) -> Result<Tri, CertFault>
    ensures read { Reads (λ x. x) tri_at input.old result input.new }
{
    let at = input.at();
    match input.byte()? {
        0 => Ok(Tri::No),
        1 => Ok(Tri::Yes),
        2 => Ok(Tri::Any),
        _ => Err(CertFault {
            kind: CertKind::Range,
            at,
        }),
    }
}

/// The kernel's, the user's or any.
#[tactic(auto, unfolding(crate::specs::Spaces::map_at))]
pub fn read_map(input: &mut Input<'_>) -> Result<MapState, CertFault>
    ensures read { Reads (λ x. x) map_at input.old result input.new }
{
    let at = input.at();
    match input.byte()? {
        0 => Ok(MapState::Kernel),
        1 => Ok(MapState::User),
        2 => Ok(MapState::Any),
        _ => Err(CertFault {
            kind: CertKind::Range,
            at,
        }),
    }
}

// Whose base a number below 3 says.
fn who(n: u8) -> Who
    requires { n < 3 }
    ensures value { result ≡ who_of n }
{
    match n {
        0 => Who::Kernel,
        1 => Who::User,
        _ => Who::Any,
    }
}

/// Both GS bases.
#[tactic(auto, unfolding(crate::specs::Spaces::gs_at))]
pub fn read_gs(input: &mut Input<'_>) -> Result<GsPair, CertFault>
    ensures read { Reads (λ x. x) gs_at input.old result input.new }
{
    let at = input.at();
    let n = input.byte()?;
    if n < 9 {
        Ok(GsPair {
            active: who(n % 3),
            inactive: who(n / 3),
        })
    } else {
        Err(CertFault {
            kind: CertKind::Range,
            at,
        })
    }
}

/// The three latches.
#[tactic(auto, unfolding(crate::specs::Spaces::latches_at))]
pub fn read_latches(input: &mut Input<'_>) -> Result<Latches, CertFault>
    ensures read { Reads (λ x. x) latches_at input.old result input.new }
{
    let nmi_blocked = read_tri(input)?;
    let shadow = read_tri(input)?;
    let mcip = read_tri(input)?;
    Ok(Latches {
        nmi_blocked,
        shadow,
        mcip,
    })
}

/// A byte 0 or 1.
#[tactic(auto, unfolding(crate::specs::Keys::bit_at))]
pub fn read_bit(input: &mut Input<'_>) -> Result<bool, CertFault>
    ensures read { Reads (λ x. x) bit_at input.old result input.new }
{
    let at = input.at();
    match input.byte()? {
        0 => Ok(false),
        1 => Ok(true),
        _ => Err(CertFault {
            kind: CertKind::Range,
            at,
        }),
    }
}
