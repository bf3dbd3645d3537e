//! Numbers of a certificate, which are little-endian.

ghost use Rattle.std.specs.Prelude.{◌≡◌};
ghost use Rattle.kc_certfields.specs.Reads.{Reads};
ghost use Rattle.kc_certfields.specs.Numbers.{u8_at, u16_at, u32_at, u64_at};

use crate::fault::CertFault;
use crate::input::Input;

/// A number of one byte.
pub fn read_u8(input: &mut Input<'_>) -> Result<u8, CertFault>
    ensures read { Reads (λ x. x) u8_at input.old result input.new }
{
    input.byte()
}

/// A number of two bytes.
#[tactic(auto, unfolding(crate::specs::Numbers::u16_at, crate::specs::Numbers::bytes_at))]
pub fn read_u16(input: &mut Input<'_>) -> Result<u16, CertFault>
    ensures read { Reads (λ x. x) u16_at input.old result input.new }
{
    let bytes = input.chunk::<2>()?;
    Ok(u16::from_le_bytes(bytes))
}

/// A number of four bytes.
#[tactic(auto, unfolding(crate::specs::Numbers::u32_at, crate::specs::Numbers::bytes_at))]
pub fn read_u32(input: &mut Input<'_>) -> Result<u32, CertFault>
    ensures read { Reads (λ x. x) u32_at input.old result input.new }
{
    let bytes = input.chunk::<4>()?;
    Ok(u32::from_le_bytes(bytes))
}

/// A number of eight bytes.
#[tactic(auto, unfolding(crate::specs::Numbers::u64_at, crate::specs::Numbers::bytes_at))]
pub fn read_u64(input: &mut Input<'_>) -> Result<u64, CertFault>
    ensures read { Reads (λ x. x) u64_at input.old result input.new }
{
    let bytes = input.chunk::<8>()?;
    Ok(u64::from_le_bytes(bytes))
}
