//! Numbers and displacements in an instruction's bytes, and the bits of REX (Intel SDM vol. 2,
//! "Instruction Format").

ghost use Rattle.std.specs.Prelude.{◌≡◌, ◌+◌, ◌<◌};
ghost use Rattle.kc_reading.specs.Reading.{byte_at, number_at};
ghost use Rattle.kc_insn.specs.Fields.{w_bit, r_bit, x_bit, b_bit, extended as extended_register, width_of as rex_width, worth};
ghost use Rattle.kc_decode.specs.declared.fault.DraftFault.TheVariants.{Short};
ghost use Rattle.kc_rules.specs.Rules.{GivesExactly};

use crate::fault::DraftFault;
use kc_insn::{Reg, Rex};
use kc_words::Width;

/// The first byte.
pub fn byte(bytes: &[u8]) -> Result<(u8, &[u8]), DraftFault>
    ensures { GivesExactly (λ x. (x.0, x.1.now)) result (byte_at Short bytes.now) }
{
    match bytes {
        [] => Err(DraftFault::Short),
        [first, rest @ ..] => Ok((*first, rest)),
    }
}

/// A number of one byte.
pub fn number1(bytes: &[u8]) -> Result<(u8, &[u8]), DraftFault>
    ensures { GivesExactly (λ x. (x.0, x.1.now)) result (number_at Short 1 bytes.now) }
{
    byte(bytes)
}

/// A number of four bytes.
pub fn number4(bytes: &[u8]) -> Result<(u32, &[u8]), DraftFault>
    ensures { GivesExactly (λ x. (x.0, x.1.now)) result (number_at Short 4 bytes.now) }
{
    match bytes.split_first_chunk::<4>() {
        Some((number, rest)) => Ok((u32::from_le_bytes(*number), rest)),
        None => Err(DraftFault::Short),
    }
}

/// A number of eight bytes.
pub fn number8(bytes: &[u8]) -> Result<(u64, &[u8]), DraftFault>
    ensures { GivesExactly (λ x. (x.0, x.1.now)) result (number_at Short 8 bytes.now) }
{
    match bytes.split_first_chunk::<8>() {
        Some((number, rest)) => Ok((u64::from_le_bytes(*number), rest)),
        None => Err(DraftFault::Short),
    }
}

/// REX.W.
pub fn rex_w(rex: Option<Rex>) -> bool
    ensures { result ≡ w_bit rex }
{
    rex.is_some_and(|rex| rex.w)
}

/// REX.R.
pub fn rex_r(rex: Option<Rex>) -> bool
    ensures { result ≡ r_bit rex }
{
    rex.is_some_and(|rex| rex.r)
}

/// REX.X.
pub fn rex_x(rex: Option<Rex>) -> bool
    ensures { result ≡ x_bit rex }
{
    rex.is_some_and(|rex| rex.x)
}

/// REX.B.
pub fn rex_b(rex: Option<Rex>) -> bool
    ensures { result ≡ b_bit rex }
{
    rex.is_some_and(|rex| rex.b)
}

/// The register of a field of three bits and the REX bit that extends it.
pub fn extended(bit: bool, field: u8) -> Reg
    requires { field < 8 }
    ensures { result ≡ extended_register bit field }
{
    if bit { Reg(8 + field) } else { Reg(field) }
}

/// The operand's width where REX.W chooses between 32 and 64 bits.
pub fn width_of(rex: Option<Rex>) -> Width
    ensures { result ≡ rex_width rex }
{
    if rex_w(rex) { Width::Quad } else { Width::Long }
}
