//! Immediates by operand width and size (Intel SDM vol. 2, "Instruction Format").

ghost use Rattle.std.specs.Prelude.{◌≡◌};
ghost use Rattle.kc_insn.specs.Fields.{immediate as immediate_of, ib, id};
ghost use Rattle.kc_decode.specs.Views.{size_of};
ghost use Rattle.kc_rules.specs.Rules.{GivesExactly};
ghost use Rattle.kc_decode.specs.Reading.{imm_at};

use crate::fault::DraftFault;
use crate::fields::{number1, number4};
use crate::form::Size;
use kc_words::Width;

fn of_one_byte(w: Width, number: u8) -> i64
    ensures { result ≡ immediate_of w ib number }
{
    match w {
        Width::Byte => i64::from(number),
        Width::Long => i64::from((number.cast_signed() as i32).cast_unsigned()),
        Width::Quad => i64::from(number.cast_signed()),
    }
}

fn of_four_bytes(w: Width, number: u32) -> i64
    ensures { result ≡ immediate_of w id number }
{
    match w {
        Width::Byte | Width::Long => i64::from(number),
        Width::Quad => i64::from(number.cast_signed()),
    }
}

/// The immediate of an operand.
#[tactic(auto, unfolding(crate::specs::Reading::imm_at))]
pub fn immediate(w: Width, size: Size, bytes: &[u8]) -> Result<(i64, &[u8]), DraftFault>
    ensures { GivesExactly (λ x. (x.0, x.1.now)) result (imm_at w (size_of size) bytes.now) }
{
    match size {
        Size::One => {
            let (number, rest) = number1(bytes)?;
            Ok((of_one_byte(w, number), rest))
        }
        Size::Four => {
            let (number, rest) = number4(bytes)?;
            Ok((of_four_bytes(w, number), rest))
        }
    }
}
