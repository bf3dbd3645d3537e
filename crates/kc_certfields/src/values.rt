//! Symbolic values.

ghost use Rattle.std.specs.Prelude.{◌≡◌, IfOk};
ghost use Rattle.kc_value.specs.Symbol.{IsSym};
ghost use Rattle.kc_certfields.specs.Reads.{Reads};
ghost use Rattle.kc_certfields.specs.Values.{offset_at, word_at, symbol_at, value_at, values_at};

use crate::fault::{CertFault, CertKind};
use crate::input::{Input, refuse_if};
use crate::numbers::{read_u32, read_u64};
use kc_bits::Bits;
use kc_value::{Sym, Value};

#[tactic(auto, unfolding(crate::specs::Values::offset_at))]
fn read_offset(input: &mut Input<'_>) -> Result<Sym, CertFault>
    ensures read { Reads (λ x. x) offset_at input.old result input.new }
    ensures fits { IfOk result IsSym }
{
    let offset = read_u64(input)?;
    Ok(Sym::Base(offset.cast_signed()))
}

#[tactic(auto, unfolding(crate::specs::Values::word_at))]
fn read_word(input: &mut Input<'_>) -> Result<Sym, CertFault>
    ensures read { Reads (λ x. x) word_at input.old result input.new }
    ensures fits { IfOk result IsSym }
{
    let at = input.at();
    let word = input.byte()?;
    refuse_if(word >= 20, CertKind::Range, at)?;
    Ok(Sym::Entry(word))
}

/// A symbol: a tag, and what it asks for.
#[tactic(auto, unfolding(crate::specs::Values::symbol_at))]
fn read_symbol(input: &mut Input<'_>) -> Result<Sym, CertFault>
    ensures read { Reads (λ x. x) symbol_at input.old result input.new }
    ensures fits { IfOk result IsSym }
{
    let at = input.at();
    match input.byte()? {
        0 => Ok(Sym::Plain),
        1 => read_offset(input),
        2 => read_word(input),
        3 => Ok(Sym::UserGs),
        _ => Err(CertFault {
            kind: CertKind::Range,
            at,
        }),
    }
}

/// A value. A bit that is known as 0 and as 1 is a fault of the whole value.
#[tactic(auto, unfolding(crate::specs::Values::value_at))]
pub fn read_value(input: &mut Input<'_>) -> Result<Value, CertFault>
    ensures read { Reads (λ x. x) value_at input.old result input.new }
{
    let at = input.at();
    let sym = read_symbol(input)?;
    let zeros = read_u64(input)?;
    let ones = read_u64(input)?;
    refuse_if(zeros & ones != 0, CertKind::Range, at)?;
    let stacks_at = input.at();
    let stacks = read_u32(input)?;
    refuse_if(stacks >= 1 << 17, CertKind::Range, stacks_at)?;
    Ok(Value {
        sym,
        bits: Bits { zeros, ones },
        stacks,
    })
}

/// The values of the 16 registers.
pub fn read_registers(input: &mut Input<'_>) -> Result<[Value; 16], CertFault>
    ensures read { Reads (λ x. x) (values_at 16) input.old result input.new }
{
    let mut regs = [Value::top(); 16];
    for r in 0..16 {
        regs[r] = read_value(input)?;
    }
    Ok(regs)
}
