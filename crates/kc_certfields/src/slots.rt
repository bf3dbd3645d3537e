//! Tracked words: those that aren't top, by rising index.

ghost use Rattle.std.specs.Prelude.{◌≡◌, ◌<◌, ◌≤◌, IfOk};
ghost use Rattle.kc_frames.specs.Slots.{slot_count};
ghost use Rattle.kc_certfields.specs.Reads.{Reads, ReadsOrEnds};
ghost use Rattle.kc_certfields.specs.Slots.{slot_at, slots_from, slots_at};
ghost use Rattle.kc_certfields.specs.Spelling.{is_value_top};

use crate::fault::{CertFault, CertKind};
use crate::input::{Input, refuse_if};
use crate::numbers::read_u16;
use crate::values::read_value;
use kc_frames::Slots;
use kc_value::{Sym, Value};
use std::alloc::Global;

/// The number of slots of a state.
pub const SLOTS: u16 = 296;

// The stack set of a value of which nothing is known.
const ALL_PLACES: u32 = 0x1_FFFF;

/// Whether nothing is known of the value.
pub fn is_top(value: &Value) -> bool
    ensures value { result ≡ is_value_top value.now }
{
    value.sym == Sym::Plain
        && value.bits.zeros == 0
        && value.bits.ones == 0
        && value.stacks == ALL_PLACES
}

/// A slot: an index below `limit` and from `least` on, and a value that isn't top.
#[tactic(auto, unfolding(crate::specs::Slots::slot_at))]
fn read_slot(input: &mut Input<'_>, limit: u16, least: u16) -> Result<(u16, Value), CertFault>
    ensures read { Reads (λ x. x) (slot_at limit least) input.old result input.new }
    ensures below { IfOk result (λ slot. slot.0 < limit) }
{
    let at = input.at();
    let index = read_u16(input)?;
    refuse_if(index >= limit, CertKind::Range, at)?;
    refuse_if(index < least, CertKind::Order, at)?;
    let value_at = input.at();
    let value = read_value(input)?;
    refuse_if(is_top(&value), CertKind::Range, value_at)?;
    Ok((index, value))
}

/// Reads so many slots in place of these.
fn read_known(
    input: &mut Input<'_>,
    limit: u16,
    count: u16,
    slots: Slots<Value>,
) -> Result<Slots<Value>, CertFault>
    requires { limit ≤ slot_count }
    ensures read { Reads (λ x. x) (slots_from limit count slots) input.old result input.new }
{
    let mut known = slots;
    let mut least = 0;
    for _done in 0..count {
        let (index, value) = read_slot(input, limit, least)?;
        known.set(index, value);
        least = index + 1;
    }
    Ok(known)
}

/// Reads the slots whose indexes are below `limit`; the others are top.
#[tactic(auto, unfolding(crate::specs::Slots::slots_at))]
pub fn read_slots(
    alloc: Global,
    input: &mut Input<'_>,
    limit: u16,
) -> Result<Slots<Value>, CertFault>
    requires { limit ≤ slot_count }
    ensures read { ReadsOrEnds (λ x. x) (slots_at limit) input.old result input.new }
{
    let at = input.at();
    let count = read_u16(input)?;
    refuse_if(count > SLOTS, CertKind::TooMany, at)?;
    let slots = Slots::new(alloc, Value::top())?;
    read_known(input, limit, count, slots)
}
