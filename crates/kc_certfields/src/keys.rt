//! Keys and summaries of contexts. Where a rule of keys joins two fields, the later is at fault.

ghost use Rattle.std.specs.Prelude.{◌≡◌, ◌≤◌};
ghost use Rattle.kc_certfields.specs.Reads.{Reads};
ghost use Rattle.kc_certfields.specs.Keys.{vector_at, bit_where, stack_at, base_at, key_at, summary_at};

use crate::fault::{CertFault, CertKind};
use crate::input::{Input, refuse_if};
use crate::numbers::{read_u32, read_u64};
use crate::spaces::{read_bit, read_gs, read_latches, read_map};
use kc_frames::Clobber;
use kc_state::{Key, Summary};

// The number of no stack.
const NO_STACK: u8 = 255;

/// A vector; SYSCALL has 0.
#[tactic(auto, unfolding(crate::specs::Keys::vector_at))]
fn read_vector(input: &mut Input<'_>, event: bool) -> Result<u8, CertFault>
    ensures read { Reads (λ x. x) (vector_at event) input.old result input.new }
{
    let at = input.at();
    let vector = input.byte()?;
    refuse_if(!(event || vector == 0), CertKind::Range, at)?;
    Ok(vector)
}

/// A bit that is 1 only where this may be.
#[tactic(auto, unfolding(crate::specs::Keys::bit_where))]
fn read_bit_where(input: &mut Input<'_>, may: bool) -> Result<bool, CertFault>
    ensures read { Reads (λ x. x) (bit_where may) input.old result input.new }
{
    let at = input.at();
    let bit = read_bit(input)?;
    refuse_if(!(may || !bit), CertKind::Range, at)?;
    Ok(bit)
}

/// The stack of the interrupted RSP; that of the user lies in none.
#[tactic(auto, unfolding(crate::specs::Keys::stack_at))]
fn read_stack(input: &mut Input<'_>, stacks: u8, kernel: bool) -> Result<Option<u8>, CertFault>
    ensures read { Reads (λ x. x) (stack_at stacks kernel) input.old result input.new }
{
    let at = input.at();
    let stack = input.byte()?;
    let fits = stack == NO_STACK || kernel && stack < stacks;
    refuse_if(!fits, CertKind::Range, at)?;
    Ok(if stack == NO_STACK { None } else { Some(stack) })
}

/// A base, or 0 where there is none.
#[tactic(auto, unfolding(crate::specs::Keys::base_at))]
fn read_base(input: &mut Input<'_>, based: bool) -> Result<Option<u64>, CertFault>
    ensures read { Reads (λ x. x) (base_at based) input.old result input.new }
{
    let at = input.at();
    let base = read_u64(input)?;
    refuse_if(!(based || base == 0), CertKind::Range, at)?;
    Ok(if based { Some(base) } else { None })
}

/// A key that keeps the rules of keys, where there are so many stacks.
#[tactic(auto, unfolding(crate::specs::Keys::key_at))]
pub fn read_key(input: &mut Input<'_>, stacks: u8) -> Result<Key, CertFault>
    ensures read { Reads (λ x. x) (key_at stacks) input.old result input.new }
{
    let event = read_bit(input)?;
    let vector = read_vector(input, event)?;
    let kernel = read_bit_where(input, event)?;
    let gs = read_gs(input)?;
    let map = read_map(input)?;
    let stack = read_stack(input, stacks, kernel)?;
    let based = read_bit_where(input, event)?;
    let base = read_base(input, based)?;
    Ok(Key {
        syscall: !event,
        vector,
        kernel,
        gs,
        map,
        stack,
        base,
    })
}

/// What a context may write and its latches at a return.
#[tactic(auto, unfolding(crate::specs::Keys::summary_at))]
pub fn read_summary(input: &mut Input<'_>) -> Result<Summary, CertFault>
    ensures read { Reads (λ x. x) summary_at input.old result input.new }
{
    let at = input.at();
    let stacks = read_u32(input)?;
    refuse_if(stacks >= 1 << 16, CertKind::Range, at)?;
    let words_at = input.at();
    let words = read_u64(input)?;
    refuse_if(words >= 1 << 40, CertKind::Range, words_at)?;
    let latches = read_latches(input)?;
    Ok(Summary {
        clobber: Clobber { stacks, words },
        latches,
    })
}
