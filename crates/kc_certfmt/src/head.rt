//! What stands before the contexts of a certificate, and the contexts.

ghost use Rattle.std.specs.Prelude.{◌≡◌, ◌≤◌, IfOk};
ghost use Rattle.kc_certfields.specs.Reads.{Reads, ReadsOrEnds};
ghost use Rattle.kc_certform.specs.CertBytes.{magic};
ghost use Rattle.kc_certfmt.specs.Reading.{last_of, magic_at, version_at, stacks_at, count_at, head_at, key_rises as is_key_rising, context_at};

use kc_cert::{Context, Digests};
use kc_certfields::{
    CertFault, CertKind, Input, read_key, read_summary, read_u8, read_u32, read_user, refuse_if,
};
use kc_certform::{MAGIC, MAX_STACKS, PLAIN, SHARED};
use kc_state::{Key, UserState};
use std::alloc::Global;

/// What stands before the contexts.
#[derive(Drop)]
pub struct Head {
    pub version: u32,
    pub digests: Digests,
    pub stacks: u8,
    pub user: UserState,
}

// Reads these bytes.
fn read_magic(input: &mut Input<'_>, bytes: &[u8]) -> Result<(), CertFault>
    ensures read { Reads (λ x. x) (magic_at bytes.now) input.old result input.new }
{
    for byte in bytes {
        let at = input.at();
        let read = read_u8(input)?;
        refuse_if(read != *byte, CertKind::BadMagic, at)?;
    }
    Ok(())
}

#[tactic(auto, unfolding(crate::specs::Reading::version_at))]
fn read_version(input: &mut Input<'_>) -> Result<u32, CertFault>
    ensures read { Reads (λ x. x) version_at input.old result input.new }
{
    let at = input.at();
    let version = read_u32(input)?;
    refuse_if(
        !(version == PLAIN || version == SHARED),
        CertKind::Version,
        at,
    )?;
    Ok(version)
}

#[tactic(auto, unfolding(crate::specs::Reading::stacks_at))]
fn read_stacks(input: &mut Input<'_>) -> Result<u8, CertFault>
    ensures read { Reads (λ x. x) stacks_at input.old result input.new }
    ensures most { IfOk result (λ n. n ≤ 16) }
{
    let at = input.at();
    let stacks = read_u8(input)?;
    refuse_if(stacks > MAX_STACKS, CertKind::TooMany, at)?;
    Ok(stacks)
}

/// What stands before the count of contexts.
#[tactic(auto, unfolding(crate::specs::Reading::head_at))]
pub fn read_head(alloc: Global, input: &mut Input<'_>) -> Result<Head, CertFault>
    ensures read { ReadsOrEnds (λ x. x) head_at input.old result input.new }
    ensures stacks { IfOk result (λ head. head.stacks ≤ 16) }
{
    read_magic(input, &MAGIC)?;
    let version = read_version(input)?;
    let image = input.chunk::<32>()?;
    let config = input.chunk::<32>()?;
    let stacks = read_stacks(input)?;
    let user = read_user(alloc, input)?;
    Ok(Head {
        version,
        digests: Digests { image, config },
        stacks,
        user,
    })
}

/// A count up to `limit`.
#[tactic(auto, unfolding(crate::specs::Reading::count_at))]
pub fn read_count(input: &mut Input<'_>, limit: u32) -> Result<u32, CertFault>
    ensures read { Reads (λ x. x) (count_at limit) input.old result input.new }
    ensures most { IfOk result (λ n. n ≤ limit) }
{
    let at = input.at();
    let count = read_u32(input)?;
    refuse_if(count > limit, CertKind::TooMany, at)?;
    Ok(count)
}

// Whether the key is above that of the last context.
fn key_rises(before: &[Context], key: &Key) -> bool
    ensures value { result ≡ is_key_rising (last_of before.now) key.now }
{
    match before.last() {
        None => true,
        Some(last) => last.key.order(key).is_lt(),
    }
}

/// The context after these, whose key is above theirs.
#[tactic(auto, unfolding(crate::specs::Reading::context_at))]
pub fn read_context(
    input: &mut Input<'_>,
    stacks: u8,
    before: &[Context],
) -> Result<Context, CertFault>
    ensures read { Reads (λ x. x) (context_at stacks before.now) input.old result input.new }
{
    let at = input.at();
    let key = read_key(input, stacks)?;
    refuse_if(!key_rises(before, &key), CertKind::Order, at)?;
    let summary = read_summary(input)?;
    Ok(Context { key, summary })
}
