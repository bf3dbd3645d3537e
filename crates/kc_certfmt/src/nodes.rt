//! The nodes of a certificate, read one by one.

ghost use Rattle.std.specs.Prelude.{◌≡◌, ◌-◌, ◌<◌, ◌≤◌, length, slice_get, MatchResult, OnOk, ◌+◌};
ghost use Rattle.kc_rules.specs.Rules.{Gives};
ghost use Rattle.kc_cert.specs.Table.{position_numbers};
ghost use Rattle.kc_cert.specs.declared.certificate.TheConstants.{MAX_NODES};
ghost use Rattle.kc_certfields.specs.Fault.{no_memory};
ghost use Rattle.kc_certfields.specs.Reads.{Reads, one_of};
ghost use Rattle.kc_certfmt.specs.Reading.{last_of, position_rises as is_position_rising, position_at, plain_state_at, new_state_at, shared_state_at, node_with, next_node};
ghost use Rattle.kc_certfmt.specs.Steps.{Becomes};

use crate::head::Head;
use crate::list::{NodeList, PushEnd};
use kc_cert::Node;
use kc_certfields::{
    CertFault, CertKind, Input, read_bit, read_state, read_u32, read_u64, refuse_if,
};
use kc_certform::PLAIN;
use kc_state::{AbsState, Site};
use std::alloc::Global;

/// Where a node is: the number of its context, and its site.
type Position = (u32, Site);

fn numbers(position: &Position) -> [u64; 3]
    ensures { result ≡ position_numbers position.now }
{
    let (context, site) = position;
    [
        u64::from(*context),
        site.at,
        if site.inside { 1 } else { 0 },
    ]
}

// Whether the position is above that of the last node.
fn position_rises(before: &[Node], position: &Position) -> bool
    ensures value { result ≡ is_position_rising (last_of before.now) position.now }
{
    match before.last() {
        None => true,
        Some(last) => numbers(&(last.context, last.site))
            .cmp(&numbers(position))
            .is_lt(),
    }
}

// The position of a node after these, where there are so many contexts.
#[tactic(auto, unfolding(crate::specs::Reading::position_at))]
fn read_position(
    input: &mut Input<'_>,
    contexts: u32,
    before: &[Node],
) -> Result<Position, CertFault>
    ensures read { Reads (λ x. x) (position_at contexts before.now) input.old result input.new }
{
    let at = input.at();
    let context = read_u32(input)?;
    refuse_if(context >= contexts, CertKind::Range, at)?;
    let address = read_u64(input)?;
    let inside = read_bit(input)?;
    let position = (
        context,
        Site {
            at: address,
            inside,
        },
    );
    refuse_if(!position_rises(before, &position), CertKind::Order, at)?;
    Ok(position)
}

// A node at this position.
fn node_at(position: Position, state: AbsState) -> Node
    ensures value { result ≡ record { context = position.0; site = position.1; state = state } }
{
    let (context, site) = position;
    Node {
        context,
        site,
        state,
    }
}

// Adds the node at this position, whose state follows.
#[tactic(auto, unfolding(crate::specs::Reading::plain_state_at))]
fn add_plain(
    alloc: Global,
    input: &mut Input<'_>,
    list: &mut NodeList,
    position: Position,
    stacks: u8,
) -> Result<(), CertFault>
    requires { stacks ≤ 16 }
    ensures read { Becomes (node_with list.old position (plain_state_at stacks)) input.old list.old result list.new input.new }
    ensures more { OnOk result (length list.new.nodes ≡ length list.old.nodes + 1) }
{
    let state = read_state(alloc, input, stacks)?;
    list.push(node_at(position, state))?;
    Ok(())
}

// Adds the node at this position, whose state follows and wasn't written before.
#[tactic(auto, unfolding(crate::specs::Reading::new_state_at))]
fn add_new(
    alloc: Global,
    input: &mut Input<'_>,
    list: &mut NodeList,
    position: Position,
    stacks: u8,
) -> Result<(), CertFault>
    requires stacks { stacks ≤ 16 }
    requires few { length list.old.nodes < MAX_NODES }
    ensures read { Becomes (node_with list.old position (new_state_at stacks list.old.written)) input.old list.old result list.new input.new }
    ensures more { OnOk result (length list.new.nodes ≡ length list.old.nodes + 1) }
{
    let at = input.at();
    let state = read_state(alloc, input, stacks)?;
    match list.push_new(node_at(position, state)) {
        Ok(()) => Ok(()),
        Err(PushEnd::Known) => Err(CertFault {
            kind: CertKind::Order,
            at,
        }),
        Err(PushEnd::NoMemory) => Err(CertFault {
            kind: CertKind::NoMemory,
            at: 0,
        }),
    }
}

// A state once more.
fn copy_state(alloc: Global, state: &AbsState) -> Result<AbsState, CertFault>
    ensures value { MatchResult result (λ s. s ≡ state.now) (λ e. e ≡ no_memory) }
{
    let mut copy = AbsState::new(alloc)?;
    copy.copy_from(state);
    Ok(copy)
}

// The state with this number among those written, where it is named at this offset.
fn shared(alloc: Global, list: &NodeList, share: u32, at: u64) -> Result<AbsState, CertFault>
    requires first { 0 < share }
    ensures value { Gives no_memory (λ x. x) result (one_of (slice_get list.now.written (share - 1)) at) }
{
    match list.written_state(share) {
        Some(state) => copy_state(alloc, state),
        None => Err(CertFault {
            kind: CertKind::Range,
            at,
        }),
    }
}

// Adds the node at this position, whose share follows, and where it is 0 a state.
#[tactic(auto, unfolding(crate::specs::Reading::shared_state_at))]
fn add_shared(
    alloc: Global,
    input: &mut Input<'_>,
    list: &mut NodeList,
    position: Position,
    stacks: u8,
) -> Result<(), CertFault>
    requires stacks { stacks ≤ 16 }
    requires few { length list.old.nodes < MAX_NODES }
    ensures read { Becomes (node_with list.old position (shared_state_at stacks list.old.written)) input.old list.old result list.new input.new }
    ensures more { OnOk result (length list.new.nodes ≡ length list.old.nodes + 1) }
{
    let at = input.at();
    let share = read_u32(input)?;
    if share == 0 {
        return add_new(alloc, input, list, position, stacks);
    }
    let state = shared(alloc, list, share, at)?;
    list.push(node_at(position, state))?;
    Ok(())
}

/// Reads a node and adds it to these, where there are so many contexts.
pub fn add_node(
    alloc: Global,
    input: &mut Input<'_>,
    list: &mut NodeList,
    head: &Head,
    contexts: u32,
) -> Result<(), CertFault>
    requires stacks { head.now.stacks ≤ 16 }
    requires few { length list.old.nodes < MAX_NODES }
    ensures read { Becomes (next_node head.now contexts list.old) input.old list.old result list.new input.new }
    ensures more { OnOk result (length list.new.nodes ≡ length list.old.nodes + 1) }
{
    let position = read_position(input, contexts, list.as_slice())?;
    if head.version == PLAIN {
        add_plain(alloc, input, list, position, head.stacks)
    } else {
        add_shared(alloc, input, list, position, head.stacks)
    }
}
