//! The table as a certificate: contexts rising by key, and nodes by context, address and whether they are inside a handler.

ghost use Rattle.std.specs.Prelude.{◌≡◌, IfOk};

use crate::contexts::Counted;
use crate::table::{Position, Table};
use indexmap::IndexSet;
use kc_cert::{Certificate, Context, Digests, Node, node_order};
use kc_plain::{Items, NoMemory};
use kc_regions::Config;
use kc_state::{AbsState, Site};
use std::alloc::Global;
use std::cmp::Ordering;

// How many stacks the description has.
fn stack_count(cfg: &Config) -> u8 {
    let mut count: u8 = 0;
    for region in cfg.regions.list() {
        if region.kind.is_stack() {
            count = count.saturating_add(1);
        }
    }
    count
}

// The contexts in their order, and for each number the place of its context.
fn contexts_in_order(
    alloc: Global,
    mut counted: Vec<Counted>,
) -> Result<(Items<Context>, Vec<u32>), NoMemory> {
    counted.sort_by(|one: &Counted, other: &Counted| -> Ordering { one.key.order(&other.key) })?;
    let mut contexts = Items::new(alloc);
    let mut places = Vec::new(alloc);
    for _ in 0..counted.len() {
        places.push(0)?;
    }
    let mut place: u32 = 0;
    for one in counted {
        if let Some(to) = places.get_mut(one.number) {
            *to = place;
        }
        contexts.push(Context {
            key: one.key,
            summary: one.summary,
        })?;
        place = place.saturating_add(1);
    }
    Ok((contexts, places))
}

fn node_at(
    positions: &IndexSet<Position>,
    places: &[u32],
    number: usize,
    state: AbsState,
) -> Option<Node> {
    let (context, at, inside) = *positions.get_index(number)?;
    let context = *places.get(context)?;
    Some(Node {
        context,
        site: Site { at, inside },
        state,
    })
}

// The nodes in their order.
fn nodes_in_order(
    alloc: Global,
    positions: &IndexSet<Position>,
    places: &[u32],
    mut states: Vec<AbsState>,
) -> Result<Items<Node>, NoMemory> {
    let mut nodes = Vec::new(alloc);
    while let Some(state) = states.pop() {
        let number = states.len();
        if let Some(node) = node_at(positions, places, number, state) {
            nodes.push(node)?;
        }
    }
    nodes.sort_by(|one: &Node, other: &Node| -> Ordering { node_order(one, other) })?;
    Ok(Items::from_vec(nodes))
}

/// The certificate of the table.
pub(crate) fn certificate_of(
    alloc: Global,
    cfg: &Config,
    digests: &Digests,
    table: Table,
) -> Result<Certificate, NoMemory>
    ensures digests { IfOk result (λ c. c.digests ≡ digests.now) }
{
    let (contexts, places) = contexts_in_order(alloc, table.contexts.counted()?)?;
    let (user, nodes) = table.into_parts();
    let (positions, states) = nodes.into_parts()?;
    let nodes = nodes_in_order(alloc, &positions, places.as_slice(), states)?;
    Ok(Certificate {
        digests: *digests,
        user,
        stacks: stack_count(cfg),
        contexts,
        nodes,
    })
}
