//! C2: the form of a table. This project's own.

ghost use Rattle.std.specs.Prelude.{◌≡◌, ◌+◌, ◌<◌, ◌^◌, ◌↔◌, All, IsSomeAnd, IsTrue, drop, is_some, length, map, slice_index_or, true};
ghost use Rattle.std.specs.Ordering.{is_lt};
ghost use Rattle.kc_frames.specs.Floors.{none_live};
ghost use Rattle.kc_frames.specs.declared.floor.Floor.TheVariants.{At};
ghost use Rattle.kc_regions.specs.Region.{stacks_of};
ghost use Rattle.kc_state.specs.declared.key.Key.{Key as KeyValue};
ghost use Rattle.kc_value.specs.Value.{value_top};
ghost use Rattle.kc_cert.specs.Form.{HasForm, IsContext, IsNode};
ghost use Rattle.kc_cert.specs.Placed.{entry_site};
ghost use Rattle.kc_cert.specs.Table.{EachNumbered, Position, RisesBy, key_order, node_at, position_of, position_order};

use kc_cert::{
    Certificate, Context, MAX_CONTEXTS, MAX_NODES, Node, entry_site, node_at, node_order,
};
use kc_frames::Floor;
use kc_lattice::Domain;
use kc_regions::Config;

// How many stacks the description has.
fn stack_count(cfg: &Config) -> usize
    ensures { result ≡ length (stacks_of cfg.now.regions) }
{
    cfg.regions
        .list()
        .iter()
        .filter(|r| r.kind.is_stack())
        .count()
}

// Whether the slots that stand for no word of the TSS or of the description tell nothing.
fn are_user_slots(cfg: &Config, cert: &Certificate) -> bool
    ensures { IsTrue result ↔ All (λ v. v ≡ value_top) (drop (8 + length cfg.now.words) cert.now.user.slots) }
{
    let slots = &cert.user.slots;
    slots.whole();
    for i in 8 + cfg.words.len()..296 {
        if !slots.get(i as u16).is_top() {
            return false;
        }
    }
    true
}

// Whether the key at index `i` is less than the next one.
fn is_key_before(contexts: &[Context], i: usize) -> bool
    requires { i + 1 < length contexts.now }
    ensures { (d : KeyValue) → result ≡ is_lt (key_order (slice_index_or (map (λ c. c.key) contexts.now) i d)
        (slice_index_or (map (λ c. c.key) contexts.now) (i + 1) d)) }
{
    let (one, other) = (contexts[i].key, contexts[i + 1].key);
    one.order(&other).is_lt()
}

fn keys_rise(contexts: &[Context]) -> bool
    ensures { IsTrue result ↔ RisesBy key_order (map (λ c. c.key) contexts.now) }
{
    for i in 1..contexts.len() {
        if !is_key_before(contexts, i - 1) {
            return false;
        }
    }
    true
}

// Whether the node at index `i` is before the next one.
fn is_node_before(nodes: &[Node], i: usize) -> bool
    requires { i + 1 < length nodes.now }
    ensures { (d : Position) → result ≡ is_lt (position_order (slice_index_or (map position_of nodes.now) i d)
        (slice_index_or (map position_of nodes.now) (i + 1) d)) }
{
    node_order(&nodes[i], &nodes[i + 1]).is_lt()
}

fn nodes_rise(nodes: &[Node]) -> bool
    ensures { IsTrue result ↔ RisesBy position_order (map position_of nodes.now) }
{
    for i in 1..nodes.len() {
        if !is_node_before(nodes, i - 1) {
            return false;
        }
    }
    true
}

fn is_none_live(floor: Floor) -> bool
    ensures { IsTrue result ↔ (floor ≡ At none_live) }
{
    floor == Floor::At(u64::MAX)
}

// Whether of the stacks from this number on no byte is live.
fn none_live_from(floors: &[Floor; 16], stacks: u8) -> bool
    ensures { IsTrue result ↔ All (λ f. f ≡ At none_live) (drop stacks floors.now) }
{
    for s in usize::from(stacks)..16 {
        if !is_none_live(floors[s]) {
            return false;
        }
    }
    true
}

// Whether the node's context is there, and of stacks that the description lacks no byte is live.
fn is_node(cert: &Certificate, node: &Node) -> bool
    ensures { IsTrue result ↔ IsNode cert.now node.now }
{
    (node.context as usize) < cert.contexts.len()
        && none_live_from(&node.state.floors.at, cert.stacks)
}

fn are_nodes(cert: &Certificate) -> bool
    ensures { IsTrue result ↔ All (IsNode cert.now) cert.now.nodes }
{
    cert.nodes.as_slice().iter().all(|n| is_node(cert, n))
}

// Whether the context has the node of its entry.
fn has_entry(cfg: &Config, cert: &Certificate, i: u32, context: &Context) -> bool
    requires few { length cert.now.nodes < 2 ^ 32 }
    requires rises { RisesBy position_order (map position_of cert.now.nodes) }
    ensures { IsTrue result ↔ IsSomeAnd (entry_site cfg.now context.now.key)
        (λ site. is_some (node_at cert.now i site) ≡ true) }
{
    match entry_site(cfg, &context.key) {
        Some(site) => node_at(cert, i, &site).is_some(),
        None => false,
    }
}

fn is_context(cfg: &Config, cert: &Certificate, i: u32, context: &Context) -> bool
    requires few { length cert.now.nodes < 2 ^ 32 }
    requires rises { RisesBy position_order (map position_of cert.now.nodes) }
    ensures { IsTrue result ↔ IsContext cfg.now cert.now i context.now }
{
    context.key.keeps_rules(cert.stacks) && has_entry(cfg, cert, i, context)
}

fn are_contexts(cfg: &Config, cert: &Certificate) -> bool
    requires contexts { length cert.now.contexts < 2 ^ 32 }
    requires nodes { length cert.now.nodes < 2 ^ 32 }
    requires rises { RisesBy position_order (map position_of cert.now.nodes) }
    ensures { IsTrue result ↔ EachNumbered (IsContext cfg.now cert.now) cert.now.contexts }
{
    let contexts = cert.contexts.as_slice();
    for i in 0..contexts.len() {
        if !is_context(cfg, cert, i as u32, &contexts[i]) {
            return false;
        }
    }
    true
}

/// C2: whether the table has its form.
pub(crate) fn has_form(cfg: &Config, cert: &Certificate) -> bool
    ensures { IsTrue result ↔ HasForm cfg.now cert.now }
{
    let (contexts, nodes) = (cert.contexts.as_slice(), cert.nodes.as_slice());
    usize::from(cert.stacks) == stack_count(cfg)
        && are_user_slots(cfg, cert)
        && contexts.len() <= MAX_CONTEXTS
        && nodes.len() <= MAX_NODES
        && keys_rise(contexts)
        && nodes_rise(nodes)
        && are_nodes(cert)
        && are_contexts(cfg, cert)
}
