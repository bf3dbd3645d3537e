//! Looking up the parts of a certificate. This project's own.

ghost use Rattle.std.specs.Prelude.{◌≡◌, ◌-◌, ◌^◌, ◌<◌, false, IfSome, length, map, option_copied, position, slice_index_or};
ghost use Rattle.std.specs.Ordering.{is_eq};
ghost use Rattle.kc_state.specs.declared.key.Key.{Key as KeyValue};
ghost use Rattle.kc_cert.specs.Placed.{entry_site};
ghost use Rattle.kc_cert.specs.Table.{IsFirstFrom, RisesBy, key_order, keys_of, node_at, nodes_of, number_of, position_of, position_order};

use crate::certificate::{Certificate, Context, Node};
use crate::sites::{NodeSites, find_site, first_from, order};
use kc_regions::Config;
use kc_state::{Key, Site};
use std::cmp::Ordering;

/// The node of context `i` at the site.
pub fn node_at<'a>(cert: &'a Certificate, i: u32, site: &Site) -> Option<&'a Node>
    requires few { length cert.now.nodes < 2 ^ 32 }
    requires rises { RisesBy position_order (map position_of cert.now.nodes) }
    ensures value { option_copied result ≡ node_at cert.now i site.now }
{
    let mut sites = NodeSites::new(cert);
    match find_site(&mut sites, i, site) {
        Some(at) => cert.nodes.get(at as usize),
        None => None,
    }
}

// Where the nodes of context `i` and those after it begin.
fn start_of(cert: &Certificate, i: u32) -> usize
    requires few { length cert.now.nodes < 2 ^ 32 }
    requires rises { RisesBy position_order (map position_of cert.now.nodes) }
    ensures { IsFirstFrom position_order (map position_of cert.now.nodes) (i, record { at = 0; inside = false }) result }
{
    let first = Site {
        at: 0,
        inside: false,
    };
    first_from(&mut NodeSites::new(cert), i, &first) as usize
}

/// The nodes of context `i`.
pub fn nodes_of(cert: &Certificate, i: u32) -> &[Node]
    requires few { length cert.now.nodes < 2 ^ 32 }
    requires rises { RisesBy position_order (map position_of cert.now.nodes) }
    requires number { i < 2 ^ 32 - 1 }
    ensures value { result.now ≡ nodes_of cert.now i }
{
    let (start, end) = (start_of(cert, i), start_of(cert, i + 1));
    let rest = &cert.nodes.as_slice()[start..];
    &rest[..end - start]
}

/// The order of two nodes: by context, then by address, then the instruction before the body.
pub fn node_order(one: &Node, other: &Node) -> Ordering
    ensures value { result ≡ position_order (position_of one.now) (position_of other.now) }
{
    order((one.context, one.site), other.context, &other.site)
}

// How the key of the context at index `i` stands to this one.
fn key_order_at(contexts: &[Context], i: usize, key: &Key) -> Ordering
    requires { i < length contexts.now }
    ensures { (d : KeyValue) → result ≡ key_order (slice_index_or (map (λ c. c.key) contexts.now) i d) key.now }
{
    let this = contexts[i].key;
    this.order(key)
}

// The index of the first context whose key isn't below this one, or the number of contexts.
fn first_context(contexts: &[Context], key: &Key) -> usize
    requires { RisesBy key_order (map (λ c. c.key) contexts.now) }
    ensures { IsFirstFrom key_order (map (λ c. c.key) contexts.now) key.now result }
{
    let mut low = 0;
    let mut high = contexts.len();
    while low < high {
        let middle = low + (high - low) / 2;
        if key_order_at(contexts, middle, key).is_lt() {
            low = middle + 1;
        } else {
            high = middle;
        }
    }
    low
}

// The index of the context of this key.
fn index_of(contexts: &[Context], key: &Key) -> Option<usize>
    requires { RisesBy key_order (map (λ c. c.key) contexts.now) }
    ensures value { result ≡ position (λ c. is_eq (key_order c.key key.now)) contexts.now }
    ensures within { IfSome result (λ i. i < length contexts.now) }
{
    let at = first_context(contexts, key);
    if at < contexts.len() && key_order_at(contexts, at, key).is_eq() {
        Some(at)
    } else {
        None
    }
}

/// The number of the context of this key.
pub fn number_of(cert: &Certificate, key: &Key) -> Option<u32>
    requires few { length cert.now.contexts < 2 ^ 32 }
    requires rises { RisesBy key_order (keys_of cert.now) }
    ensures value { result ≡ number_of cert.now key.now }
{
    match index_of(cert.contexts.as_slice(), key) {
        Some(i) => Some(i as u32),
        None => None,
    }
}

/// Where a context begins: at the entry of its gate, or of SYSCALL.
pub fn entry_site(cfg: &Config, key: &Key) -> Option<Site>
    ensures value { result ≡ entry_site cfg.now key.now }
{
    let at = if key.syscall {
        cfg.cpu.syscall
    } else {
        cfg.gate(key.vector)?.entry
    };
    Some(Site { at, inside: false })
}
