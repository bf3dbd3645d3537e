//! Looking up the node of a context at a site by halving, with a count of probes. This project's own.

ghost use Rattle.std.specs.Prelude.{◌≡◌, ◌+◌, ◌-◌, ◌^◌, ◌<◌, ◌≤◌, ℕ, List, length, map, slice_get, slice_index_or, IfSome, Some, None, Contains};
ghost use Rattle.kc_cert.specs.Table.{IsFirstFrom, Position, RisesBy, position_numbers, position_of, position_order};

use crate::certificate::Certificate;
use kc_state::Site;
use std::cmp::Ordering;
use std::marker::Model;

/// A list of contexts' numbers with sites, of which one is seen at a time.
pub trait Sites {
    ghost sites: { Self → List Position };

    /// How many were looked at.
    ghost probes: { Self → ℕ };

    /// The length of the list.
    fn count(&self) -> u32
        ensures count { result ≡ length (sites self.now) };

    /// The item at index `i`: this is one probe.
    fn site(&mut self, i: u32) -> (u32, Site)
        requires within { i < length (sites self.old) }
        requires probes { probes self.old < 2 ^ 64 - 1 }
        ensures item { slice_get (sites self.old) i ≡ Some result }
        ensures sites { sites self.new ≡ sites self.old }
        ensures probe { probes self.new ≡ probes self.old + 1 };
}

/// The positions of a certificate's nodes in their order.
#[derive(Drop)]
pub struct NodeSites<'a> {
    cert: &'a Certificate,
    probes: u64,
    ghost few: { length cert.now.nodes < 2 ^ 32 },
}

impl<'a> NodeSites<'a> {
    /// Those of `cert`, of which none was looked at. It takes no memory.
    pub fn new(cert: &'a Certificate) -> NodeSites<'a>
        requires few { length cert.now.nodes < 2 ^ 32 }
        ensures sites { ⟦<NodeSites<'a> as Sites>⟧.sites result ≡ map position_of cert.now.nodes }
        ensures probes { ⟦<NodeSites<'a> as Sites>⟧.probes result ≡ 0 }
    {
        NodeSites { cert, probes: 0 }
    }
}

impl<'a> Sites for NodeSites<'a> {
    ghost sites = { λ s. map position_of s.cert.now.nodes };

    ghost probes = { λ s. s.probes };

    fn count(&self) -> u32 {
        self.cert.nodes.len() as u32
    }

    fn site(&mut self, i: u32) -> (u32, Site) {
        self.probes += 1;
        let node = &self.cert.nodes.as_slice()[i as usize];
        (node.context, node.site)
    }
}

fn numbers(context: u32, site: &Site) -> [u64; 3]
    ensures { result ≡ position_numbers (context, site.now) }
{
    [u64::from(context), site.at, if site.inside { 1 } else { 0 }]
}

// The order of two positions: by context, then by address, then the instruction before the body.
pub(crate) fn order(one: (u32, Site), context: u32, site: &Site) -> Ordering
    ensures { result ≡ position_order one (context, site.now) }
{
    numbers(one.0, &one.1).cmp(&numbers(context, site))
}

// How the item at index `i` stands to this one.
fn order_at<T: Sites>(sites: &mut T, i: u32, context: u32, site: &Site) -> Ordering
    requires within { i < length (T.sites sites.old) }
    requires probes { T.probes sites.old < 2 ^ 64 - 1 }
    ensures order { (d : Position)
        → result ≡ position_order (slice_index_or (T.sites sites.old) i d) (context, site.now) }
    ensures sites { T.sites sites.new ≡ T.sites sites.old }
    ensures probe { T.probes sites.new ≡ T.probes sites.old + 1 }
{
    order(sites.site(i), context, site)
}

/// The index of the first item that isn't before this one, or the length of the list. Each probe halves what is left.
pub fn first_from<T: Sites>(sites: &mut T, context: u32, site: &Site) -> u32
    requires rises { RisesBy position_order (T.sites sites.old) }
    requires probes { T.probes sites.old ≤ 2 ^ 63 }
    ensures first { IsFirstFrom position_order (T.sites sites.old) (context, site.now) result }
    ensures sites { T.sites sites.new ≡ T.sites sites.old }
    // As many probes as the length has binary digits, at most.
    ensures probes { (k : ℕ) → length (T.sites sites.old) < 2 ^ k → T.probes sites.new ≤ T.probes sites.old + k }
{
    let mut low = 0;
    let mut high = sites.count();
    while low < high {
        let middle = low + (high - low) / 2;
        if order_at(sites, middle, context, site).is_lt() {
            low = middle + 1;
        } else {
            high = middle;
        }
    }
    low
}

/// The index of this item.
pub fn find_site<T: Sites>(sites: &mut T, context: u32, site: &Site) -> Option<u32>
    requires rises { RisesBy position_order (T.sites sites.old) }
    requires probes { T.probes sites.old ≤ 2 ^ 63 }
    ensures found { IfSome result (λ i. slice_get (T.sites sites.old) i ≡ Some (context, site.now)) }
    ensures absent { result ≡ None → ¬ Contains (T.sites sites.old) (context, site.now) }
    ensures sites { T.sites sites.new ≡ T.sites sites.old }
    // At most one probe more than the length has binary digits.
    ensures probes { (k : ℕ) → length (T.sites sites.old) < 2 ^ k → T.probes sites.new ≤ T.probes sites.old + k + 1 }
{
    let at = first_from(sites, context, site);
    if at < sites.count() && order_at(sites, at, context, site).is_eq() {
        Some(at)
    } else {
        None
    }
}
