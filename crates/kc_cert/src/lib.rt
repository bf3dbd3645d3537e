//! Certificates, the conditions that they meet, and the refusal of one that doesn't.
#![tactic(auto)]

mod certificate;
mod code;
mod laws;
mod lookup;
mod refusal;
mod sites;

pub use certificate::{Certificate, Context, Digests, MAX_CONTEXTS, MAX_NODES, Node};
pub use code::insn_at;
pub use laws::no_refusal;
pub use lookup::{entry_site, node_at, node_order, nodes_of, number_of};
pub use refusal::{Counts, Event, Refusal, Spot};
pub use sites::{NodeSites, Sites, find_site, first_from};
