//! A certificate: what holds at each site of each context, this project's own.

use kc_plain::Items;
use kc_state::{AbsState, Key, Site, Summary, UserState};

/// The most contexts of a certificate.
pub const MAX_CONTEXTS: usize = 1024;

/// The most nodes of a certificate.
pub const MAX_NODES: usize = 16_384;

/// The SHA-256 of the bytes of the image's file and of the description's.
#[derive(Clone, Copy, PartialEq, Eq, Debug)]
pub struct Digests {
    pub image: [u8; 32],
    pub config: [u8; 32],
}

/// An entry into the kernel with what it interrupts, and what it may do until it returns.
#[derive(Clone, Copy, PartialEq, Eq, Debug)]
pub struct Context {
    pub key: Key,
    pub summary: Summary,
}

/// What is known at a site of a context.
#[derive(Drop)]
pub struct Node {
    /// The number of the context, counted from 0.
    pub context: u32,
    pub site: Site,
    pub state: AbsState,
}

/// A certificate as it is read. That it meets the conditions is what `check` tests.
#[derive(Drop)]
pub struct Certificate {
    pub digests: Digests,
    /// What is known while the user runs.
    pub user: UserState,
    /// The number of the description's stacks.
    pub stacks: u8,
    /// Rising by key.
    pub contexts: Items<Context>,
    /// Rising by context, address, and whether the site is inside a handler.
    pub nodes: Items<Node>,
}
