//! What `check` answers, this project's own.

use kc_state::{Condition, Site};

/// Where a condition fails.
#[derive(Clone, Copy, PartialEq, Eq, Debug)]
pub enum Spot {
    /// The table as a whole.
    Table,
    /// The user state.
    User,
    /// The context of this number.
    Context(u32),
    /// The node of this context at this site.
    Node(u32, Site),
}

/// What enters the kernel.
#[derive(Clone, Copy, PartialEq, Eq, Debug)]
pub enum Event {
    /// An exception or an interrupt.
    Vector(u8),
    Syscall,
}

/// The first condition that fails, where it does, and at which event.
#[derive(Clone, Copy, PartialEq, Eq, Debug)]
pub struct Refusal {
    pub condition: Condition,
    pub spot: Spot,
    /// One of C14 to C16 may fail at an event.
    pub event: Option<Event>,
}

/// How many contexts and nodes an accepted certificate has.
#[derive(Clone, Copy, PartialEq, Eq, Debug)]
pub struct Counts {
    pub contexts: u32,
    pub nodes: u32,
}
