//! The state of the machine. This project's own.

use kc_cpu::{Cpu, Latch};
use kc_mem::Memory;
use kc_plain::Items;

/// An interrupted context and the frame that leads back to it.
#[derive(Clone, Copy, PartialEq, Eq, Debug)]
pub struct Activation {
    /// Whether SYSCALL made it; an event's delivery did otherwise.
    pub syscall: bool,
    /// The event's vector; 0 for a syscall.
    pub vector: u8,
    /// The processor as it was interrupted.
    pub saved: Cpu,
    /// The aligned RSP from which the delivery pushed; 0 for a syscall.
    pub base: u64,
    /// The processor that a return has to restore: `saved` with the RIP, RFLAGS and RSP that
    /// handlers edited since. It is `saved` when the activation is made.
    pub due: Cpu,
}

/// The machine's state.
#[derive(Drop)]
pub struct State {
    pub cpu: Cpu,
    pub latch: Latch,
    pub mem: Memory,
    /// Whether a step stopped or broke; no later step is allowed.
    pub stopped: bool,
    /// The activations, the oldest first. It is empty exactly where the mode is User.
    pub chain: Items<Activation>,
}
