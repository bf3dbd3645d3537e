//! What an event interrupts, this project's own.

use kc_frames::Floors;
use kc_space::{GsPair, Latches, MapState};
use kc_value::Value;

/// What is known of an interrupted context, where each word of its processor is named by itself.
#[derive(Clone, Copy, PartialEq, Eq, Debug)]
pub struct Interrupted {
    /// Whether it is the kernel's, and else the user's.
    pub kernel: bool,
    pub gs: GsPair,
    pub map: MapState,
    pub latches: Latches,
    /// Below these no byte is live, its own bytes included.
    pub floors: Floors,
    /// The stack in which its RSP lies.
    pub stack: Option<u8>,
    /// The registers by their numbers.
    pub regs: [Value; 16],
    /// SS, RSP, RFLAGS, CS and RIP, as a delivery pushes them.
    pub frame: [Value; 5],
}
