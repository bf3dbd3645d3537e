//! What is known of the processor, this project's own.

use kc_space::{GsPair, Latches, MapState};
use kc_value::Value;

/// The parts of an abstract state that aren't memory.
#[derive(Clone, Copy, PartialEq, Eq, Debug)]
pub struct AbsCpu {
    /// The registers by their numbers.
    pub regs: [Value; 16],
    pub flags: Value,
    pub gs: GsPair,
    pub map: MapState,
    pub latches: Latches,
}
