//! Room for the states that the abstract calls give, this project's own.

ghost use Rattle.std.specs.Prelude.{◌≡◌, IfOk};
ghost use Rattle.kc_state.specs.State.{state_top};

use crate::state::AbsState;
use kc_plain::NoMemory;
use std::alloc::Global;

/// States that calls without memory write into.
#[derive(Drop)]
pub struct Scratch {
    /// The state after an instruction, after a handler's end, or at an entry.
    pub out: AbsState,
    /// The state after an event's return.
    pub back: AbsState,
}

impl Scratch {
    /// Two states of which nothing is known.
    pub fn new(alloc: Global) -> Result<Scratch, NoMemory>
        ensures tops { IfOk result (λ scratch. (scratch.out ≡ state_top) × (scratch.back ≡ state_top)) }
    {
        Ok(Scratch {
            out: AbsState::new(alloc)?,
            back: AbsState::new(alloc)?,
        })
    }
}
