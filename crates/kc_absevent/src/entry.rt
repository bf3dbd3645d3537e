//! What an event enters, of which only the parts are held that its delivery makes: most entries are compared with what
//! is known there, and never built. This project's own.

ghost use Rattle.std.specs.Prelude.{◌≡◌, slice_set};
ghost use Rattle.kc_state.specs.AbsDelivery.{entered};
ghost use Rattle.kc_state.specs.State.{state_below};
ghost use Rattle.kc_value.specs.Value.{value_below};
ghost use Rattle.kc_lattice.specs.Rows.{rows_below};

use crate::covered::are_slots_covered;
use crate::entered::{Framed, enter, enter_flags, enter_latches};
use kc_frames::{Floors, Slots};
use kc_lattice::{Domain, leq_each};
use kc_regions::Gate;
use kc_state::{AbsState, Interrupted, Key};
use kc_value::Value;
use std::marker::Model;

// RSP's number among the registers.
const RSP: usize = 4;

/// What an event enters. Contracts see it as the key of the context and what is known at its entry.
#[derive(Drop)]
pub struct Entry<'a> {
    pub key: Key,
    pub(crate) interrupted: &'a Interrupted,
    pub(crate) slots: &'a Slots<Value>,
    pub(crate) gate: Gate,
    pub(crate) rsp: Value,
    pub(crate) floors: Floors,
}

impl<'a> Model for Entry<'a> {
    ghost use Rattle.kc_state.specs.AbsDelivery.{entered};
    ghost use Rattle.kc_state.specs.declared.key.Key.{Key as KeyValue};
    ghost use Rattle.kc_state.specs.declared.state.AbsState.{AbsState as StateValue};

    ghost Value = { KeyValue × StateValue };

    ghost view = { λ e. (e.key, entered e.interrupted.now e.slots.now e.gate e.rsp e.floors) };
}

// Whether the registers at the entry are at or below these.
fn are_regs_below(i: &Interrupted, rsp: &Value, regs: &[Value; 16]) -> bool
    ensures { result ≡ rows_below value_below (slice_set i.now.regs 4 rsp.now) regs.now }
{
    let mut own = i.regs;
    own[RSP] = *rsp;
    leq_each(&own, regs)
}

impl<'a> Entry<'a> {
    /// Whether what is known at the entry is at or below this state. It takes no memory.
    pub fn is_below(&self, state: &AbsState) -> bool
        ensures value { result ≡ state_below self.now.1 state.now }
    {
        let i = self.interrupted;
        let frame = Framed { frame: &i.frame };
        are_regs_below(i, &self.rsp, &state.regs)
            && enter_flags(i, &self.gate).leq(&state.flags)
            && i.gs.leq(&state.gs)
            && i.map.leq(&state.map)
            && enter_latches(&i.latches, self.gate.vector).leq(&state.latches)
            && self.floors.leq(&state.floors)
            && are_slots_covered(self.slots, &frame, &state.slots)
    }

    /// Makes `state` what is known at the entry.
    pub(crate) fn put(&self, state: &mut AbsState)
        ensures { state.new ≡ self.now.1 }
    {
        enter(
            self.interrupted,
            self.slots,
            &self.gate,
            &self.rsp,
            &self.floors,
            state,
        );
    }
}
