//! Abstract states, this project's own.

ghost use Rattle.std.specs.Prelude.{◌≡◌, IfOk, IsTrue, ◌↔◌};
ghost use Rattle.kc_lattice.specs.Laws.{AllAlike};
ghost use Rattle.kc_state.specs.State.{IsState, state_below, state_joined, state_top, top_of_state, state_rank};
ghost use Rattle.kc_state.specs.StateLaws.{state_laws};

use kc_frames::{Floor, Floors, Slots};
use kc_lattice::{Domain, is_top_each, join_each, leq_each, set_top_each, tell_each};
use kc_plain::NoMemory;
use kc_space::{GsPair, Latches, MapState, Tri, Who};
use kc_value::Value;
use std::alloc::Global;

/// What is known of the machine at a site of kernel code.
#[derive(Drop)]
pub struct AbsState {
    /// The registers by their numbers.
    pub regs: [Value; 16],
    pub flags: Value,
    pub gs: GsPair,
    pub map: MapState,
    pub latches: Latches,
    pub floors: Floors,
    pub slots: Slots<Value>,
}

impl AbsState {
    /// The top: nothing is known.
    pub fn new(alloc: Global) -> Result<AbsState, NoMemory>
        ensures top { IfOk result (λ state. state ≡ state_top) }
    {
        Ok(AbsState {
            regs: [Value::top(); 16],
            flags: Value::top(),
            gs: GsPair {
                active: Who::Any,
                inactive: Who::Any,
            },
            map: MapState::Any,
            latches: Latches {
                nmi_blocked: Tri::Any,
                shadow: Tri::Any,
                mcip: Tri::Any,
            },
            floors: Floors {
                at: [Floor::At(0); 16],
            },
            slots: Slots::new(alloc, Value::top())?,
        })
    }

    /// Makes it equal to `other`. It takes no memory.
    pub fn copy_from(&mut self, other: &AbsState)
        ensures value { self.new ≡ other.now }
    {
        self.regs = other.regs;
        self.flags = other.flags;
        self.gs = other.gs;
        self.map = other.map;
        self.latches = other.latches;
        self.floors = other.floors;
        self.slots.copy_from(&other.slots);
    }
}

impl Domain for AbsState {
    ghost valid = { IsState };

    ghost alike = { AllAlike };

    ghost below = { state_below };

    ghost joined = { state_joined };

    ghost top_of = { top_of_state };

    ghost rank = { state_rank };

    ghost laws = { state_laws };

    fn leq(&self, other: &AbsState) -> bool {
        leq_each(&self.regs, &other.regs)
            && self.flags.leq(&other.flags)
            && self.gs.leq(&other.gs)
            && self.map.leq(&other.map)
            && self.latches.leq(&other.latches)
            && self.floors.leq(&other.floors)
            && self.slots.leq(&other.slots)
    }

    fn join(&mut self, other: &AbsState) {
        self.slots.whole();
        other.slots.whole();
        join_each(&mut self.regs, &other.regs);
        self.flags.join(&other.flags);
        self.gs.join(&other.gs);
        self.map.join(&other.map);
        self.latches.join(&other.latches);
        self.floors.join(&other.floors);
        self.slots.join(&other.slots);
    }

    fn is_top(&self) -> bool {
        is_top_each(&self.regs)
            && self.flags.is_top()
            && self.gs.is_top()
            && self.map.is_top()
            && self.latches.is_top()
            && self.floors.is_top()
            && self.slots.is_top()
    }

    fn set_top(&mut self) {
        set_top_each(&mut self.regs);
        self.flags.set_top();
        self.gs.set_top();
        self.map.set_top();
        self.latches.set_top();
        self.floors.set_top();
        self.slots.set_top();
    }

    fn tell(&self) {
        tell_each(&self.regs);
        self.flags.tell();
        self.floors.tell();
        self.slots.tell();
    }
}
