//! Which events may come at a site of kernel code.

ghost use Rattle.std.specs.Prelude.{◌≡◌, ◌≤◌, true, Option};
ghost use Rattle.kc_insn.specs.Encodable.{is_encodable};
ghost use Rattle.kc_regions.specs.Lookup.{gate_of};
ghost use Rattle.kc_state.specs.AbsEvents.{HasStack, handler_called_by, may_be_open, takes_irq, takes_debug, takes_fault, arrives, is_gate, comes};
ghost use Rattle.kc_absevent.specs.Covers.{CoversEvents};
ghost use Rattle.kc_absevent.specs.Sets.{has_vector, IsSetOf};

use crate::event_set::EventSet;
use crate::faults::may_fault;
use crate::user::{MACHINE_CHECK, NMI, may_be_clear};
use kc_bits::Bits;
use kc_insn::Insn;
use kc_lattice::Domain;
use kc_regions::{Config, Gate, Handler};
use kc_state::{AbsState, Key, Moment, Site, cpu_of};

// The vectors of debug exceptions and page faults, and the least one of a device.
const DEBUG: u8 = 1;

const PAGE_FAULT: u8 = 14;

const FIRST_DEVICE: u8 = 32;

// The handler that the instruction calls.
pub(crate) fn handler_called_by(cfg: &Config, insn: &Insn) -> Option<Handler>
    ensures { result ≡ handler_called_by cfg.now insn.now }
{
    match *insn {
        Insn::Call(target) => match cfg.handler_of(target) {
            Some(h) => cfg.handlers.get(usize::from(h)).copied(),
            None => None,
        },
        _ => None,
    }
}

// Which kinds of events may come.
#[derive(Clone, Copy)]
struct Arrivals {
    irq: bool,
    nmi: bool,
    debug: bool,
    check: bool,
    fault: bool,
}

// Whether IF may be set.
fn may_be_open(flags: &Bits) -> bool
    ensures { result ≡ may_be_open flags.now }
{
    (flags.zeros >> 9) & 1 != 1
}

fn takes_irq(cfg: &Config, site: &Site, state: &AbsState, insn: &Insn) -> bool
    ensures { result ≡ takes_irq cfg.now site.now state.now insn.now }
{
    if !may_be_clear(state.latches.shadow) {
        return false;
    }
    if may_be_open(&state.flags.bits) {
        return true;
    }
    match handler_called_by(cfg, insn) {
        Some(h) => site.inside && h.irq,
        None => false,
    }
}

fn takes_debug(cfg: &Config, site: &Site, insn: &Insn) -> bool
    ensures { result ≡ takes_debug cfg.now site.now insn.now }
{
    if site.inside {
        match handler_called_by(cfg, insn) {
            Some(h) => h.debug,
            None => false,
        }
    } else {
        match cfg.regions.of(site.at) {
            Some(region) => !region.quiet,
            None => false,
        }
    }
}

#[tactic(auto, using(kc_state::proofs::KeyLemmas::key_place))]
fn takes_fault(cfg: &Config, key: &Key, site: &Site, state: &AbsState, insn: &Insn, len: u8) -> bool
    requires encodable { is_encodable insn.now ≡ true }
    requires stack { HasStack cfg.now key.now }
    ensures { result ≡ takes_fault cfg.now key.now site.now state.now insn.now len }
{
    if site.inside {
        match handler_called_by(cfg, insn) {
            Some(h) => h.fault,
            None => false,
        }
    } else {
        cfg.tell();
        let cpu = cpu_of(state);
        let m = Moment {
            cfg,
            key,
            cpu: &cpu,
            slots: &state.slots,
            next: site.at.wrapping_add(u64::from(len)),
        };
        may_fault(&m, insn)
    }
}

// Whether the event of this gate may come.
fn arrives(all: Arrivals, gate: &Gate) -> bool
    ensures { result ≡ arrives (record {
      irq = all.irq;
      nmi = all.nmi;
      debug = all.debug;
      check = all.check;
      fault =
          all.fault;
    }) gate.now }
{
    if FIRST_DEVICE <= gate.vector {
        !gate.user && all.irq
    } else if gate.vector == NMI {
        all.nmi
    } else if gate.vector == DEBUG {
        all.debug
    } else if gate.vector == MACHINE_CHECK {
        all.check
    } else if gate.vector == PAGE_FAULT {
        all.fault
    } else {
        false
    }
}

// The vectors of the gates by which an event may come.
#[tactic(auto, using(crate::proofs::GateLemmas::walked_none, crate::proofs::GateLemmas::walked_added, crate::proofs::GateLemmas::walked_kept, crate::proofs::GateLemmas::walked_all))]
fn arriving(cfg: &Config, all: Arrivals) -> EventSet
    ensures { IsSetOf result.vectors
        (λ v. is_gate (arrives (record {
          irq = all.irq;
          nmi = all.nmi;
          debug = all.debug;
          check = all.check;
          fault =
              all.fault;
        })) (gate_of cfg.now.gates v)) }
{
    cfg.tell();
    let mut events = EventSet::new();
    for gate in cfg.gates.as_slice() {
        if arrives(all, gate) {
            events.add(gate.vector);
        }
    }
    events
}

/// The vectors of the events that may come at the site, before the instruction `insn` of `len` bytes or
/// inside the handler that it calls. It takes no memory.
pub fn events_at(
    cfg: &Config,
    key: &Key,
    site: &Site,
    state: &AbsState,
    insn: &Insn,
    len: u8,
) -> EventSet
    requires encodable { is_encodable insn.now ≡ true }
    requires length { (1 ≤ len) × (len ≤ 15) }
    requires stack { HasStack cfg.now key.now }
    ensures value { IsSetOf result.vectors (comes cfg.now key.now site.now state.now insn.now len) }
    // Each event that the machine allows there, where the state describes it, is in the set.
    ensures covers { CoversEvents cfg.now key.now site.now state.now insn.now len result.vectors }
{
    cfg.tell();
    state.tell();
    let all = Arrivals {
        irq: takes_irq(cfg, site, state, insn),
        nmi: may_be_clear(state.latches.nmi_blocked),
        debug: takes_debug(cfg, site, insn),
        check: may_be_clear(state.latches.mcip),
        fault: takes_fault(cfg, key, site, state, insn, len),
    };
    arriving(cfg, all)
}
