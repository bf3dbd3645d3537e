//! The order in which events are asked. This project's own.

ghost use Rattle.std.specs.Prelude.{◌≡◌, Bool, ◌+◌, ◌∷◌, ◌++◌, [], ◌<◌, ◌≤◌, length};
ghost use Rattle.kc_regions.specs.Lookup.{gate_of};
ghost use Rattle.kc_regions.specs.declared.entry.Gate.{Gate as GateValue};
ghost use Rattle.kc_state.specs.AbsEvents.{is_gate};
ghost use Rattle.kc_cert.specs.Placed.{is_maskable, is_trap, vectors_in_order, vectors_of};

use kc_regions::{Config, Gate};
use std::marker::Model;

const DEBUG: u8 = 1;

const NMI: u8 = 2;

const PAGE_FAULT: u8 = 14;

const MACHINE_CHECK: u8 = 18;

/// The least vector of a device.
const FIRST_DEVICE: u8 = 32;

/// Room for two lists of different vectors, and four.
const ROOM: usize = 516;

/// The vectors of the description's gates in the order in which events are asked: maskable ones rising, NMI, debug,
/// machine check, page fault, and traps rising. Contracts see them as their list.
#[derive(Drop)]
pub struct Vectors {
    items: [u8; ROOM],
    len: usize,
}

impl Model for Vectors {
    ghost use Rattle.std.specs.Prelude.{List, ℕ, ◌≤◌, take};

    ghost Value = { List ℕ };

    ghost view = { λ v. take v.len v.items };

    ghost invariant = { λ v. v.len ≤ 516 };
}

/// A kind of events that are asked rising by their vectors.
trait Kind {
    ghost has: { Self → GateValue → Bool };

    /// Whether the gate's event is one.
    fn has(&self, gate: &Gate) -> bool
        ensures { result ≡ has self.now gate.now };
}

/// Interrupts that IF masks.
struct Maskable;

impl Kind for Maskable {
    ghost has = { λ self. is_maskable };

    fn has(&self, gate: &Gate) -> bool {
        FIRST_DEVICE <= gate.vector && !gate.user
    }
}

/// Exceptions that user code alone raises.
struct Trap;

impl Kind for Trap {
    ghost has = { λ self. is_trap };

    fn has(&self, gate: &Gate) -> bool {
        if FIRST_DEVICE <= gate.vector {
            gate.user
        } else {
            !(gate.vector == NMI
                || gate.vector == DEBUG
                || gate.vector == MACHINE_CHECK
                || gate.vector == PAGE_FAULT)
        }
    }
}

// Whether there is a gate of this vector, and it is of the kind.
fn has_gate<K: Kind>(cfg: &Config, kind: &K, v: u8) -> bool
    ensures { result ≡ is_gate (K.has kind.now) (gate_of cfg.now.gates v) }
{
    match cfg.gate(v) {
        Some(gate) => kind.has(&gate),
        None => false,
    }
}

impl Vectors {
    /// Those of this description.
    pub fn in_order(cfg: &Config) -> Vectors
        ensures value { result ≡ vectors_in_order cfg.now }
    {
        let mut all = Vectors {
            items: [0; ROOM],
            len: 0,
        };
        all.add(cfg, &Maskable);
        all.push(NMI);
        all.push(DEBUG);
        all.push(MACHINE_CHECK);
        all.push(PAGE_FAULT);
        all.add(cfg, &Trap);
        all
    }

    // Adds the vectors of the gates of this kind.
    fn add<K: Kind>(&mut self, cfg: &Config, kind: &K)
        requires { length self.old ≤ 260 }
        ensures value { self.new ≡ self.old ++ vectors_of cfg.now (K.has kind.now) }
        ensures count { length self.new ≤ length self.old + 256 }
    {
        for v in 0..=255u8 {
            if has_gate(cfg, kind, v) {
                self.push(v);
            }
        }
    }

    fn push(&mut self, v: u8)
        requires { length self.old < ROOM }
        ensures { self.new ≡ self.old ++ v ∷ [] }
    {
        self.items[self.len] = v;
        self.len += 1;
    }

    /// They as a slice.
    pub fn as_slice(&self) -> &[u8]
        ensures items { result.now ≡ self.now }
    {
        &self.items[..self.len]
    }
}
