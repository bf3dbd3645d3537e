//! What is known where an event or SYSCALL enters the kernel. This project's own.

ghost use Rattle.std.specs.Prelude.{◌≡◌, get_or, Option};
ghost use Rattle.kc_bits.specs.Bits.{all_of, bits_and, flipped};
ghost use Rattle.kc_value.specs.Made.{IsPlace, of_bits};
ghost use Rattle.kc_value.specs.Value.{value_top};
ghost use Rattle.kc_state.specs.AbsDelivery.{cleared_flags, entered_latches, entered_slot, entered, entered_key, own_frame, syscall_state, syscall_key};

use crate::covered::Becomes;
use crate::interrupted::{interrupt_user, place_set, user_flags, user_rip};
use crate::user::{MACHINE_CHECK, NMI};
use kc_bits::Bits;
use kc_frames::{Change, Floors, Slots};
use kc_lattice::Domain;
use kc_regions::{Config, Gate};
use kc_space::{Latches, Tri};
use kc_state::{AbsState, Interrupted, Key, UserState};
use kc_value::{Sym, Value};

const RCX: usize = 1;

const RSP: usize = 4;

const R11: usize = 11;

// The flags that a gate clears: TF, bit 8 of RFLAGS, and for an interrupt gate IF, bit 9.
fn cleared_flags(trap: bool) -> u64
    ensures { result ≡ cleared_flags trap }
{
    if trap { 0x100 } else { 0x300 }
}

// What is known of RFLAGS with these flags cleared, at any place.
fn clear_flags(flags: &Bits, cleared: u64) -> Value
    ensures { result ≡ of_bits (bits_and flags.now (all_of (flipped cleared))) }
{
    Value {
        sym: Sym::Plain,
        bits: flags.and(&Bits::of(!cleared)),
        stacks: Value::top().stacks,
    }
}

/// The latches at an entry by the gate of this vector.
pub(crate) fn enter_latches(latches: &Latches, vector: u8) -> Latches
    ensures { result ≡ entered_latches latches.now vector }
{
    Latches {
        nmi_blocked: if vector == NMI {
            Tri::Yes
        } else {
            latches.nmi_blocked
        },
        shadow: Tri::No,
        mcip: if vector == MACHINE_CHECK {
            Tri::Yes
        } else {
            latches.mcip
        },
    }
}

/// What is known of RFLAGS at an entry by this gate.
pub(crate) fn enter_flags(i: &Interrupted, gate: &Gate) -> Value
    ensures { result ≡ of_bits (bits_and (get_or i.now.frame 2 value_top).bits
        (all_of (flipped (cleared_flags gate.now.trap)))) }
{
    let flags = i.frame[2];
    clear_flags(&flags.bits, cleared_flags(gate.trap))
}

/// The slots of an entry: those of the frame, from 40 on, have its words.
#[derive(Drop)]
pub(crate) struct Framed<'a> {
    pub frame: &'a [Value],
}

impl<'a> Change<Value> for Framed<'a> {
    ghost changed = { λ s. entered_slot s.frame.now };

    fn at(&self, i: u16, old: &Value) -> Value {
        if i < 40 {
            return old.plain();
        }
        match self.frame.get(usize::from(i - 40)) {
            Some(v) => *v,
            None => Value::top(),
        }
    }

    // Of the slots after those of the frame nothing is known.
    #[tactic(auto, using(crate::proofs::FrameForms::entered_top))]
    fn keeps(&self, i: u16, old: &Value) -> bool {
        usize::from(i) >= self.frame.len() + 40 && old.is_top()
    }
}

impl<'a> Becomes for Framed<'a> {
    ghost changed = { λ s. entered_slot s.frame.now };

    fn is_below(&self, i: u16, old: &Value, new: &Value) -> bool {
        self.at(i, old).leq(new)
    }

    #[tactic(auto, using(crate::proofs::FrameForms::entered_top))]
    fn keeps_rest(&self, i: u16, old: &Value) -> bool {
        usize::from(i) >= self.frame.len() + 40 && old.is_top()
    }
}

/// The state at an entry by this gate.
pub(crate) fn enter(
    i: &Interrupted,
    slots: &Slots<Value>,
    gate: &Gate,
    rsp: &Value,
    floors: &Floors,
    out: &mut AbsState,
)
    ensures { out.new ≡ entered i.now slots.now gate.now rsp.now floors.now }
{
    out.regs = i.regs;
    out.regs[RSP] = *rsp;
    out.flags = enter_flags(i, gate);
    out.gs = i.gs;
    out.map = i.map;
    out.latches = enter_latches(&i.latches, gate.vector);
    out.floors = *floors;
    out.slots.copy_from(slots);
    out.slots.redo(&Framed { frame: &i.frame });
}

/// The key of the context that is entered.
pub(crate) fn enter_key(i: &Interrupted, vector: u8, base: Option<u64>) -> Key
    ensures { result ≡ entered_key i.now vector base }
{
    Key {
        syscall: false,
        vector,
        kernel: i.kernel,
        gs: i.gs,
        map: i.map,
        stack: i.stack,
        base,
    }
}

/// RSP after a frame of `n` bytes on the interrupted stack.
pub(crate) fn own_frame(stack: Option<u8>, n: u8) -> Value
    requires { IsPlace stack }
    ensures { result ≡ own_frame stack n }
{
    Value {
        sym: Sym::Base(-i64::from(n)),
        bits: Bits { zeros: 0, ones: 0 },
        stacks: place_set(stack),
    }
}

/// The entry by SYSCALL (Intel SDM vol. 2B, "SYSCALL").
pub(crate) fn enter_syscall(cfg: &Config, user: &UserState, out: &mut AbsState) -> Key
    ensures key { result ≡ syscall_key cfg.now user.now }
    ensures state { out.new ≡ syscall_state cfg.now user.now }
{
    let i = interrupt_user(cfg, user);
    out.regs = i.regs;
    out.regs[RCX] = user_rip();
    out.regs[R11] = user_flags();
    out.flags = clear_flags(&user_flags().bits, cfg.cpu.fmask);
    out.gs = i.gs;
    out.map = i.map;
    out.latches = i.latches;
    out.floors = i.floors;
    out.slots.copy_from(&user.slots);
    out.slots.redo(&Framed { frame: &[] });
    Key {
        syscall: true,
        ..enter_key(&i, 0, None)
    }
}
