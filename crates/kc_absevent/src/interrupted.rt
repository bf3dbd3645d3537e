//! What is known of the words of an interrupted context. This project's own.

ghost use Rattle.std.specs.Prelude.{◌≡◌, ◌<◌, ◌≤◌, ◌^◌, List, Option, IfSome, length, option_copied};
ghost use Rattle.kc_bits.specs.Bits.{all_of, nothing_known};
ghost use Rattle.kc_frames.specs.Slots.{redone};
ghost use Rattle.kc_value.specs.Made.{IsPlace};
ghost use Rattle.kc_value.specs.Place.{place_bit};
ghost use Rattle.kc_state.specs.Places.{is_interrupted_rsp};
ghost use Rattle.kc_state.specs.AbsEvents.{HasStack, lists};
ghost use Rattle.kc_state.specs.AbsDelivery.{entry_of, own_register, in_region, is_relative, own_rsp, handler_flags, own_flags, own_rip, frame_words, depth_of, interrupted_at, user_cs, user_latches, user_registers, interrupted_user};
ghost use Rattle.kc_state.specs.Calls.{edited_rip, edited_flags, edited_rsp};

use crate::floors::{interrupt_floors, live_from};
use kc_bits::Bits;
use kc_frames::{Floor, Floors};
use kc_lattice::Domain;
use kc_regions::{Config, Handler, Region};
use kc_space::{GsPair, Latches, MapState, Tri, Who};
use kc_state::{AbsState, Interrupted, Key, Location, Site, UserState, loc, place};
use kc_value::{Sym, Value};

// The numbers of words of an interrupted processor: RSP's, and RIP, RFLAGS, CS and SS after the
// registers.
const RSP: u8 = 4;

const RIP: u8 = 16;

const RFLAGS: u8 = 17;

const CS: u8 = 18;

const SS: u8 = 19;

// The set of places with that outside all stacks alone.
const OUTSIDE: u32 = 0x1_0000;

const NOTHING: Bits = Bits { zeros: 0, ones: 0 };

// Word `w` of the context, of which these bits are known.
fn entry_of(w: u8, bits: &Bits) -> Value
    requires { w < 20 }
    ensures { result ≡ entry_of w bits.now }
{
    Value {
        sym: Sym::Entry(w),
        bits: *bits,
        stacks: Value::top().stacks,
    }
}

// Word `w` of the context, of which its old bits and places are known.
fn rename(w: u8, v: &Value) -> Value
    requires { w < 20 }
    ensures { result ≡ record v.now { sym = Sym.Entry w } }
{
    Value {
        sym: Sym::Entry(w),
        bits: v.bits,
        stacks: v.stacks,
    }
}

// Register `w` of the context.
fn own_register(inside: bool, w: u8, v: &Value) -> Value
    requires { w < 20 }
    ensures { result ≡ own_register inside w v.now }
{
    if inside {
        entry_of(w, &NOTHING)
    } else {
        rename(w, v)
    }
}

// Each register becomes its own.
fn name_each(inside: bool, regs: &mut [Value])
    requires { length regs.old ≤ 16 }
    ensures { regs.new ≡ redone (own_register inside) 0 regs.old }
{
    for w in 0..regs.len() {
        regs[w] = own_register(inside, w as u8, &regs[w]);
    }
}

fn own_registers(inside: bool, regs: &[Value; 16]) -> [Value; 16]
    ensures { result ≡ redone (own_register inside) 0 regs.now }
{
    let mut own = *regs;
    name_each(inside, &mut own);
    own
}

// The set of this stack alone, or of what is outside all stacks.
pub(crate) fn place_set(stack: Option<u8>) -> u32
    requires { IsPlace stack }
    ensures value { result ≡ 2 ^ place_bit stack }
    ensures bound { result < 2 ^ 17 }
{
    match stack {
        Some(s) => 1 << s,
        None => OUTSIDE,
    }
}

fn in_region(stack: Option<u8>, region: Option<&Region>) -> Value
    requires place { IsPlace stack }
    requires filled { IfSome (option_copied region) (λ r. r.span.from < r.span.to) }
    ensures { result ≡ in_region stack (option_copied region.entry) }
{
    let bits = match region {
        Some(r) => Bits::prefix(&r.span),
        None => NOTHING,
    };
    Value {
        sym: Sym::Entry(RSP),
        bits,
        stacks: place_set(stack),
    }
}

// The saved RSP: of an offset and of a handler's RSP the stack is known.
#[tactic(auto, using(crate::proofs::RegionLemmas::filled))]
fn own_rsp(cfg: &Config, unknown: bool, stack: Option<u8>, v: &Value) -> Value
    requires { IsPlace stack }
    ensures { result ≡ own_rsp cfg.now unknown stack v.now }
{
    cfg.tell();
    if !unknown {
        return rename(RSP, v);
    }
    match stack {
        Some(s) => in_region(stack, cfg.regions.stack(s)),
        None => in_region(stack, None),
    }
}

// RFLAGS inside a handler: in the model's mask, with bit 1 set, and IF clear where the handler keeps it so.
fn handler_flags(b: &Bits, irq: bool) -> Bits
    ensures { result ≡ handler_flags b.now irq }
{
    if !irq && (b.zeros >> 9) & 1 == 1 {
        Bits {
            zeros: !0x24_0FD7 | 0x200,
            ones: 2,
        }
    } else {
        Bits {
            zeros: !0x24_0FD7,
            ones: 2,
        }
    }
}

fn own_flags(inside: bool, irq: bool, b: &Bits) -> Bits
    ensures { result ≡ own_flags inside irq b.now }
{
    if inside { handler_flags(b, irq) } else { *b }
}

fn own_rip(inside: bool, at: u64) -> Bits
    ensures { result ≡ own_rip inside at }
{
    if inside { NOTHING } else { Bits::of(at) }
}

// SS, RSP, RFLAGS, CS and RIP.
fn frame_words(ss: &Bits, rsp: &Value, flags: &Bits, cs: &Bits, rip: &Bits) -> [Value; 5]
    ensures { result ≡ frame_words ss.now rsp.now flags.now cs.now rip.now }
{
    [
        entry_of(SS, ss),
        *rsp,
        entry_of(RFLAGS, flags),
        entry_of(CS, cs),
        entry_of(RIP, rip),
    ]
}

pub(crate) fn is_relative(l: Option<Location>) -> bool
    ensures { result ≡ is_relative l }
{
    matches!(l, Some(Location::Relative(_)))
}

fn is_interrupted_rsp(v: &Value) -> bool
    ensures { result ≡ is_interrupted_rsp v.now.sym }
{
    match v.sym {
        Sym::Entry(w) => w == RSP,
        _ => false,
    }
}

// How far below the call's RSP the handler's may be.
fn depth_of(inside: bool, handler: Option<Handler>) -> u32
    ensures { result ≡ depth_of inside handler }
{
    match handler {
        Some(h) if inside => h.stack,
        _ => 0,
    }
}

fn opens_irq(handler: Option<Handler>) -> bool
    ensures { result ≡ lists (λ h. h.irq) handler }
{
    match handler {
        Some(h) => h.irq,
        None => false,
    }
}

/// Kernel code that is interrupted at the site, where inside it `handler` runs.
#[tactic(auto, using(crate::proofs::RegionLemmas::value_place))]
pub(crate) fn interrupt_kernel(
    cfg: &Config,
    key: &Key,
    site: &Site,
    state: &AbsState,
    handler: Option<Handler>,
) -> Interrupted
    requires stack { HasStack cfg.now key.now }
    ensures value { result ≡ interrupted_at cfg.now key.now site.now state.now handler }
    ensures place { IsPlace result.stack }
{
    cfg.tell();
    let v = &state.regs[4];
    let rsp = loc(key, v);
    let stack = place(cfg, key, v);
    let inside = site.inside;
    let stays = !inside && is_interrupted_rsp(v);
    let from = live_from(depth_of(inside, handler), rsp);
    Interrupted {
        kernel: true,
        gs: state.gs,
        map: state.map,
        latches: state.latches,
        floors: interrupt_floors(&state.floors, key.base, stays, stack, from),
        stack,
        regs: own_registers(inside, &state.regs),
        frame: frame_words(
            &NOTHING,
            &own_rsp(cfg, inside || is_relative(rsp), stack, v),
            &own_flags(inside, opens_irq(handler), &state.flags.bits),
            &Bits::of(u64::from(cfg.cpu.star_kernel)),
            &own_rip(inside, site.at),
        ),
    }
}

// What is known of a user's words: RSP lies in no stack.
pub(crate) fn user_rsp() -> Value
    ensures { result ≡ edited_rsp }
{
    Value {
        sym: Sym::Entry(RSP),
        bits: NOTHING,
        stacks: OUTSIDE,
    }
}

// RFLAGS in the model's mask, with bit 1 and IF set.
pub(crate) fn user_flags() -> Value
    ensures { result ≡ edited_flags }
{
    entry_of(
        RFLAGS,
        &Bits {
            zeros: !0x24_0FD7,
            ones: 0x202,
        },
    )
}

// RIP is below 2^47.
pub(crate) fn user_rip() -> Value
    ensures { result ≡ edited_rip }
{
    entry_of(
        RIP,
        &Bits {
            zeros: 0xFFFF_8000_0000_0000,
            ones: 0,
        },
    )
}

// What is known of the user's CS.
fn user_cs(cfg: &Config) -> Bits
    ensures { result ≡ user_cs cfg.now cfg.now.cpu.user_cs32 }
{
    let mut bits = Bits::of(u64::from(cfg.user_cs64()));
    if let Some(cs32) = cfg.cpu.user_cs32 {
        bits.join(&Bits::of(u64::from(cs32)));
    }
    bits
}

// Of register `w` nothing more is known.
fn unknown(w: u8) -> Value
    requires { w < 20 }
    ensures { result ≡ entry_of w nothing_known }
{
    entry_of(w, &NOTHING)
}

fn user_registers() -> [Value; 16]
    ensures { result ≡ user_registers }
{
    [
        unknown(0),
        unknown(1),
        unknown(2),
        unknown(3),
        user_rsp(),
        unknown(5),
        unknown(6),
        unknown(7),
        unknown(8),
        unknown(9),
        unknown(10),
        unknown(11),
        unknown(12),
        unknown(13),
        unknown(14),
        unknown(15),
    ]
}

/// User code that is interrupted: its processor is admitted, and no byte of a stack is live.
pub(crate) fn interrupt_user(cfg: &Config, user: &UserState) -> Interrupted
    ensures value { result ≡ interrupted_user cfg.now user.now }
{
    Interrupted {
        kernel: false,
        gs: GsPair {
            active: Who::User,
            inactive: Who::Kernel,
        },
        map: MapState::User,
        latches: Latches {
            nmi_blocked: user.nmi_blocked,
            shadow: Tri::No,
            mcip: user.mcip,
        },
        floors: Floors {
            at: [Floor::At(u64::MAX); 16],
        },
        stack: None,
        regs: user_registers(),
        frame: frame_words(
            &Bits::of(u64::from(cfg.user_ss())),
            &user_rsp(),
            &user_flags().bits,
            &user_cs(cfg),
            &user_rip().bits,
        ),
    }
}
