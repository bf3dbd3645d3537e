//! C10: a handler is called with the kernel's GS base and CR3 and a free stack. This project's own.

ghost use Rattle.std.specs.Prelude.{◌≡◌, Option, slice_get};
ghost use Rattle.std.specs.Option.{option_copied};
ghost use Rattle.kc_regions.specs.Lookup.{handler_of};
ghost use Rattle.kc_value.specs.Made.{IsPlace};
ghost use Rattle.kc_state.specs.Calls.{called_handler, frame_of};
ghost use Rattle.kc_state.specs.Conditions.{holds_frame, has_room_in, stack_region, has_room, calls_well_at, calls_handler, calls_well};

use kc_frames::Floors;
use kc_insn::Insn;
use kc_regions::{Config, Handler, Region};
use kc_space::{MapState, Who};
use kc_state::{Key, Location, Moment, clear, loc, pushed};

// The handler that begins at this address.
pub(crate) fn called_handler(cfg: &Config, entry: u64) -> Option<Handler>
    ensures { result ≡ called_handler cfg.now (handler_of cfg.now.handlers entry) }
{
    match cfg.handler_of(entry) {
        Some(h) => handler_at(cfg, h),
        None => None,
    }
}

// The handler of this number.
pub(crate) fn handler_at(cfg: &Config, h: u16) -> Option<Handler>
    ensures { result ≡ slice_get cfg.now.handlers h }
{
    match cfg.handlers.get(usize::from(h)) {
        Some(handler) => Some(*handler),
        None => None,
    }
}

// How far above RSP the frame is that the handler may edit: that of a user's context alone.
pub(crate) fn frame_of(key: &Key, h: &Handler) -> Option<u32>
    ensures { result ≡ frame_of key.now h.now }
{
    if key.kernel { None } else { h.frame }
}

// Whether the 40 bytes of the frame lie in the stack.
fn holds_frame(r: &Region, a: u64, frame: Option<u32>) -> bool
    ensures { result ≡ holds_frame r.now a frame }
{
    match frame {
        Some(f) => {
            let from = u128::from(a) + u128::from(f);
            let span = &r.span;
            u128::from(span.from) <= from && from + 40 <= u128::from(span.to)
        }
        None => true,
    }
}

// Whether the handler's stack reaches at most 4,096 bytes below the stack in which `a` lies.
fn has_room_in(a: u64, h: &Handler, frame: Option<u32>, stack: Option<&Region>) -> bool
    ensures { result ≡ has_room_in a h.now frame (option_copied stack.entry) }
{
    match stack {
        Some(r) => {
            let span = &r.span;
            u128::from(span.from) + u128::from(h.stack) <= u128::from(a) + 4096
                && holds_frame(r, a, frame)
        }
        None => false,
    }
}

fn has_room_at(m: &Moment, h: &Handler, a: u64) -> bool
    ensures { result ≡ has_room m.now h.now (Location.Number a) }
{
    let cfg = m.cfg;
    let frame = frame_of(m.key, h);
    match cfg.regions.stack_of(a) {
        Some(s) => has_room_in(a, h, frame, cfg.regions.stack(s)),
        None => false,
    }
}

fn has_room(m: &Moment, h: &Handler, l: Location) -> bool
    ensures { result ≡ has_room m.now h.now l }
{
    let key = m.key;
    match l {
        Location::Number(a) => has_room_at(m, h, a),
        Location::Relative(_) => {
            key.stack.is_some() && (h.stack <= 4096 && !frame_of(m.key, h).is_some())
        }
    }
}

fn calls_well_at(m: &Moment, floors: &Floors, h: &Handler, at: Option<Location>) -> bool
    ensures { result ≡ calls_well_at m.now floors.now h.now at }
{
    let cpu = m.cpu;
    match at {
        Some(l) => {
            cpu.gs.active == Who::Kernel
                && (cpu.map == MapState::Kernel
                    && (clear(m.cfg, m.key, floors, l, 0) && has_room(m, h, l)))
        }
        None => false,
    }
}

fn calls_handler(m: &Moment, floors: &Floors, handler: Option<Handler>) -> bool
    requires { IsPlace m.now.key.stack }
    ensures { result ≡ calls_handler m.now floors.now handler }
{
    match handler {
        Some(h) => calls_well_at(m, floors, &h, loc(m.key, &pushed(m))),
        None => true,
    }
}

// C10.
pub(crate) fn calls_well(m: &Moment, floors: &Floors, insn: &Insn) -> bool
    requires { IsPlace m.now.key.stack }
    ensures { result ≡ calls_well m.now floors.now insn.now }
{
    match *insn {
        Insn::Call(target) => calls_handler(m, floors, called_handler(m.cfg, target)),
        _ => true,
    }
}
