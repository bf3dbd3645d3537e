//! What a C handler may leave after a step, and with what it may return.

ghost use Rattle.std.specs.Prelude.{◌≡◌, ◌↔◌, IsTrue, All};
ghost use Rattle.std.specs.Option.{option_copied};
ghost use Rattle.kc_regions.specs.declared.region.Kind.TheVariants as kind;
ghost use Rattle.kc_events.specs.Allowed.{AreModelFlags, AreEditsValid, IsRipValid, AreFlagsValid, IsRspValid, HasFrame, FrameFits, InterruptedUser, is_edit, IsFree, IsRspFree, MaySetIf, LiesIn, MayWrite, KeepsIf, MayBody, MayLeave, InHandler, OfStack, stack_over};
ghost use Rattle.kc_exec.specs.Admitted.{AreUserFlags};

use crate::table::running;
use crate::turn::{BodySet, Edit, LeaveSet};
use kc_cpu::{Call, Mode};
use kc_exec::{Activation, State};
use kc_regions::{AfterIf, Config, Handler, Kind, Region};

/// The places of IF and DF in RFLAGS, and that of bit 1, which is always set.
const INTERRUPTS: u32 = 9;

const DIRECTION: u32 = 10;

const FIXED: u32 = 1;

/// The flags of the model and bit 1. The definition has them again, so that a wrong mask shows.
const MODEL_FLAGS: u64 = 0x24_0FD7;

/// The first address that no user RIP has.
const USER_END: u64 = 1 << 47;

/// The bytes of the frame's five words.
const FRAME_BYTES: u64 = 40;

fn are_model_flags(flags: u64) -> bool
    ensures { IsTrue result ↔ AreModelFlags flags }
{
    (flags >> FIXED) & 1 == 1 && flags & MODEL_FLAGS == flags
}

fn are_user_flags(flags: u64) -> bool
    ensures { IsTrue result ↔ AreUserFlags flags }
{
    (flags >> INTERRUPTS) & 1 == 1 && ((flags >> FIXED) & 1 == 1 && flags & MODEL_FLAGS == flags)
}

fn is_rip_valid(rip: Option<u64>) -> bool
    ensures { IsTrue result ↔ IsRipValid rip }
{
    match rip {
        Some(rip) => rip < USER_END,
        None => true,
    }
}

fn are_flags_valid(flags: Option<u64>) -> bool
    ensures { IsTrue result ↔ AreFlagsValid flags }
{
    match flags {
        Some(flags) => are_user_flags(flags),
        None => true,
    }
}

fn is_rsp_valid(cfg: &Config, rsp: Option<u64>) -> bool
    ensures { IsTrue result ↔ IsRspValid cfg.now rsp }
{
    match rsp {
        Some(rsp) => cfg.regions.stack_of(rsp).is_none(),
        None => true,
    }
}

fn are_edits_valid(cfg: &Config, edit: &Edit) -> bool
    ensures { IsTrue result ↔ AreEditsValid cfg.now edit.now }
{
    is_rip_valid(edit.rip) && (are_flags_valid(edit.flags) && is_rsp_valid(cfg, edit.rsp))
}

fn has_edit(edit: &Edit) -> bool
    ensures { result ≡ is_edit edit.now }
{
    edit.rip.is_some() || (edit.flags.is_some() || edit.rsp.is_some())
}

// Whether the 40 bytes from so far above the return address lie in the stack.
fn frame_fits(call: &Call, frame: Option<u32>, stack: &Region) -> bool
    ensures { IsTrue result ↔ FrameFits call.now.rsp frame stack.now }
{
    match frame {
        None => false,
        Some(frame) => {
            let (from, to) = (stack.span.from, stack.span.to);
            let frame = frame as u64;
            if call.rsp < to && FRAME_BYTES + frame <= to - call.rsp {
                from <= call.rsp + frame
            } else {
                false
            }
        }
    }
}

// Whether the newest activation, the last, interrupted user code.
fn interrupted_user(chain: &[Activation]) -> bool
    ensures { IsTrue result ↔ InterruptedUser chain.now }
{
    match chain.last() {
        None => false,
        Some(newest) => match newest.saved.mode {
            Mode::User => true,
            Mode::Code | Mode::Inside(_) => false,
        },
    }
}

fn has_frame(state: &State, call: &Call, handler: &Handler, stack: &Region) -> bool
    ensures { IsTrue result ↔ HasFrame state.now call.now handler.now stack.now }
{
    interrupted_user(state.chain.as_slice()) && frame_fits(call, handler.frame, stack)
}

// Whether the byte is one of the stack's that the handler may use.
fn is_free(call: &Call, depth: u32, stack: &Region, at: u64) -> bool
    ensures { IsTrue result ↔ IsFree call.now depth stack.now at }
{
    stack.span.holds(at) && (at < call.rsp && call.rsp - at <= depth as u64)
}

fn is_data(cfg: &Config, at: u64) -> bool
    ensures { IsTrue result ↔ LiesIn cfg.now kind.Plain at }
{
    match cfg.regions.of(at) {
        Some(region) => region.kind == Kind::Plain,
        None => false,
    }
}

fn may_write(cfg: &Config, call: &Call, depth: u32, stack: &Region, at: u64) -> bool
    ensures { IsTrue result ↔ MayWrite cfg.now call.now depth stack.now at }
{
    is_data(cfg, at) || is_free(call, depth, stack, at)
}

fn may_write_all(
    cfg: &Config,
    call: &Call,
    depth: u32,
    stack: &Region,
    writes: &[(u64, u8)],
) -> bool
    ensures { IsTrue result ↔ All (λ w. MayWrite cfg.now call.now depth stack.now w.0) writes.now }
{
    writes
        .iter()
        .all(|write| may_write(cfg, call, depth, stack, write.0))
}

// Whether RSP lies in the handler's part of the stack.
fn is_rsp_free(call: &Call, depth: u32, rsp: u64) -> bool
    ensures { IsTrue result ↔ IsRspFree call.now.rsp depth rsp }
{
    rsp <= call.rsp && call.rsp - rsp <= depth as u64
}

// Whether IF may be what it is after the handler's step.
fn may_set_if(before: u64, irq: bool, after: u64) -> bool
    ensures { IsTrue result ↔ MaySetIf before irq after }
{
    (after >> INTERRUPTS) & 1 == 0 || (irq || (before >> INTERRUPTS) & 1 == 1)
}

fn may_set(
    cfg: &Config,
    state: &State,
    call: &Call,
    handler: &Handler,
    stack: &Region,
    set: &BodySet,
) -> bool
    ensures { IsTrue result ↔ MayBody cfg.now state.now call.now handler.now stack.now set.now }
{
    is_rsp_free(call, handler.stack, set.regs[4])
        && (are_model_flags(set.flags)
            && (may_set_if(state.cpu.flags, handler.irq, set.flags)
                && (may_write_all(cfg, call, handler.stack, stack, set.writes.as_slice())
                    && (are_edits_valid(cfg, &set.edit)
                        && (!has_edit(&set.edit) || has_frame(state, call, handler, stack))))))
}

/// Whether a handler runs that may leave this.
pub(crate) fn may_body(cfg: &Config, state: &State, set: &BodySet) -> bool
    ensures { IsTrue result ↔ InHandler cfg.now state.now.cpu.mode
        (λ call h. OfStack cfg.now call.rsp (λ stack. MayBody cfg.now state.now call h stack set.now)) }
{
    match &state.cpu.mode {
        Mode::User | Mode::Code => false,
        Mode::Inside(call) => match running(cfg, call.handler) {
            None => false,
            Some(handler) => match stack_at(cfg, call.rsp) {
                None => false,
                Some(stack) => may_set(cfg, state, call, &handler, stack, set),
            },
        },
    }
}

// The stack that holds the address.
fn stack_at(cfg: &Config, at: u64) -> Option<&Region>
    ensures { option_copied result ≡ stack_over cfg.now.regions at }
{
    match cfg.regions.stack_of(at) {
        None => None,
        Some(s) => cfg.regions.stack(s),
    }
}

// Whether IF is as the handler's contract says.
fn keeps_if(after_if: AfterIf, before: u64, after: u64) -> bool
    ensures { IsTrue result ↔ KeepsIf after_if before after }
{
    let set = (after >> INTERRUPTS) & 1;
    match after_if {
        AfterIf::Keep => set == (before >> INTERRUPTS) & 1,
        AfterIf::On => set == 1,
        AfterIf::Off => set == 0,
        AfterIf::Any => true,
    }
}

fn may_return(call: &Call, handler: &Handler, set: &LeaveSet) -> bool
    ensures { IsTrue result ↔ MayLeave call.now handler.now set.now }
{
    handler.returns
        && are_model_flags(set.flags)
        && (set.flags >> DIRECTION) & 1 == 0
        && keeps_if(handler.after_if, call.flags, set.flags)
}

/// Whether a handler runs that may return with this.
pub(crate) fn may_leave(cfg: &Config, state: &State, set: &LeaveSet) -> bool
    ensures { IsTrue result ↔ InHandler cfg.now state.now.cpu.mode (λ call h. MayLeave call h set.now) }
{
    match &state.cpu.mode {
        Mode::User | Mode::Code => false,
        Mode::Inside(call) => match running(cfg, call.handler) {
            Some(handler) => may_return(call, &handler, set),
            None => false,
        },
    }
}
