//! Turns of C handlers: a step, and the return.

ghost use Rattle.std.specs.Prelude.{◌≡◌, ℕ, ◌*◌, ◌≤◌, ◌∷◌, [], length, slice_get, OnOk, OnErr};
ghost use Rattle.std.specs.Option.{option_map_or, unwrap_or};
ghost use Rattle.kc_exec.specs.Operand.{plain_read};
ghost use Rattle.kc_events.specs.Delivery.{with_pushed};
ghost use Rattle.kc_events.specs.Edits.{edited_words};
ghost use Rattle.kc_events.specs.Attempt.{body_step, frame_of, idle, inside};
ghost use Rattle.kc_events.specs.Run.{IsLike, after};
ghost use Rattle.kc_machine.specs.Ends.{Ends, listed_after};
ghost use Rattle.kc_machine.specs.JudgeSteps.{BreaksByAccess, left};

use crate::chain::set_due;
use crate::end::{StepEnd, halt};
use crate::judge::{Trial, judge};
use arrayvec::ArrayVec;
use kc_cpu::{Call, Mode};
use kc_events::{BodySet, Edit, LeaveSet, body_cpu, leave_cpu};
use kc_exec::{Access, Log, State, Touch};
use kc_mem::Memory;
use kc_plain::NoMemory;
use kc_regions::Config;

/// RSP's number among the registers.
const RSP: usize = 4;

/// The most words of the user's frame that a handler edits, and their bytes.
const MAX_WORDS: usize = 3;

const EDIT_BYTES: u64 = 24;

/// How far above the saved RIP the saved RFLAGS and RSP lie (Intel SDM vol. 3A, "64-Bit Mode Stack
/// Frame").
const FLAGS_PLACE: u64 = 16;

const RSP_PLACE: u64 = 24;

/// Edited words with their addresses.
type Words = ArrayVec<(u64, u64), MAX_WORDS>;

// Where the saved RIP lies above the handler's return address, by its contract.
fn frame_place(cfg: &Config, handler: u16) -> u64
    ensures { result ≡ option_map_or (λ h. unwrap_or h.frame 0) (slice_get cfg.now.handlers handler) 0 }
{
    match cfg.handlers.get(handler as usize) {
        Some(handler) => match handler.frame {
            Some(frame) => frame as u64,
            None => 0,
        },
        None => 0,
    }
}

fn list_edits(at: u64, edit: &Edit) -> Words
    ensures words { result.items ≡ edited_words at edit.now }
    ensures few { length result.items ≤ 3 }
{
    let mut words = Words::new();
    if let Some(rip) = edit.rip {
        words.push((at, rip));
    }
    if let Some(flags) = edit.flags {
        words.push((at.wrapping_add(FLAGS_PLACE), flags));
    }
    if let Some(rsp) = edit.rsp {
        words.push((at.wrapping_add(RSP_PLACE), rsp));
    }
    words
}

// Writes the words.
fn write_words(mem: &mut Memory, words: &[(u64, u64)])
    requires { 8 * length words.now ≤ mem.old.spare }
    ensures { mem.new.bytes ≡ with_pushed mem.old.bytes words.now }
{
    for word in words {
        mem.write8(word.0, word.1);
    }
}

// The read of a step: the byte at the new RSP.
fn read_at(rsp: u64) -> Log
    ensures { result ≡ plain_read rsp 1 ∷ [] }
{
    Log::of(Access {
        at: rsp,
        size: 1,
        touch: Touch::Read,
        gs: false,
    })
}

// Carries out a step that edits these words.
fn carry_out(state: &mut State, set: &BodySet, words: &[(u64, u64)]) -> Result<(), NoMemory>
    requires { 8 * length words.now ≤ state.old.mem.spare }
    ensures done { OnOk result ((frame : ℕ) → words.now ≡ edited_words frame set.now.edit
        → IsLike state.new (after state.old (body_step state.old set.now frame))) }
    ensures err { OnErr result (IsLike state.new state.old) }
{
    state.mem.apply(set.writes.as_slice())?;
    write_words(&mut state.mem, words);
    set_due(&mut state.chain, &set.edit);
    state.cpu = body_cpu(&state.cpu, set);
    Ok(())
}

// A step of the handler of this call.
fn run_body(
    cfg: &Config,
    state: &mut State,
    log: &mut Log,
    call: &Call,
    set: &BodySet,
) -> Result<StepEnd, NoMemory>
    ensures end { let t = body_step state.old set.now (frame_of cfg.now call.now) in
        Ends cfg.now state.old t (BreaksByAccess cfg.now state.old t) state.new result }
    ensures accesses { let t = body_step state.old set.now (frame_of cfg.now call.now) in
        log.new ≡ listed_after log.old t.accesses result }
{
    state.mem.reserve(EDIT_BYTES)?;
    let frame = call.rsp.wrapping_add(frame_place(cfg, call.handler));
    let words = list_edits(frame, &set.edit);
    let reads = read_at(set.regs[RSP]);
    let trial = Trial {
        cpu: &state.cpu,
        chain: state.chain.as_slice(),
        accesses: reads.items(),
        writes: set.writes.as_slice(),
        words: words.as_slice(),
    };
    match judge(cfg, &trial) {
        Some(end) => {
            *log = reads;
            Ok(halt(state, end))
        }
        None => {
            carry_out(state, set, words.as_slice())?;
            *log = reads;
            Ok(StepEnd::Done)
        }
    }
}

/// A C handler's step. Outside a handler nothing happens; such a turn may not come.
pub(crate) fn body(
    cfg: &Config,
    state: &mut State,
    log: &mut Log,
    set: &BodySet,
) -> Result<StepEnd, NoMemory>
    ensures end { let t = inside state.old.cpu.mode (idle state.old)
        (λ call. body_step state.old set.now (frame_of cfg.now call)) in
        Ends cfg.now state.old t (BreaksByAccess cfg.now state.old t) state.new result }
    ensures accesses { let t = inside state.old.cpu.mode (idle state.old)
        (λ call. body_step state.old set.now (frame_of cfg.now call)) in
        log.new ≡ listed_after log.old t.accesses result }
{
    match state.cpu.mode {
        Mode::Inside(call) => run_body(cfg, state, log, &call, set),
        Mode::User | Mode::Code => {
            log.clear();
            Ok(StepEnd::Done)
        }
    }
}

/// A C handler's return. Outside a handler nothing happens; such a turn may not come.
pub(crate) fn leave(
    cfg: &Config,
    state: &mut State,
    log: &mut Log,
    set: &LeaveSet,
) -> Result<StepEnd, NoMemory>
    ensures end { let t = inside state.old.cpu.mode (idle state.old) (λ call. left state.old call set.now) in
        Ends cfg.now state.old t (BreaksByAccess cfg.now state.old t) state.new result }
    ensures accesses { let t = inside state.old.cpu.mode (idle state.old) (λ call. left state.old call set.now) in
        log.new ≡ listed_after log.old t.accesses result }
{
    log.clear();
    match state.cpu.mode {
        Mode::Inside(call) => state.cpu = leave_cpu(&state.cpu, &call, set),
        Mode::User | Mode::Code => {}
    }
    Ok(StepEnd::Done)
}
