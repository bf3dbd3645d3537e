//! The abstract step of an instruction. This project's own.

ghost use Rattle.std.specs.Prelude.{◌≡◌, ◌≤◌, ◌<◌, ◌+◌, true, IsTrue, ◌↔◌, length, IfSome, IfOk, IfErr, Result, Ok, Err};
ghost use Rattle.kc_bits.specs.Bits.{word};
ghost use Rattle.kc_insn.specs.Encodable.{is_encodable};
ghost use Rattle.kc_regions.specs.Region.{stacks_of};
ghost use Rattle.kc_value.specs.Made.{IsPlace};
ghost use Rattle.kc_state.specs.AbsEffect.{abs_row, applied, with_store};
ghost use Rattle.kc_state.specs.AbsStep.{abs_step, conditions, with_call};
ghost use Rattle.kc_state.specs.WellFormed.{IsStateWellFormed};
ghost use Rattle.kc_state.specs.AbsEvents.{HasStack};
ghost use Rattle.kc_transfer.specs.Step.{Steps};
ghost use Rattle.kc_transfer.specs.Covers.{CoversSteps};

use crate::calls::enter_called;
use crate::changed::{Changed, Store};
use crate::conditions::check_conditions;
use crate::table::abs_row;
use kc_frames::Slots;
use kc_insn::Insn;
use kc_lattice::Domain;
use kc_regions::Config;
use kc_state::{AbsState, Condition, Key, Moment, Scratch, Succ, cpu_of, store};
use kc_value::Value;

/// Whether the stack of the key, where it has one, is one of the description's.
pub fn has_stack(cfg: &Config, key: &Key) -> bool
    ensures is { IsTrue result ↔ HasStack cfg.now key.now }
{
    match key.stack {
        Some(s) => cfg.regions.stack(s).is_some(),
        None => true,
    }
}

fn put_store(cfg: &Config, key: &Key, slots: &mut Slots<Value>, change: Option<Store>)
    ensures { slots.new ≡ with_store cfg.now key.now slots.old change }
{
    if let Some(s) = change {
        if let Some(l) = s.at {
            store(cfg, key, slots, l, s.size, &s.value);
        }
    }
}

// The state with the change, and the store in it.
fn apply(cfg: &Config, key: &Key, state: &AbsState, done: &Changed, out: &mut AbsState)
    ensures { out.new ≡ applied cfg.now key.now state.now done.now }
{
    out.regs = done.cpu.regs;
    out.flags = done.cpu.flags;
    out.gs = done.cpu.gs;
    out.map = done.cpu.map;
    out.latches = done.cpu.latches;
    out.floors = state.floors;
    out.slots.copy_from(&state.slots);
    put_store(cfg, key, &mut out.slots, done.store);
}

// The state with the change, at the body of the handler where one is called.
fn put_change(cfg: &Config, key: &Key, state: &AbsState, done: &Changed, out: &mut AbsState)
    ensures { out.new ≡ with_call cfg.now key.now (applied cfg.now key.now state.now done.now) done.now.succ }
{
    apply(cfg, key, state, done, out);
    enter_called(cfg, key, done.succ, out);
}

// The change, where no condition fails.
fn checked(m: &Moment, state: &AbsState, insn: &Insn) -> Result<Changed, Condition>
    requires encodable { is_encodable insn.now ≡ true }
    requires stack { IsPlace m.now.key.stack }
    ensures ok { IfOk result (λ c. (c ≡ abs_row m.now insn.now) × (conditions m.now state.now insn.now c ≡ Ok tt)) }
    ensures err { IfErr result (λ e. conditions m.now state.now insn.now (abs_row m.now insn.now) ≡ Err e) }
{
    let done = abs_row(m, insn);
    match check_conditions(m, state, insn, &done) {
        Ok(()) => Ok(done),
        Err(condition) => Err(condition),
    }
}

fn step(
    cfg: &Config,
    key: &Key,
    state: &AbsState,
    insn: &Insn,
    next: u64,
    out: &mut Scratch,
) -> Result<Succ, Condition>
    requires encodable { is_encodable insn.now ≡ true }
    requires stack { IsPlace key.now.stack }
    ensures { Steps result out.old out.new (abs_step cfg.now key.now state.now insn.now next) }
{
    let cpu = cpu_of(state);
    let m = Moment {
        cfg,
        key,
        cpu: &cpu,
        slots: &state.slots,
        next,
    };
    match checked(&m, state, insn) {
        Ok(done) => {
            put_change(cfg, key, state, &done, &mut out.out);
            Ok(done.succ)
        }
        Err(condition) => Err(condition),
    }
}

/// What is known after an instruction of `len` bytes at `at`: where the program goes on, with the state
/// there in `out.out`; at a call of a handler that is the state at its body. Else the first of the
/// conditions C4 and C6 to C12 that fails, with `out` as it was. Where `state` is well-formed, so is the
/// state there. It takes no memory.
pub fn transfer(
    cfg: &Config,
    key: &Key,
    state: &AbsState,
    insn: &Insn,
    len: u8,
    at: u64,
    out: &mut Scratch,
) -> Result<Succ, Condition>
    requires encodable { is_encodable insn.now ≡ true }
    requires length { (1 ≤ len) × (len ≤ 15) }
    requires stack { HasStack cfg.now key.now }
    ensures value { Steps result out.old out.new (abs_step cfg.now key.now state.now insn.now (word (at + len))) }
    ensures well_formed { IsStateWellFormed cfg.now key.now state.now
        → IfOk result (λ _. IsStateWellFormed cfg.now key.now out.new.out) }
    // Where the image spells the instruction in executable text (C5) and the state describes the machine, the
    // machine's step breaks nothing, and leads where the answer says.
    ensures covers { IfOk result (λ succ. CoversSteps cfg.now key.now state.now insn.now len at succ out.new.out) }
{
    cfg.tell();
    state.tell();
    step(cfg, key, state, insn, at.wrapping_add(u64::from(len)), out)
}
