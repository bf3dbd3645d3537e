//! Turns that enter the kernel: events, and SYSCALL.

ghost use Rattle.std.specs.Prelude.{◌≡◌, Some};
ghost use Rattle.kc_regions.specs.Lookup.{gate_of};
ghost use Rattle.kc_events.specs.Attempt.{event as event_of, through_gate, syscall as syscall_of};
ghost use Rattle.kc_machine.specs.Chain.{base_after};
ghost use Rattle.kc_machine.specs.Ends.{Ends, listed_after};
ghost use Rattle.kc_machine.specs.JudgeSteps.{BreaksByAccess};

use crate::chain::{push_event, push_syscall, set_base};
use crate::end::{StepEnd, halt};
use crate::judge::{Trial, judge};
use kc_events::{DeliverEnd, deliver, enter_syscall};
use kc_exec::{Log, State};
use kc_plain::NoMemory;
use kc_regions::{Config, Gate};

/// The most bytes that a delivery pushes.
const FRAME_BYTES: u64 = 48;

// The base from which the frame was pushed; 0 where it wasn't.
fn base_of(end: DeliverEnd) -> u64
    ensures { result ≡ base_after end }
{
    match end {
        DeliverEnd::Delivered(base) => base,
        DeliverEnd::Stopped => 0,
    }
}

// Delivers an event through this gate. Its writes are judged with the activation that it makes already
// in the chain.
fn enter(
    cfg: &Config,
    state: &mut State,
    log: &mut Log,
    gate: &Gate,
    code: u32,
) -> Result<StepEnd, NoMemory>
    requires { gate_of cfg.now.gates gate.now.vector ≡ Some gate.now }
    ensures end { let t = through_gate cfg.now (Some gate.now) state.old code in
        Ends cfg.now state.old t (BreaksByAccess cfg.now state.old t) state.new result }
    ensures accesses { let t = through_gate cfg.now (Some gate.now) state.old code in
        log.new ≡ listed_after log.old t.accesses result }
{
    state.mem.reserve(FRAME_BYTES)?;
    let saved = state.cpu;
    push_event(&mut state.chain, &saved, gate.vector)?;
    let (cpu, latch, mem) = (&mut state.cpu, &mut state.latch, &mut state.mem);
    let end = deliver(cfg, cpu, latch, mem, gate.vector, code, log);
    set_base(&mut state.chain, base_of(end));
    let trial = Trial {
        cpu: &saved,
        chain: state.chain.as_slice(),
        accesses: log.items(),
        writes: &[],
        words: &[],
    };
    match judge(cfg, &trial) {
        Some(end) => Ok(halt(state, end)),
        None => Ok(StepEnd::Done),
    }
}

/// Delivers the event of this vector, with this error code where it pushes one. Without a gate
/// nothing happens; such a turn may not come.
pub(crate) fn event(
    cfg: &Config,
    state: &mut State,
    log: &mut Log,
    vector: u8,
    code: u32,
) -> Result<StepEnd, NoMemory>
    ensures end { let t = event_of cfg.now state.old vector code in
        Ends cfg.now state.old t (BreaksByAccess cfg.now state.old t) state.new result }
    ensures accesses { let t = event_of cfg.now state.old vector code in
        log.new ≡ listed_after log.old t.accesses result }
{
    match cfg.gate(vector) {
        Some(gate) => enter(cfg, state, log, &gate, code),
        None => {
            log.clear();
            Ok(StepEnd::Done)
        }
    }
}

/// User code executes SYSCALL.
pub(crate) fn syscall(cfg: &Config, state: &mut State, log: &mut Log) -> Result<StepEnd, NoMemory>
    ensures end { let t = syscall_of cfg.now state.old in
        Ends cfg.now state.old t (BreaksByAccess cfg.now state.old t) state.new result }
    ensures accesses { let t = syscall_of cfg.now state.old in log.new ≡ listed_after log.old t.accesses result }
{
    push_syscall(&mut state.chain, &state.cpu)?;
    log.clear();
    state.cpu = enter_syscall(cfg, &state.cpu);
    Ok(StepEnd::Done)
}
