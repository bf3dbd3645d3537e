//! The turn Go: the instruction at RIP.

ghost use Rattle.std.specs.Prelude.{◌≡◌, ◌≤◌, ℕ, Some};
ghost use Rattle.kc_exec.specs.Moment.{Moment};
ghost use Rattle.kc_exec.specs.Breaks.{effect as effect_of};
ghost use Rattle.kc_exec.specs.Execution.{with_write};
ghost use Rattle.kc_events.specs.declared.turn.Turn.TheVariants.{Go};
ghost use Rattle.kc_events.specs.Attempt.{gone, executed};
ghost use Rattle.kc_events.specs.Breaks.{BreaksWith, IsUndecodable};
ghost use Rattle.kc_events.specs.Run.{after, IsLike};
ghost use Rattle.kc_machine.specs.Ends.{Ends, listed_after};
ghost use Rattle.kc_machine.specs.JudgeSteps.{Concludes, cpu_after};

use crate::cause::{break_besides, has_returned, is_undecodable, processor_after};
use crate::chain::drop_newest;
use crate::end::{StepEnd, halt};
use crate::judge::{Trial, judge};
use kc_cpu::Cpu;
use kc_exec::{Before, Executed, Log, State, Write, effect};
use kc_insn::Insn;
use kc_mem::Memory;
use kc_plain::NoMemory;
use kc_regions::Config;
use kc_words::Width;

/// B1: no instruction is there, or a byte of it isn't in executable text.
const UNDECODABLE: u8 = 1;

/// The most bytes that an instruction writes.
const WRITE_BYTES: u64 = 8;

fn store(mem: &mut Memory, write: &Write)
    requires { 8 ≤ mem.old.spare }
    ensures { mem.new.bytes ≡ with_write (Some write.now) mem.old.bytes }
{
    match write.width {
        Width::Byte => mem.write1(write.at, (write.value & 0xFF) as u8),
        Width::Long => mem.write4(write.at, (write.value & 0xFFFF_FFFF) as u32),
        Width::Quad => mem.write8(write.at, write.value),
    }
}

// Carries out the changes of an instruction, which leaves this processor. A return takes the newest
// activation away.
fn carry_out(state: &mut State, cpu: &Cpu, done: &Executed)
    requires room { 8 ≤ state.old.mem.spare }
    requires processor { cpu.now ≡ cpu_after state.old.chain done.now }
    ensures { (n : ℕ) → IsLike state.new (after state.old (executed state.old n done.now)) }
{
    if let Some(write) = &done.write {
        store(&mut state.mem, write);
    }
    state.cpu = *cpu;
    state.latch = done.latch;
    if has_returned(done.end) {
        drop_newest(&mut state.chain);
    }
}

// Ends an instruction whose accesses neither stop nor break it: with the least of B5 to B8, or by
// carrying out its changes.
fn conclude(state: &mut State, insn: &Insn, done: &Executed) -> StepEnd
    requires room { 8 ≤ state.old.mem.spare }
    requires changes { (m : Moment) × (done.now ≡ effect_of m insn.now) }
    ensures { Concludes state.old state.new insn.now done.now result }
{
    let cpu = processor_after(state.chain.as_slice(), done);
    match break_besides(state.chain.as_slice(), insn, done.end, &cpu) {
        Some(number) => halt(state, StepEnd::Broke(number)),
        None => {
            carry_out(state, &cpu, done);
            StepEnd::Done
        }
    }
}

// Executes the instruction of `len` bytes at RIP, which are executable text.
fn execute(
    cfg: &Config,
    state: &mut State,
    log: &mut Log,
    insn: &Insn,
    len: u8,
) -> Result<StepEnd, NoMemory>
    requires { ¬ IsUndecodable cfg.now state.old.cpu.rip (Some (insn.now, len)) }
    ensures end { let t = gone cfg.now (Some (insn.now, len)) state.old in
        Ends cfg.now state.old t (BreaksWith cfg.now (Some (insn.now, len)) state.old Go t) state.new result }
    ensures accesses { let t = gone cfg.now (Some (insn.now, len)) state.old in
        log.new ≡ listed_after log.old t.accesses result }
{
    state.mem.reserve(WRITE_BYTES)?;
    let before = Before::new(cfg, &state.cpu, &state.latch, &state.mem, len);
    let done = effect(&before, insn);
    done.list_accesses(&state.cpu, len, log);
    let trial = Trial {
        cpu: &state.cpu,
        chain: state.chain.as_slice(),
        accesses: log.items(),
        writes: &[],
        words: &[],
    };
    match judge(cfg, &trial) {
        Some(end) => Ok(halt(state, end)),
        None => Ok(conclude(state, insn, &done)),
    }
}

/// Executes the instruction at RIP, which is `found` with the number of its bytes.
pub(crate) fn go(
    cfg: &Config,
    state: &mut State,
    log: &mut Log,
    found: Option<(Insn, u8)>,
) -> Result<StepEnd, NoMemory>
    ensures end { let t = gone cfg.now found state.old in
        Ends cfg.now state.old t (BreaksWith cfg.now found state.old Go t) state.new result }
    ensures accesses { let t = gone cfg.now found state.old in log.new ≡ listed_after log.old t.accesses result }
{
    if is_undecodable(cfg, state.cpu.rip, found) {
        log.clear();
        return Ok(halt(state, StepEnd::Broke(UNDECODABLE)));
    }
    match found {
        Some((insn, len)) => execute(cfg, state, log, &insn, len),
        None => unreachable!(),
    }
}
