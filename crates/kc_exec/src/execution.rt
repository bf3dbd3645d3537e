//! The effect of an instruction as a call that only reads, and its execution.

ghost use Rattle.std.specs.Prelude.{◌≡◌, ◌↔◌, ℕ, ◌+◌, ◌≤◌, cond, length, IsTrue};
ghost use Rattle.kc_exec.specs.Breaks.{break_of, effect as effect_of};
ghost use Rattle.kc_exec.specs.Execution.{moment, accesses_of, guarded, stops, end_of, is_done, with_write, executed};

use crate::access::{Access, Write};
use crate::before::Before;
use crate::breaks::find_break;
use crate::executed::{ExecEnd, Executed};
use crate::log::Log;
use crate::table::run_row;
use kc_cpu::{Cpu, Latch};
use kc_insn::Insn;
use kc_mem::Memory;
use kc_regions::{Config, Touch};
use kc_words::Width;

/// What the instruction does, whatever its accesses touch. It changes nothing.
#[tactic(auto, unfolding(crate::specs::Breaks::effect))]
pub fn effect(m: &Before, insn: &Insn) -> Executed
    ensures changes { result ≡ effect_of m.now insn.now }
    ensures few { length result.reads ≤ 7 }
{
    let mut done = run_row(m, insn);
    if let Some(number) = find_break(m, insn) {
        done.end = ExecEnd::Forbidden(number);
    }
    done
}

// Whether one of so many bytes from `at` on lies in a guard.
fn touches_guard(cfg: &Config, at: u64, size: u8) -> bool
    ensures { result ≡ guarded cfg.now.regions at size }
{
    let mut a = at;
    for _ in 0..size {
        if cfg.is_guard(a) {
            return true;
        }
        a = a.wrapping_add(1);
    }
    false
}

/// Whether one of the accesses has a byte in a guard.
pub fn meets_guard(cfg: &Config, accesses: &[Access]) -> bool
    ensures is { result ≡ stops cfg.now accesses.now }
{
    accesses
        .iter()
        .any(|access| touches_guard(cfg, access.at, access.size))
}

impl Executed {
    /// Puts the accesses of the instruction, which has `len` bytes at RIP of `cpu`, into `log`: the
    /// fetch, then the data reads, then the write.
    pub fn list_accesses(&self, cpu: &Cpu, len: u8, log: &mut Log)
        requires { length self.now.reads ≤ 7 }
        ensures list { log.new ≡ accesses_of cpu.now len self.now }
    {
        log.clear();
        log.push(Access {
            at: cpu.rip,
            size: len,
            touch: Touch::Fetch,
            gs: false,
        });
        log.append(&self.reads);
        if let Some(write) = self.write {
            log.push(write.access());
        }
    }
}

fn store(mem: &mut Memory, write: &Write)
    requires { 8 ≤ mem.old.spare }
    ensures bytes { mem.new.bytes ≡ with_write (Some write.now) mem.old.bytes }
    ensures spare { mem.old.spare ≤ mem.new.spare + 8 }
{
    match write.width {
        Width::Byte => mem.write1(write.at, (write.value & 0xFF) as u8),
        Width::Long => mem.write4(write.at, (write.value & 0xFFFF_FFFF) as u32),
        Width::Quad => mem.write8(write.at, write.value),
    }
}

/// Executes the instruction, whose spelling has `len` bytes at RIP. It takes no memory.
///
/// `Stopped` comes exactly where an access has a byte in a guard, and `Forbidden` with 6, 7 or 8
/// exactly where there is no such access and the instruction breaks B6, B7 or B8; that SYSRETQ ends
/// an activation of another kind is the machine's to judge. After both the processor, the latches
/// and the memory are as before. The log has the whole list of accesses after every end.
pub fn exec(
    cfg: &Config,
    cpu: &mut Cpu,
    latch: &mut Latch,
    mem: &mut Memory,
    insn: &Insn,
    len: u8,
    log: &mut Log,
) -> ExecEnd
    requires { 8 ≤ mem.old.spare }
    ensures end { let done = executed cfg.now cpu.old latch.old mem.old.bytes len insn.now in
        result ≡ end_of cfg.now cpu.old len done }
    ensures accesses { let done = executed cfg.now cpu.old latch.old mem.old.bytes len insn.now in
        log.new ≡ accesses_of cpu.old len done }
    ensures stopped { (result ≡ ExecEnd.Stopped) ↔ IsTrue (stops cfg.now log.new) }
    ensures forbidden { (n : ℕ) → (result ≡ ExecEnd.Forbidden n)
        ↔ (¬ IsTrue (stops cfg.now log.new)
        × (break_of (moment cfg.now cpu.old latch.old mem.old.bytes len) insn.now ≡ Some n)) }

    // After a stop and a break all is as before.
    ensures processor { let done = executed cfg.now cpu.old latch.old mem.old.bytes len insn.now in
        cpu.new ≡ cond (is_done result) done.cpu cpu.old }
    ensures latches { let done = executed cfg.now cpu.old latch.old mem.old.bytes len insn.now in
        latch.new ≡ cond (is_done result) done.latch latch.old }
    ensures bytes { let done = executed cfg.now cpu.old latch.old mem.old.bytes len insn.now in
        mem.new.bytes ≡ cond (is_done result) (with_write done.write mem.old.bytes) mem.old.bytes }
    ensures spare { mem.old.spare ≤ mem.new.spare + 8 }
{
    let done = effect(&Before::new(cfg, cpu, latch, mem, len), insn);
    done.list_accesses(cpu, len, log);
    if meets_guard(cfg, log.items()) {
        return ExecEnd::Stopped;
    }
    if let ExecEnd::Next | ExecEnd::Returned = done.end {
        *cpu = done.cpu;
        *latch = done.latch;
        if let Some(write) = &done.write {
            store(mem, write);
        }
    }
    done.end
}
