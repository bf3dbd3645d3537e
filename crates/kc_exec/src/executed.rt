//! What an instruction leaves, as a record of changes. This project's own.

ghost use Rattle.std.specs.Prelude.{◌≡◌, [], None};
ghost use Rattle.kc_exec.specs.Operand.{with_result};
ghost use Rattle.kc_exec.specs.Change.{goes, falls, operated};

use crate::access::Write;
use crate::before::Before;
use crate::log::Log;
use crate::register::put_register;
use kc_cpu::{Cpu, Latch};
use kc_insn::Place;
use kc_words::Width;

/// How an instruction ends.
#[derive(Clone, Copy, PartialEq, Eq, Debug)]
pub enum ExecEnd {
    /// It was executed, and was no return.
    Next,
    /// It was IRETQ or SYSRETQ: the mode is still Code, and the machine sets it.
    Returned,
    /// An access has a byte in a guard.
    Stopped,
    /// It breaks B6, B7 or B8.
    Forbidden(u8),
}

/// What an instruction does, whatever its accesses touch. After `Stopped` and `Forbidden` nothing of
/// it happens, and the accesses are those that it would make.
#[derive(Debug, Drop)]
pub struct Executed {
    /// The processor afterwards.
    pub cpu: Cpu,
    /// The latches afterwards.
    pub latch: Latch,
    /// The data reads in their order, at most 7. They go before the write.
    pub reads: Log,
    pub write: Option<Write>,
    /// Never `Stopped`.
    pub end: ExecEnd,
}

// The instruction at the target follows, and the gap after an STI ends.
pub(crate) fn go_to(m: &Before, target: u64, cpu: Cpu, reads: Log, write: Option<Write>) -> Executed
    ensures { result ≡ goes m.now target cpu reads write }
{
    let mut cpu = cpu;
    cpu.rip = target;
    let mut latch = *m.latch;
    latch.shadow = false;
    Executed {
        cpu,
        latch,
        reads,
        write,
        end: ExecEnd::Next,
    }
}

// The next instruction follows.
pub(crate) fn go_on(m: &Before, cpu: Cpu, reads: Log, write: Option<Write>) -> Executed
    ensures { result ≡ falls m.now cpu reads write }
{
    go_to(m, m.next, cpu, reads, write)
}

// The next instruction follows, and the processor alone is changed.
pub(crate) fn go_on_with(m: &Before, cpu: Cpu) -> Executed
    ensures { result ≡ falls m.now cpu [] None }
{
    go_on(m, cpu, Log::new(), None)
}

// The processor with a result in the operand, where that is a register.
pub(crate) fn put_result(cpu: &Cpu, dest: Place, v: u64) -> Cpu
    ensures { result ≡ with_result dest v cpu.now }
{
    match dest {
        Place::Reg(r) => put_register(cpu, r, v),
        Place::Mem(_) => *cpu,
    }
}

// An operation's flags, and its result, where it isn't dropped, in the destination.
pub(crate) fn finish(
    m: &Before,
    w: Width,
    dest: Place,
    reads: Log,
    flags: u64,
    outcome: Option<u64>,
) -> Executed
    ensures { result ≡ operated m.now w dest reads flags outcome }
{
    let mut cpu = *m.cpu;
    cpu.flags = flags;
    match outcome {
        None => go_on(m, cpu, reads, None),
        Some(v) => go_on(m, put_result(&cpu, dest, v), reads, m.write_to(w, dest, v)),
    }
}
