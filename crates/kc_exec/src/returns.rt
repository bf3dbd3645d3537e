//! SYSRETQ and IRETQ (Intel SDM vol. 2, "SYSRET" and "IRET/IRETD/IRETQ").

ghost use Rattle.std.specs.Prelude.{◌≡◌, ◌<◌, ◌^◌, ◌%◌, ◌≤◌, length};
ghost use Rattle.kc_exec.specs.Effect.{row, descriptor_read, is_null, iret_reads};
ghost use Rattle.kc_insn.specs.declared.insn.Insn.TheVariants.{Sysretq, Iretq};

use crate::access::Access;
use crate::before::{Before, read_of_8};
use crate::executed::{ExecEnd, Executed, go_to};
use crate::flags::{LOADABLE, SYSRET_FLAGS, load_flags};
use crate::log::Log;
use crate::register::{put_register, value_of};
use kc_insn::Reg;

#[tactic(auto, unfolding(crate::specs::Effect::row))]
pub(crate) fn sysretq(m: &Before) -> Executed
    ensures { result ≡ row m.now Sysretq }
{
    let cfg = m.cfg;
    let mut cpu = *m.cpu;
    cpu.flags = load_flags(SYSRET_FLAGS, value_of(m.cpu, Reg::R11));
    cpu.cs = cfg.user_cs64();
    cpu.ss = cfg.user_ss();
    let mut done = go_to(m, value_of(m.cpu, Reg::RCX), cpu, Log::new(), None);
    done.end = ExecEnd::Returned;
    done
}

// The selector in a word: its low 16 bits.
fn selector(word: u64) -> u16
    ensures { result ≡ word % 2 ^ 16 }
{
    (word & 0xFFFF) as u16
}

// The read of the descriptor that a selector names.
fn reads_descriptor(m: &Before, selector: u16) -> Access
    ensures { result ≡ descriptor_read m.now selector }
{
    let cfg = m.cfg;
    read_of_8(cfg.cpu.gdt.wrapping_add(u64::from(selector - selector % 8)))
}

// Whether a selector names no descriptor.
fn names_none(selector: u16) -> bool
    ensures { result ≡ is_null selector }
{
    selector - selector % 4 == 0
}

// The five words, the descriptor of CS, and that of an SS that isn't null.
fn list_reads(m: &Before) -> Log
    ensures { result ≡ iret_reads m.now }
{
    let mut reads = Log::of(m.word_read(0));
    reads.push(m.word_read(1));
    reads.push(m.word_read(2));
    reads.push(m.word_read(3));
    reads.push(m.word_read(4));
    reads.push(reads_descriptor(m, selector(m.word(1))));
    let ss = selector(m.word(4));
    if !names_none(ss) {
        reads.push(reads_descriptor(m, ss));
    }
    reads
}

#[tactic(auto, unfolding(crate::specs::Effect::row))]
pub(crate) fn iretq(m: &Before) -> Executed
    ensures { result ≡ row m.now Iretq }
{
    let mut cpu = put_register(m.cpu, Reg::RSP, m.word(3));
    cpu.rip = m.word(0);
    cpu.flags = load_flags(LOADABLE, m.word(2));
    cpu.cs = selector(m.word(1));
    cpu.ss = selector(m.word(4));
    let mut latch = *m.latch;
    latch.nmi_blocked = false;
    latch.shadow = false;
    Executed {
        cpu,
        latch,
        reads: list_reads(m),
        write: None,
        end: ExecEnd::Returned,
    }
}
