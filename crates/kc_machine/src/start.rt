//! The start of a run.

ghost use Rattle.std.specs.Prelude.{◌≡◌, ◌+◌, ◌^◌, ◌≤◌, ◌++◌, length, IsTrue, ◌↔◌, Any, IfOk, OnOk};
ghost use Rattle.kc_regions.specs.declared.config.TheConstants.{MAX_WORDS as most_words};
ghost use Rattle.kc_mem.specs.Memory.{Bytes, put_all};
ghost use Rattle.kc_events.specs.Delivery.{with_pushed};
ghost use Rattle.kc_machine.specs.Start.{first_cpu, first_bytes, configured_words, tss_words, tracked_words, IsByteOfWord, MayStart, NamesConfigured, bytes_of_word};

use arrayvec::ArrayVec;
use kc_cpu::{Cpu, Mode};
use kc_events::UserSet;
use kc_exec::admitted;
use kc_mem::Memory;
use kc_plain::NoMemory;
use kc_regions::{Config, MAX_WORDS, Word};
use std::alloc::Global;

/// The words of the TSS: RSP0 and IST1 to IST7.
const TSS_WORDS: usize = 8;

/// The most words that a description sets.
const MAX_CONFIGURED: usize = TSS_WORDS + MAX_WORDS;

/// Words that a description sets, with their addresses.
type Words = ArrayVec<(u64, u64), MAX_CONFIGURED>;

/// The processor with which the user set starts; SS, the inactive GS base and CR3 are as described.
pub(crate) fn start_cpu(cfg: &Config, first: &UserSet) -> Cpu
    ensures { result ≡ first_cpu cfg.now first.now }
{
    let regs = first.regs;
    Cpu {
        regs,
        rip: first.rip,
        flags: first.flags,
        cs: first.cs,
        ss: cfg.user_ss(),
        gs: first.gs,
        kgs: cfg.cpu.kernel_gs,
        cr3: cfg.cpu.user_cr3,
        mode: Mode::User,
    }
}

// The address of the TSS, whose 104 bytes don't wrap.
fn tss_of(cfg: &Config) -> u64
    ensures value { result ≡ cfg.now.cpu.tss }
    ensures fits { result + 104 ≤ 2 ^ 64 }
{
    cfg.tell();
    cfg.cpu.tss
}

// The words of the TSS, RSP0 first (Intel SDM vol. 3A, "64-Bit Task Management").
fn list_tss(cfg: &Config) -> Words
    ensures words { result.items ≡ tss_words cfg.now.cpu }
    ensures few { length result.items ≤ 8 }
{
    let tss = tss_of(cfg);
    let cpu = cfg.cpu;
    let mut words = Words::new();
    words.push((tss + 4, cpu.rsp0));
    words.push((tss + 36, cpu.ist[0]));
    words.push((tss + 44, cpu.ist[1]));
    words.push((tss + 52, cpu.ist[2]));
    words.push((tss + 60, cpu.ist[3]));
    words.push((tss + 68, cpu.ist[4]));
    words.push((tss + 76, cpu.ist[5]));
    words.push((tss + 84, cpu.ist[6]));
    words
}

// Appends the tracked words, of which there are at most `MAX_WORDS`.
fn add_tracked(words: &mut Words, tracked: &[Word])
    requires few { length words.old.items ≤ 8 }
    requires fits { length tracked.now ≤ most_words }
    ensures { words.new.items ≡ words.old.items ++ tracked_words tracked.now }
{
    for word in tracked {
        words.push((word.at, word.value));
    }
}

// The words of the TSS and the tracked words.
fn list_configured(cfg: &Config) -> Words
    ensures { result.items ≡ configured_words cfg.now }
{
    cfg.tell();
    let mut words = list_tss(cfg);
    add_tracked(&mut words, cfg.words.as_slice());
    words
}

fn is_in_word(word: (u64, u64), at: u64) -> bool
    ensures { IsTrue result ↔ IsByteOfWord at word }
{
    at.wrapping_sub(word.0) < 8
}

// Whether the address is that of a byte of one of the words.
fn is_in_words(words: &[(u64, u64)], at: u64) -> bool
    ensures { IsTrue result ↔ Any (IsByteOfWord at) words.now }
{
    words.iter().any(|word| is_in_word(*word, at))
}

// Whether a write names a byte of one of the words.
fn names_word(words: &[(u64, u64)], writes: &[(u64, u8)]) -> bool
    ensures { IsTrue result ↔ Any (λ w. Any (IsByteOfWord w.0) words.now) writes.now }
{
    writes.iter().any(|write| is_in_words(words, write.0))
}

// Whether a write names a byte of a word of the TSS or of a tracked word.
fn names_configured(cfg: &Config, first: &UserSet) -> bool
    ensures { IsTrue result ↔ NamesConfigured cfg.now first.now }
{
    let words = list_configured(cfg);
    names_word(words.as_slice(), first.writes.as_slice())
}

/// Whether a machine starts with this user set: its processor is an admitted one, and no write names
/// a byte of a word of the TSS or of a tracked word.
pub fn may_start(cfg: &Config, first: &UserSet) -> bool
    ensures exact { IsTrue result ↔ MayStart cfg.now first.now }
{
    admitted(cfg, &start_cpu(cfg, first)) && !names_configured(cfg, first)
}

// Appends the bytes of the word, the least significant first.
fn add_bytes(bytes: &mut Vec<(u64, u8)>, word: (u64, u64)) -> Result<(), NoMemory>
    ensures { OnOk result (bytes.new.items ≡ bytes.old.items ++ bytes_of_word 8 word.0 word.1) }
{
    let (mut at, mut rest) = word;
    for _ in 0..8u64 {
        bytes.push((at, (rest % 256) as u8))?;
        at = at.wrapping_add(1);
        rest /= 256;
    }
    Ok(())
}

// The bytes of the words.
fn bytes_of(alloc: Global, words: &[(u64, u64)]) -> Result<Vec<(u64, u8)>, NoMemory>
    ensures { IfOk result (λ bytes. (m : Bytes) → put_all m bytes.items ≡ with_pushed m words.now) }
{
    let mut bytes = Vec::new(alloc);
    for word in words {
        add_bytes(&mut bytes, *word)?;
    }
    Ok(bytes)
}

/// The memory with which the user set starts.
pub(crate) fn start_memory(alloc: Global, cfg: &Config, first: &UserSet) -> Result<Memory, NoMemory>
    ensures { IfOk result (λ mem. mem.bytes ≡ first_bytes cfg.now first.now) }
{
    let words = list_configured(cfg);
    let mut mem = Memory::new(alloc);
    let bytes = bytes_of(alloc, words.as_slice())?;
    mem.apply(&bytes)?;
    mem.apply(first.writes.as_slice())?;
    Ok(mem)
}
