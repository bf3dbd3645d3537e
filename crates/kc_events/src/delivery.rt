//! The delivery of an interrupt or exception (Intel SDM vol. 3A, "64-Bit Mode Stack Frame" and
//! "Interrupt Stack Table").

ghost use Rattle.std.specs.Prelude.{◌≡◌, ◌+◌, ◌*◌, ◌≤◌, ◌<◌, ◌^◌, ℕ, IsSome, IfSome, cond, length, map, ◌++◌, Some};
ghost use Rattle.kc_regions.specs.Lookup.{gate_of, tss_word};
ghost use Rattle.kc_exec.specs.Execution.{stops};
ghost use Rattle.kc_exec.specs.Operand.{plain_read};
ghost use Rattle.kc_events.specs.Delivery.{without_ist, stack_taken, chosen_rsp, base_of, frame_words, pushed, with_pushed, stack_reads, push_access, delivery_accesses, cleared_flags, ss_after, entered_cpu, entered_latch, delivered, delivery, end_of_delivery};

use crate::table::has_code;
use arrayvec::ArrayVec;
use kc_cpu::{Cpu, Latch, Mode};
use kc_exec::{Access, Log, Touch, meets_guard};
use kc_mem::Memory;
use kc_regions::{Config, Gate};

/// How a delivery ends.
#[derive(Clone, Copy, PartialEq, Eq, Debug)]
pub enum DeliverEnd {
    /// The event's code was entered: the aligned RSP from which the frame was pushed.
    Delivered(u64),
    /// A touched byte lies in a guard.
    Stopped,
}

/// RSP's number among the registers.
const RSP: usize = 4;

/// TF and NT, bits 8 and 14 of RFLAGS, which every gate clears, and with IF, bit 9, what an
/// interrupt gate clears.
const BY_TRAP_GATE: u64 = 0x4100;

const BY_INTERRUPT_GATE: u64 = 0x4300;

/// The vectors of NMIs and machine checks.
const NMI: u8 = 2;

const MACHINE_CHECK: u8 = 18;

/// The most words of a frame: SS, RSP, RFLAGS, CS, RIP and an error code.
const MAX_WORDS: usize = 6;

/// The words of a frame in the order in which they are pushed.
type Words = ArrayVec<u64, MAX_WORDS>;

/// The same with the addresses that they are pushed to.
type Frame = ArrayVec<(u64, u64), MAX_WORDS>;

fn word_without_ist(mode: Mode) -> Option<u8>
    ensures { result ≡ without_ist mode }
{
    match mode {
        Mode::User => Some(0),
        Mode::Code | Mode::Inside(_) => None,
    }
}

// The number of the TSS word that holds the new RSP; none where the stack stays.
fn choose_word(ist: u8, mode: Mode) -> Option<u8>
    ensures { result ≡ stack_taken ist mode }
{
    if ist == 0 {
        word_without_ist(mode)
    } else {
        Some(ist)
    }
}

// The address of the TSS, whose 104 bytes don't wrap.
fn tss_of(cfg: &Config) -> u64
    ensures value { result ≡ cfg.now.cpu.tss }
    ensures fits { result + 104 ≤ 2 ^ 64 }
{
    cfg.tell();
    cfg.cpu.tss
}

// The address of the TSS word of this number.
fn word_address(cfg: &Config, n: u8) -> u64
    requires { n ≤ 7 }
    ensures { result ≡ tss_word cfg.now.cpu.tss n }
{
    let tss = tss_of(cfg);
    if n == 0 {
        tss + 4
    } else {
        tss + 28 + 8 * u64::from(n)
    }
}

// RSP before it is aligned.
fn choose_rsp(cfg: &Config, mem: &Memory, cpu: &Cpu, word: Option<u8>) -> u64
    requires { IfSome word (λ n. n ≤ 7) }
    ensures { result ≡ chosen_rsp cfg.now mem.now.bytes cpu.now word }
{
    match word {
        Some(n) => mem.read8(word_address(cfg, n)),
        None => cpu.regs[RSP],
    }
}

fn list_words(cpu: &Cpu, vector: u8, code: u32) -> Words
    ensures { result.items ≡ frame_words cpu.now vector code }
{
    let mut words = Words::new();
    words.push(u64::from(cpu.ss));
    words.push(cpu.regs[RSP]);
    words.push(cpu.flags);
    words.push(u64::from(cpu.cs));
    words.push(cpu.rip);
    if has_code(vector) {
        words.push(u64::from(code));
    }
    words
}

// The words with the addresses that they are pushed to, from `top` downwards.
fn place_words(top: u64, words: &[u64]) -> Frame
    requires { length words.now ≤ 6 }
    ensures { result.items ≡ pushed top words.now }
{
    let mut frame = Frame::new();
    let mut at = top;
    for word in words {
        at = at.wrapping_sub(8);
        frame.push((at, *word));
    }
    frame
}

// The frame that is pushed from `base` downwards.
fn frame_from(cpu: &Cpu, vector: u8, code: u32, base: u64) -> Frame
    ensures frame { result.items ≡ pushed base (frame_words cpu.now vector code) }
    ensures few { length result.items ≤ 6 }
{
    let words = list_words(cpu, vector, code);
    place_words(base, words.as_slice())
}

fn read_of(at: u64, size: u8) -> Access
    ensures { result ≡ plain_read at size }
{
    Access {
        at,
        size,
        touch: Touch::Read,
        gs: false,
    }
}

fn push_of(word: (u64, u64)) -> Access
    ensures { result ≡ push_access word }
{
    Access {
        at: word.0,
        size: 8,
        touch: Touch::Write,
        gs: false,
    }
}

// Appends the read of a TSS word that is taken.
fn list_word(cfg: &Config, word: Option<u8>, log: &mut Log)
    requires word { IfSome word (λ n. n ≤ 7) }
    requires room { length log.old ≤ 8 }
    ensures list { log.new ≡ log.old ++ stack_reads cfg.now word }
    ensures few { length log.new ≤ 9 }
{
    if let Some(n) = word {
        log.push(read_of(word_address(cfg, n), 8));
    }
}

// Appends the pushes of the frame.
fn list_pushes(frame: &[(u64, u64)], log: &mut Log)
    requires { length log.old + length frame.now ≤ 16 }
    ensures { log.new ≡ log.old ++ map push_access frame.now }
{
    for word in frame {
        log.push(push_of(*word));
    }
}

// Lists the accesses: the gate, the descriptor of the kernel's CS, the word of the TSS where one is
// taken, and the pushes.
fn list(cfg: &Config, cpu: &Cpu, gate: &Gate, frame: &[(u64, u64)], log: &mut Log)
    requires ist { gate.now.ist ≤ 7 }
    requires words { length frame.now ≤ 6 }
    ensures { log.new ≡ delivery_accesses cfg.now cpu.now gate.now frame.now }
{
    log.clear();
    let idt = cfg.cpu.idt.wrapping_add(16 * u64::from(gate.vector));
    log.push(read_of(idt, 16));
    let gdt = cfg.cpu.gdt.wrapping_add(u64::from(cfg.cpu.star_kernel));
    log.push(read_of(gdt, 8));
    list_word(cfg, choose_word(gate.ist, cpu.mode), log);
    list_pushes(frame, log);
}

// Writes the words of the frame.
fn push_all(mem: &mut Memory, frame: &[(u64, u64)])
    requires { 8 * length frame.now ≤ mem.old.spare }
    ensures bytes { mem.new.bytes ≡ with_pushed mem.old.bytes frame.now }
    ensures spare { mem.old.spare ≤ mem.new.spare + 8 * length frame.now }
{
    for word in frame {
        mem.write8(word.0, word.1);
    }
}

fn flags_cleared(trap: bool) -> u64
    ensures { result ≡ cleared_flags trap }
{
    if trap {
        BY_TRAP_GATE
    } else {
        BY_INTERRUPT_GATE
    }
}

fn ss_of(cpu: &Cpu) -> u16
    ensures { result ≡ ss_after cpu.now cpu.now.mode }
{
    match cpu.mode {
        Mode::User => 0,
        Mode::Code | Mode::Inside(_) => cpu.ss,
    }
}

fn enter(cfg: &Config, cpu: &Cpu, gate: &Gate, rsp: u64) -> Cpu
    ensures { result ≡ entered_cpu cfg.now cpu.now gate.now rsp }
{
    let mut after = *cpu;
    after.regs[RSP] = rsp;
    after.rip = gate.entry;
    after.flags = cpu.flags & !flags_cleared(gate.trap);
    after.cs = cfg.cpu.star_kernel;
    after.ss = ss_of(cpu);
    after.mode = Mode::Code;
    after
}

fn enter_latch(latch: &Latch, vector: u8) -> Latch
    ensures { result ≡ entered_latch latch.now vector }
{
    Latch {
        nmi_blocked: latch.nmi_blocked || vector == NMI,
        shadow: false,
        mcip: latch.mcip || vector == MACHINE_CHECK,
    }
}

// The aligned RSP from which the frame is pushed.
fn align_rsp(cfg: &Config, mem: &Memory, cpu: &Cpu, gate: &Gate) -> u64
    requires { gate.now.ist ≤ 7 }
    ensures { result ≡ base_of cfg.now mem.now.bytes cpu.now gate.now }
{
    let chosen = choose_rsp(cfg, mem, cpu, choose_word(gate.ist, cpu.mode));
    chosen - chosen % 16
}

// The gate of the vector, which has one; its IST is in range.
fn gate_at(cfg: &Config, vector: u8) -> Gate
    requires { IsSome (gate_of cfg.now.gates vector) }
    ensures gate { gate_of cfg.now.gates vector ≡ Some result }
    ensures ist { result.ist ≤ 7 }
{
    cfg.tell();
    match cfg.gate(vector) {
        Some(gate) => gate,
        None => unreachable!(),
    }
}

// Delivers an event through this gate.
fn deliver_through(
    cfg: &Config,
    cpu: &mut Cpu,
    latch: &mut Latch,
    mem: &mut Memory,
    gate: &Gate,
    code: u32,
    log: &mut Log,
) -> DeliverEnd
    requires ist { gate.now.ist ≤ 7 }
    requires room { 48 ≤ mem.old.spare }
    ensures end { let d = delivered cfg.now mem.old.bytes cpu.old latch.old gate.now code in result
        ≡ end_of_delivery cfg.now d }
    ensures accesses { let d = delivered cfg.now mem.old.bytes cpu.old latch.old gate.now code in log.new ≡ d.accesses }
    ensures processor { let d = delivered cfg.now mem.old.bytes cpu.old latch.old gate.now code in
        cpu.new ≡ cond (stops cfg.now d.accesses) cpu.old d.cpu }
    ensures latches { let d = delivered cfg.now mem.old.bytes cpu.old latch.old gate.now code in
        latch.new ≡ cond (stops cfg.now d.accesses) latch.old d.latch }
    ensures bytes { let d = delivered cfg.now mem.old.bytes cpu.old latch.old gate.now code in
        mem.new.bytes ≡ cond (stops cfg.now d.accesses) mem.old.bytes d.mem }
    ensures spare { mem.old.spare ≤ mem.new.spare + 48 }
{
    let base = align_rsp(cfg, mem, cpu, gate);
    let frame = frame_from(cpu, gate.vector, code, base);
    list(cfg, cpu, gate, frame.as_slice(), log);
    if meets_guard(cfg, log.items()) {
        return DeliverEnd::Stopped;
    }
    push_all(mem, frame.as_slice());
    let rsp = base.wrapping_sub(8 * frame.len() as u64);
    *cpu = enter(cfg, cpu, gate, rsp);
    *latch = enter_latch(latch, gate.vector);
    DeliverEnd::Delivered(base)
}

/// Delivers the event of this vector, with this error code where it pushes one. It takes no memory.
///
/// `Stopped` comes exactly where a touched byte lies in a guard; then processor, latches and memory
/// are as before. The log has the whole list of accesses after both ends: reads of the gate, of the
/// kernel's CS descriptor and of a TSS word that is taken, and then the pushes.
pub fn deliver(
    cfg: &Config,
    cpu: &mut Cpu,
    latch: &mut Latch,
    mem: &mut Memory,
    vector: u8,
    code: u32,
    log: &mut Log,
) -> DeliverEnd
    requires gate { IsSome (gate_of cfg.now.gates vector) }
    requires room { 48 ≤ mem.old.spare }
    ensures end { IfSome (delivery cfg.now mem.old.bytes cpu.old latch.old vector code)
        (λ d. result ≡ end_of_delivery cfg.now d) }
    ensures accesses { IfSome (delivery cfg.now mem.old.bytes cpu.old latch.old vector code)
        (λ d. log.new ≡ d.accesses) }
    ensures processor { IfSome (delivery cfg.now mem.old.bytes cpu.old latch.old vector code)
        (λ d. cpu.new ≡ cond (stops cfg.now d.accesses) cpu.old d.cpu) }
    ensures latches { IfSome (delivery cfg.now mem.old.bytes cpu.old latch.old vector code)
        (λ d. latch.new ≡ cond (stops cfg.now d.accesses) latch.old d.latch) }
    ensures bytes { IfSome (delivery cfg.now mem.old.bytes cpu.old latch.old vector code)
        (λ d. mem.new.bytes ≡ cond (stops cfg.now d.accesses) mem.old.bytes d.mem) }
    ensures spare { mem.old.spare ≤ mem.new.spare + 48 }
{
    let gate = gate_at(cfg, vector);
    deliver_through(cfg, cpu, latch, mem, &gate, code, log)
}
