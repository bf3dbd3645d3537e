//! What an instruction finds: the description, the processor, its latches and memory, and how its
//! operands are found there (Intel SDM vol. 1, "Operand Addressing").

ghost use Rattle.std.specs.Prelude.{◌≡◌, ◌≤◌, ◌++◌, length};
ghost use Rattle.kc_mem.specs.Memory.{read};
ghost use Rattle.kc_insn.specs.Fields.{source_of};
ghost use Rattle.kc_exec.specs.Execution.{moment};
ghost use Rattle.kc_exec.specs.Operand.{base_value, scaled_index, effective, linear, size_of, operand, destination, plain_read, reads_of, write_of};
ghost use Rattle.kc_exec.specs.Change.{pushed_rsp, with_pushed_rsp, push_of, stack_address, stack_word, stack_read, with_popped_rsp};

use crate::access::{Access, Write};
use crate::log::Log;
use crate::register::{put_register, value_of};
use kc_cpu::{Cpu, Latch};
use kc_insn::{Base, Mem, Place, Reg, Source};
use kc_mem::Memory;
use kc_regions::{Config, Touch};
use kc_words::Width;
use std::marker::Model;

/// What an instruction finds when it runs. Of memory it sees the bytes alone.
#[derive(Drop)]
pub struct Before<'a> {
    pub cfg: &'a Config,
    pub cpu: &'a Cpu,
    pub latch: &'a Latch,
    pub mem: &'a Memory,
    /// The address after the instruction.
    pub next: u64,
}

impl<'a> Model for Before<'a> {
    ghost use Rattle.std.specs.Coded.{codes};
    ghost use Rattle.kc_exec.specs.Moment.{Moment, bytes_code};

    ghost Value = { Moment };

    ghost coded = { Prim.hlevel (codes, bytes_code) };

    ghost view = { λ m. record { cfg = m.cfg.now; cpu = m.cpu.now; latch = m.latch.now; mem = m.mem.now.bytes; next = m.next } };
}

// How many bytes an operand of this width has.
pub(crate) fn bytes_of(w: Width) -> u8
    ensures { result ≡ size_of w }
{
    match w {
        Width::Byte => 1,
        Width::Long => 4,
        Width::Quad => 8,
    }
}

// The number of so many bytes from `at` on.
fn load(mem: &Memory, at: u64, w: Width) -> u64
    ensures { result ≡ read mem.now.bytes at (size_of w) }
{
    match w {
        Width::Byte => u64::from(mem.read1(at)),
        Width::Long => u64::from(mem.read4(at)),
        Width::Quad => mem.read8(at),
    }
}

// A read of 8 bytes of an address without the active GS base.
pub(crate) fn read_of_8(at: u64) -> Access
    ensures { result ≡ plain_read at 8 }
{
    Access {
        at,
        size: 8,
        touch: Touch::Read,
        gs: false,
    }
}

fn as_source(place: Place) -> Source
    ensures { result ≡ source_of place }
{
    match place {
        Place::Reg(r) => Source::Reg(r),
        Place::Mem(m) => Source::Mem(m),
    }
}

impl<'a> Before<'a> {
    /// What an instruction of `len` bytes at RIP finds.
    pub fn new(
        cfg: &'a Config,
        cpu: &'a Cpu,
        latch: &'a Latch,
        mem: &'a Memory,
        len: u8,
    ) -> Before<'a>
        ensures value { result ≡ moment cfg.now cpu.now latch.now mem.now.bytes len }
    {
        Before {
            cfg,
            cpu,
            latch,
            mem,
            next: cpu.rip.wrapping_add(u64::from(len)),
        }
    }

    fn base_address(&self, base: Base) -> u64
        ensures { result ≡ base_value self.now base }
    {
        match base {
            Base::Absent => 0,
            Base::Rip => self.next,
            Base::Reg(r) => value_of(self.cpu, r),
        }
    }

    fn index_address(&self, index: Option<(Reg, u8)>) -> u64
        ensures { result ≡ scaled_index self.now index }
    {
        match index {
            None => 0,
            Some((r, scale)) => value_of(self.cpu, r).wrapping_mul(u64::from(scale)),
        }
    }

    // The address of the operand without the active GS base.
    pub(crate) fn offset(&self, mem: Mem) -> u64
        ensures { result ≡ effective self.now mem }
    {
        self.base_address(mem.base)
            .wrapping_add(self.index_address(mem.index))
            .wrapping_add(i64::from(mem.disp).cast_unsigned())
    }

    // The address of the operand.
    fn address(&self, mem: Mem) -> u64
        ensures { result ≡ linear self.now mem }
    {
        let gs = if mem.gs { self.cpu.gs } else { 0 };
        self.offset(mem).wrapping_add(gs)
    }

    // The operand's value at this width.
    pub(crate) fn source(&self, w: Width, src: Source) -> u64
        ensures { result ≡ operand self.now w src }
    {
        match src {
            Source::Reg(r) => w.cut(value_of(self.cpu, r)),
            Source::Mem(mem) => load(self.mem, self.address(mem), w),
            Source::Imm(z) => w.cut(z.cast_unsigned()),
        }
    }

    // The value at this width of an operand that may be written.
    pub(crate) fn place(&self, w: Width, dest: Place) -> u64
        ensures { result ≡ destination self.now w dest }
    {
        self.source(w, as_source(dest))
    }

    // The access by which the operand is read.
    pub(crate) fn source_reads(&self, w: Width, src: Source) -> Log
        ensures list { result ≡ reads_of self.now w src }
        ensures few { length result ≤ 1 }
    {
        match src {
            Source::Reg(_) | Source::Imm(_) => Log::new(),
            Source::Mem(mem) => Log::of(Access {
                at: self.address(mem),
                size: bytes_of(w),
                touch: Touch::Read,
                gs: mem.gs,
            }),
        }
    }

    // The same of an operand that may be written.
    pub(crate) fn place_reads(&self, w: Width, dest: Place) -> Log
        ensures list { result ≡ reads_of self.now w (source_of dest) }
        ensures few { length result ≤ 1 }
    {
        self.source_reads(w, as_source(dest))
    }

    // The accesses by which two operands are read.
    pub(crate) fn pair_reads(&self, w: Width, dest: Place, src: Source) -> Log
        ensures { result ≡ reads_of self.now w (source_of dest) ++ reads_of self.now w src }
    {
        let mut reads = self.place_reads(w, dest);
        reads.append(&self.source_reads(w, src));
        reads
    }

    // The write by which a result goes into the operand, where that is in memory.
    pub(crate) fn write_to(&self, w: Width, dest: Place, value: u64) -> Option<Write>
        ensures { result ≡ write_of self.now w dest value }
    {
        match dest {
            Place::Reg(_) => None,
            Place::Mem(mem) => Some(Write {
                at: self.address(mem),
                width: w,
                value,
                gs: mem.gs,
            }),
        }
    }

    // RSP after a push (Intel SDM vol. 1, "Stack Behavior in 64-Bit Mode").
    pub(crate) fn rsp_after_push(&self) -> u64
        ensures { result ≡ pushed_rsp self.now }
    {
        value_of(self.cpu, Reg::RSP).wrapping_sub(8)
    }

    // The processor with RSP as a push leaves it.
    pub(crate) fn push_rsp(&self) -> Cpu
        ensures { result ≡ with_pushed_rsp self.now }
    {
        put_register(self.cpu, Reg::RSP, self.rsp_after_push())
    }

    // The write of a push.
    pub(crate) fn push(&self, value: u64) -> Option<Write>
        ensures { result ≡ push_of self.now value }
    {
        Some(Write {
            at: self.rsp_after_push(),
            width: Width::Quad,
            value,
            gs: false,
        })
    }

    // The address of word i on the stack, from 0.
    fn stack_at(&self, i: u8) -> u64
        ensures { result ≡ stack_address self.now i }
    {
        value_of(self.cpu, Reg::RSP).wrapping_add(8 * u64::from(i))
    }

    // Word i on the stack.
    pub(crate) fn word(&self, i: u8) -> u64
        ensures { result ≡ stack_word self.now i }
    {
        let mem = self.mem;
        mem.read8(self.stack_at(i))
    }

    // The read of word i on the stack.
    pub(crate) fn word_read(&self, i: u8) -> Access
        ensures { result ≡ stack_read self.now i }
    {
        read_of_8(self.stack_at(i))
    }

    // The processor with RSP as a pop leaves it.
    pub(crate) fn pop_rsp(&self) -> Cpu
        ensures { result ≡ with_popped_rsp self.now }
    {
        let rsp = value_of(self.cpu, Reg::RSP).wrapping_add(8);
        put_register(self.cpu, Reg::RSP, rsp)
    }
}
