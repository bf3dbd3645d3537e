//! The data accesses of an instruction: its reads and then its store. This project's own.

ghost use Rattle.std.specs.Prelude.{◌≡◌, ◌+◌, ◌<◌, ◌≤◌, ◌++◌, [], ◌∷◌, length, true};
ghost use Rattle.kc_insn.specs.Encodable.{is_encodable};
ghost use Rattle.kc_insn.specs.Fields.{source_of};
ghost use Rattle.kc_state.specs.Conditions.{AbsAccess, read_of, stack_read, reads_of, write_of, accesses_of};
ghost use Rattle.kc_state.specs.Scaled.{HasScale};

use crate::changed::Store;
use crate::operand::as_source;
use crate::results::size_of;
use kc_insn::{Insn, Place, Source};
use kc_regions::Touch;
use kc_state::{Location, Moment, linear, loc, stack_location};
use kc_words::Width;
use std::marker::Model;

/// The most accesses of a list.
pub const MAX_ACCESSES: usize = 8;

/// An access: `size` bytes at a location, if it is known.
#[derive(Clone, Copy, PartialEq, Eq, Debug)]
pub struct Access {
    pub at: Option<Location>,
    pub size: u8,
    pub touch: Touch,
    /// Whether the active GS base went into the address.
    pub gs: bool,
}

impl Model for Access {
    ghost use Rattle.kc_state.specs.Conditions.{AbsAccess};

    ghost Value = { AbsAccess };

    ghost view = { λ a. record { at = a.at; size = a.size; touch = a.touch; gs = a.gs } };

    ghost inverse = { λ a. record { at = a.at; size = a.size; touch = a.touch; gs = a.gs } };
}

/// At most `MAX_ACCESSES` accesses in their order. Contracts see the list.
#[derive(Debug, Drop)]
pub struct Accesses {
    items: [Access; MAX_ACCESSES],
    len: usize,
}

impl Model for Accesses {
    ghost use Rattle.std.specs.Prelude.{◌≤◌, List, take};
    ghost use Rattle.kc_state.specs.Conditions.{AbsAccess};

    ghost Value = { List AbsAccess };

    ghost view = { λ l. take l.len l.items };

    ghost invariant = { λ l. l.len ≤ 8 };
}

impl Accesses {
    // The empty list.
    fn new() -> Accesses
        ensures { result ≡ [] }
    {
        let none = Access {
            at: None,
            size: 0,
            touch: Touch::Read,
            gs: false,
        };
        Accesses {
            items: [none; MAX_ACCESSES],
            len: 0,
        }
    }

    // The list of this access alone.
    fn of(access: Access) -> Accesses
        ensures { result ≡ access ∷ [] }
    {
        let mut list = Accesses::new();
        list.push(access);
        list
    }

    fn push(&mut self, access: Access)
        requires { length self.old < 8 }
        ensures { self.new ≡ self.old ++ access ∷ [] }
    {
        self.items[self.len] = access;
        self.len += 1;
    }

    fn append(&mut self, other: &Accesses)
        requires { length self.old + length other.now ≤ 8 }
        ensures { self.new ≡ self.old ++ other.now }
    {
        for access in other.items() {
            self.push(*access);
        }
    }

    /// The accesses in their order.
    pub fn items(&self) -> &[Access]
        ensures items { result.now ≡ self.now }
        ensures few { length self.now ≤ 8 }
    {
        &self.items[..self.len]
    }
}

// The read of word `i` on the stack.
fn stack_read(m: &Moment, i: u8) -> Access
    ensures { result ≡ stack_read m.now i }
{
    Access {
        at: stack_location(m, i),
        size: 8,
        touch: Touch::Read,
        gs: false,
    }
}

// The access by which an operand is read.
fn read_of(m: &Moment, w: Width, src: Source) -> Accesses
    requires { HasScale src }
    ensures list { result ≡ read_of m.now w src }
    ensures few { length result ≤ 1 }
{
    match src {
        Source::Reg(_) | Source::Imm(_) => Accesses::new(),
        Source::Mem(mem) => Accesses::of(Access {
            at: loc(m.key, &linear(m, mem)),
            size: size_of(w),
            touch: Touch::Read,
            gs: mem.gs,
        }),
    }
}

// The accesses by which two operands are read.
fn pair_reads(m: &Moment, w: Width, dest: Place, src: Source) -> Accesses
    requires dest { HasScale (source_of dest) }
    requires src { HasScale src }
    ensures list { result ≡ read_of m.now w (source_of dest) ++ read_of m.now w src }
    ensures few { length result ≤ 5 }
{
    let mut reads = read_of(m, w, as_source(dest));
    reads.append(&read_of(m, w, src));
    reads
}

// The five words of IRETQ.
fn frame_reads(m: &Moment) -> Accesses
    ensures list { result ≡ stack_read m.now 0 ∷ stack_read m.now 1 ∷ stack_read m.now 2 ∷ stack_read m.now 3
        ∷ stack_read m.now 4 ∷ [] }
    ensures few { length result ≤ 5 }
{
    let mut reads = Accesses::of(stack_read(m, 0));
    reads.push(stack_read(m, 1));
    reads.push(stack_read(m, 2));
    reads.push(stack_read(m, 3));
    reads.push(stack_read(m, 4));
    reads
}

// The data reads of an instruction.
fn reads_of(m: &Moment, insn: &Insn) -> Accesses
    requires { is_encodable insn.now ≡ true }
    ensures list { result ≡ reads_of m.now insn.now }
    ensures few { length result ≤ 5 }
{
    match *insn {
        Insn::Mov(w, _, src) => read_of(m, w, src),
        Insn::Xchg(w, dest, _) | Insn::Bit(_, w, dest, _) => read_of(m, w, as_source(dest)),
        Insn::Push(src) => read_of(m, Width::Quad, src),
        Insn::Alu(_, w, dest, src) | Insn::Test(w, dest, src) => pair_reads(m, w, dest, src),
        Insn::Pop(_) | Insn::Popfq | Insn::Ret => Accesses::of(stack_read(m, 0)),
        Insn::Iretq => frame_reads(m),
        _ => Accesses::new(),
    }
}

fn write_of(store: Option<Store>) -> Accesses
    ensures list { result ≡ write_of store }
    ensures few { length result ≤ 1 }
{
    match store {
        Some(s) => Accesses::of(Access {
            at: s.at,
            size: s.size,
            touch: Touch::Write,
            gs: s.gs,
        }),
        None => Accesses::new(),
    }
}

/// The data accesses of an instruction that makes this store. The descriptors that IRETQ reads aren't
/// among them.
pub fn accesses_of(m: &Moment, insn: &Insn, store: Option<Store>) -> Accesses
    requires encodable { is_encodable insn.now ≡ true }
    ensures list { result ≡ accesses_of m.now insn.now store }
{
    let mut all = reads_of(m, insn);
    all.append(&write_of(store));
    all
}
