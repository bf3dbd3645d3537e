//! Assignments of registers and latches, and bytes of memory, as files of cases write them.

ghost use Rattle.std.specs.Prelude.{◌<◌, IfSome};

use crate::lines::number;
use kc_cpu::{Call, Cpu, Latch, Mode};

/// A processor with its latches.
#[derive(Clone, Copy, PartialEq, Eq)]
pub struct Processor {
    pub cpu: Cpu,
    pub latch: Latch,
}

impl Processor {
    /// The state that the cases of instructions begin with, but for what their lines `in` name.
    pub fn base() -> Processor {
        let regs = [
            0,
            0x1111_1111_1111_1111,
            0x2222_2222_2222_2222,
            0x3333_3333_3333_3333,
            0xFFFF_FFFF_8300_4000,
            0x5555_5555_5555_5555,
            0x6666_6666_6666_6666,
            0x7777_7777_7777_7777,
            0x8888_8888_8888_8888,
            0x9999_9999_9999_9999,
            0xAAAA_AAAA_AAAA_AAAA,
            0xBBBB_BBBB_BBBB_BBBB,
            0xCCCC_CCCC_CCCC_CCCC,
            0xDDDD_DDDD_DDDD_DDDD,
            0xEEEE_EEEE_EEEE_EEEE,
            0xFFFF_FFFF_FFFF_FFFF,
        ];
        Processor {
            cpu: Cpu {
                regs,
                rip: 0xFFFF_FFFF_8100_0400,
                flags: 2,
                cs: 0x10,
                ss: 0x18,
                gs: 0xFFFF_FFFF_8200_2000,
                kgs: 0x1234,
                cr3: 0x100_0000,
                mode: Mode::Code,
            },
            latch: Latch {
                nmi_blocked: false,
                shadow: false,
                mcip: false,
            },
        }
    }

    /// With assignments `name=value`, apart by blanks; nothing where one isn't read.
    pub fn with_all(&self, assignments: &str) -> Option<Processor> {
        let mut next = *self;
        for assignment in assignments.split(' ') {
            next = next.with(assignment)?;
        }
        Some(next)
    }

    /// With an assignment `name=value`; nothing where it isn't one.
    pub fn with(&self, assignment: &str) -> Option<Processor> {
        let (name, value) = assignment.split_once('=')?;
        let mut next = *self;
        match name {
            "rip" => next.cpu.rip = number(value)?,
            "rflags" => next.cpu.flags = number(value)?,
            "cs" => next.cpu.cs = selector(value)?,
            "ss" => next.cpu.ss = selector(value)?,
            "gs" => next.cpu.gs = number(value)?,
            "kgs" => next.cpu.kgs = number(value)?,
            "cr3" => next.cpu.cr3 = number(value)?,
            "nmi_blocked" => next.latch.nmi_blocked = set(value)?,
            "shadow" => next.latch.shadow = set(value)?,
            "mcip" => next.latch.mcip = set(value)?,
            _ => next.cpu.regs[register(name)?] = number(value)?,
        }
        Some(next)
    }

    /// Inside a handler, with the parts of its call that a line `inside` names; nothing where one isn't read.
    pub fn inside(&self, assignments: &str) -> Option<Processor> {
        let mut call = match self.cpu.mode {
            Mode::Inside(call) => call,
            Mode::User | Mode::Code => Call {
                handler: 0,
                rsp: 0,
                back: 0,
                flags: 0,
                kept: [0; 6],
            },
        };
        for assignment in assignments.split(' ') {
            call = with_part(&call, assignment)?;
        }
        let mut next = *self;
        next.cpu.mode = Mode::Inside(call);
        Some(next)
    }
}

fn with_part(call: &Call, assignment: &str) -> Option<Call> {
    let (name, value) = assignment.split_once('=')?;
    let mut next = *call;
    match name {
        "handler" => next.handler = handler(value)?,
        "rsp" => next.rsp = number(value)?,
        "back" => next.back = number(value)?,
        "rflags" => next.flags = number(value)?,
        "rbx" => next.kept[0] = number(value)?,
        "rbp" => next.kept[1] = number(value)?,
        "r12" => next.kept[2] = number(value)?,
        "r13" => next.kept[3] = number(value)?,
        "r14" => next.kept[4] = number(value)?,
        "r15" => next.kept[5] = number(value)?,
        _ => return None,
    }
    Some(next)
}

fn handler(text: &str) -> Option<u16> {
    match u16::from_str_radix(text, 10) {
        Ok(n) => Some(n),
        Err(_) => None,
    }
}

fn selector(text: &str) -> Option<u16> {
    match u16::from_str_radix(text.strip_prefix("0x")?, 16) {
        Ok(n) => Some(n),
        Err(_) => None,
    }
}

fn set(text: &str) -> Option<bool> {
    match text {
        "0x0" => Some(false),
        "0x1" => Some(true),
        _ => None,
    }
}

/// The number of a general register by its name.
fn register(name: &str) -> Option<usize>
    ensures { IfSome result (λ r. r < 16) }
{
    let names = [
        "rax", "rcx", "rdx", "rbx", "rsp", "rbp", "rsi", "rdi", "r8", "r9", "r10", "r11", "r12",
        "r13", "r14", "r15",
    ];
    names.iter().position(|other| *other == name)
}
