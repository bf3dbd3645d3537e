//! What the lines of a trace put into the processor.

ghost use Rattle.std.specs.Prelude.{◌≡◌, ◌++◌, OnOk, IfOk};
ghost use Rattle.kc_replay.specs.Values.{with_value, placed, writes_of, assign_user, plain_user, user_set, assign_body, same_body};
ghost use Rattle.kc_replay.specs.Values.{body_set, assign_leave, sets_if, returns_if, cleared, leave_flags, scratch, same_leave, leave_set};

use kc_cpu::{Cpu, Mode};
use kc_events::{BodySet, Edit, LeaveSet, UserSet};
use kc_plain::{Items, NoMemory};
use kc_regions::{AfterIf, Config};
use kc_trace::{Assignment, Line};
use std::alloc::Global;

/// RFLAGS of user code: IF and bit 1.
const USER_FLAGS: u64 = 0x202;

/// IF, and IF with DF.
const IF: u64 = 0x200;

const IF_AND_DF: u64 = 0x600;

fn set_register(regs: &mut [u64; 16], register: u8, value: u64)
    ensures { regs.new ≡ with_value regs.old register value }
{
    if register < 16 {
        regs[register as usize] = value;
    }
}

// Appends the bytes from this address on.
fn add_bytes(writes: &mut Items<(u64, u8)>, address: u64, bytes: &[u8]) -> Result<(), NoMemory>
    ensures { OnOk result (writes.new ≡ writes.old ++ placed address bytes.now) }
{
    let mut at = address;
    for byte in bytes {
        writes.push((at, *byte))?;
        at = at.wrapping_add(1);
    }
    Ok(())
}

/// What the `mem` lines write with which the lines begin.
pub(crate) fn writes_of(alloc: Global, lines: &[Line]) -> Result<Items<(u64, u8)>, NoMemory>
    ensures { IfOk result (λ w. w ≡ writes_of lines.now) }
{
    let mut writes = Items::new(alloc);
    for line in lines {
        match line {
            Line::Mem(address, bytes) => add_bytes(&mut writes, *address, bytes.as_slice())?,
            _ => return Ok(writes),
        }
    }
    Ok(writes)
}

// User code with these writes, where a line assigns nothing.
fn plain_user(cfg: &Config, writes: Items<(u64, u8)>) -> UserSet
    ensures { result ≡ plain_user cfg.now writes }
{
    UserSet {
        regs: [0; 16],
        rip: 0,
        flags: USER_FLAGS,
        cs: cfg.user_cs64(),
        gs: 0,
        writes,
    }
}

fn assign_user(set: &mut UserSet, assignment: &Assignment)
    ensures { set.new ≡ assign_user set.old assignment.now }
{
    match *assignment {
        Assignment::SetRegister(register, value) => set_register(&mut set.regs, register, value),
        Assignment::SetRip(value) => set.rip = value,
        Assignment::SetFlags(value) => set.flags = value,
        Assignment::SetCs(value) => set.cs = value,
        Assignment::SetGs(value) => set.gs = value,
        Assignment::SetDueRip(_) | Assignment::SetDueFlags(_) | Assignment::SetDueRsp(_) => {}
    }
}

/// What a `start` or `user` line leaves.
pub(crate) fn user_set(
    cfg: &Config,
    assignments: &[Assignment],
    writes: Items<(u64, u8)>,
) -> UserSet
    ensures { result ≡ user_set cfg.now assignments.now writes }
{
    let mut set = plain_user(cfg, writes);
    for assignment in assignments {
        assign_user(&mut set, assignment);
    }
    set
}

// A step that changes nothing but by these writes.
fn same_body(cpu: &Cpu, writes: Items<(u64, u8)>) -> BodySet
    ensures { result ≡ same_body cpu.now writes }
{
    BodySet {
        regs: cpu.regs,
        rip: cpu.rip,
        flags: cpu.flags,
        writes,
        edit: Edit {
            rip: None,
            flags: None,
            rsp: None,
        },
    }
}

fn assign_body(set: &mut BodySet, assignment: &Assignment)
    ensures { set.new ≡ assign_body set.old assignment.now }
{
    match *assignment {
        Assignment::SetRegister(register, value) => set_register(&mut set.regs, register, value),
        Assignment::SetRip(value) => set.rip = value,
        Assignment::SetFlags(value) => set.flags = value,
        Assignment::SetCs(_) | Assignment::SetGs(_) => {}
        Assignment::SetDueRip(value) => set.edit.rip = Some(value),
        Assignment::SetDueFlags(value) => set.edit.flags = Some(value),
        Assignment::SetDueRsp(value) => set.edit.rsp = Some(value),
    }
}

/// What a `body` line leaves.
pub(crate) fn body_set(cpu: &Cpu, assignments: &[Assignment], writes: Items<(u64, u8)>) -> BodySet
    ensures { result ≡ body_set cpu.now assignments.now writes }
{
    let mut set = same_body(cpu, writes);
    for assignment in assignments {
        assign_body(&mut set, assignment);
    }
    set
}

fn sets_if(after_if: AfterIf, flags: u64) -> bool
    ensures { result ≡ sets_if after_if flags }
{
    match after_if {
        AfterIf::Keep => flags >> 9 & 1 == 1,
        AfterIf::On => true,
        AfterIf::Off | AfterIf::Any => false,
    }
}

// Whether the handler that runs returns with IF set, as far as its contract says.
fn returns_if(cfg: &Config, mode: Mode) -> bool
    ensures { result ≡ returns_if cfg.now mode }
{
    match mode {
        Mode::User | Mode::Code => false,
        Mode::Inside(call) => match cfg.handlers.get(call.handler as usize) {
            Some(handler) => sets_if(handler.after_if, call.flags),
            None => false,
        },
    }
}

fn leave_flags(cfg: &Config, cpu: &Cpu) -> u64
    ensures { result ≡ leave_flags cfg.now cpu.now }
{
    let cleared = cpu.flags & !IF_AND_DF;
    if returns_if(cfg, cpu.mode) {
        cleared | IF
    } else {
        cleared
    }
}

// The registers that a handler doesn't give back; 0 in the place of the others.
fn scratch(regs: &[u64; 16]) -> [u64; 16]
    ensures { result ≡ scratch regs.now }
{
    [
        regs[0], regs[1], regs[2], 0, 0, 0, regs[6], regs[7], regs[8], regs[9], regs[10], regs[11],
        0, 0, 0, 0,
    ]
}

fn same_leave(cfg: &Config, cpu: &Cpu) -> LeaveSet
    ensures { result ≡ same_leave cfg.now cpu.now }
{
    LeaveSet {
        regs: scratch(&cpu.regs),
        flags: leave_flags(cfg, cpu),
    }
}

fn assign_leave(set: &mut LeaveSet, assignment: &Assignment)
    ensures { set.new ≡ assign_leave set.old assignment.now }
{
    match *assignment {
        Assignment::SetRegister(register, value) => set_register(&mut set.regs, register, value),
        Assignment::SetFlags(value) => set.flags = value,
        Assignment::SetRip(_) | Assignment::SetCs(_) | Assignment::SetGs(_) => {}
        Assignment::SetDueRip(_) | Assignment::SetDueFlags(_) | Assignment::SetDueRsp(_) => {}
    }
}

/// What a `leave` line leaves.
pub(crate) fn leave_set(cfg: &Config, cpu: &Cpu, assignments: &[Assignment]) -> LeaveSet
    ensures { result ≡ leave_set cfg.now cpu.now assignments.now }
{
    let mut set = same_leave(cfg, cpu);
    for assignment in assignments {
        assign_leave(&mut set, assignment);
    }
    set
}
