//! The assignments of a line.

ghost use Rattle.std.specs.Prelude.{◌≡◌, ◌+◌, ◌≤◌, ◌<◌, ◌++◌, length};
ghost use Rattle.kc_plain.specs.Appended.{Appended};
ghost use Rattle.kc_trace.specs.declared.assignment.Assignment.TheVariants.{SetDueRip, SetDueFlags, SetDueRsp};
ghost use Rattle.kc_trace.specs.Assignments.{is_given_back};
ghost use Rattle.kc_trace_text.specs.Lines.{registers, scratch_registers, user_assignments, body_assignments, leave_assignments, edited, edits};
ghost use Rattle.kc_trace_text.specs.Text.{register_name, assignment_text, text_of_assignments};
ghost use Rattle.kc_trace_text.specs.Room.{HasRoom, GrowsAtMost};

use crate::line::{Line, put, put_number};
use kc_events::{BodySet, Edit, LeaveSet, UserSet};

/// The registers' names by number.
const REGISTERS: [&str; 16] = [
    "rax", "rcx", "rdx", "rbx", "rsp", "rbp", "rsi", "rdi", "r8", "r9", "r10", "r11", "r12", "r13",
    "r14", "r15",
];

/// Adds a blank and `<name>=<number>`.
fn put_assignment(line: &mut Line, name: &str, value: u64)
    requires room { HasRoom line.old.items (length name.now + 20) }
    ensures text { Appended line.old.items line.new.items (assignment_text name.now value) }
    ensures len { GrowsAtMost line.old.items line.new.items (length name.now + 20) }
{
    put(line, " ");
    put(line, name);
    put(line, "=");
    put_number(line, value);
}

fn register_name(number: usize) -> &'static str
    requires number { number < 16 }
    ensures name { result.now ≡ register_name number }
    ensures short { length result.now ≤ 3 }
{
    REGISTERS[number]
}

/// Adds the registers.
fn put_registers(line: &mut Line, regs: &[u64; 16])
    requires room { HasRoom line.old.items 368 }
    ensures text { Appended line.old.items line.new.items (text_of_assignments (registers 0 regs.now)) }
    ensures len { GrowsAtMost line.old.items line.new.items 368 }
{
    for (number, value) in regs.iter().enumerate() {
        put_assignment(line, register_name(number), *value);
    }
}

/// Whether a handler gives the register back.
fn is_given_back(number: usize) -> bool
    ensures is { result ≡ is_given_back number }
{
    3 <= number && number <= 5 || 12 <= number
}

/// Adds the registers that a handler doesn't give back.
fn put_scratch(line: &mut Line, regs: &[u64; 16])
    requires room { HasRoom line.old.items 368 }
    ensures text { Appended line.old.items line.new.items (text_of_assignments (scratch_registers 0 regs.now)) }
    ensures len { GrowsAtMost line.old.items line.new.items 368 }
{
    for (number, value) in regs.iter().enumerate() {
        if !is_given_back(number) {
            put_assignment(line, register_name(number), *value);
        }
    }
}

/// Adds what user code leaves.
pub(crate) fn put_user(line: &mut Line, set: &UserSet)
    requires room { HasRoom line.old.items 462 }
    ensures text { Appended line.old.items line.new.items (text_of_assignments (user_assignments set.now)) }
    ensures len { GrowsAtMost line.old.items line.new.items 462 }
{
    put_registers(line, &set.regs);
    put_assignment(line, "rip", set.rip);
    put_assignment(line, "rflags", set.flags);
    put_assignment(line, "cs", u64::from(set.cs));
    put_assignment(line, "gs", set.gs);
}

fn put_due_rip(line: &mut Line, rip: Option<u64>)
    requires room { HasRoom line.old.items 27 }
    ensures text { Appended line.old.items line.new.items (text_of_assignments (edited SetDueRip rip)) }
    ensures len { GrowsAtMost line.old.items line.new.items 27 }
{
    if let Some(rip) = rip {
        put_assignment(line, "due.rip", rip);
    }
}

fn put_due_flags(line: &mut Line, flags: Option<u64>)
    requires room { HasRoom line.old.items 30 }
    ensures text { Appended line.old.items line.new.items (text_of_assignments (edited SetDueFlags flags)) }
    ensures len { GrowsAtMost line.old.items line.new.items 30 }
{
    if let Some(flags) = flags {
        put_assignment(line, "due.rflags", flags);
    }
}

fn put_due_rsp(line: &mut Line, rsp: Option<u64>)
    requires room { HasRoom line.old.items 27 }
    ensures text { Appended line.old.items line.new.items (text_of_assignments (edited SetDueRsp rsp)) }
    ensures len { GrowsAtMost line.old.items line.new.items 27 }
{
    if let Some(rsp) = rsp {
        put_assignment(line, "due.rsp", rsp);
    }
}

/// Adds the edits that there are.
fn put_edits(line: &mut Line, edit: &Edit)
    requires room { HasRoom line.old.items 84 }
    ensures text { Appended line.old.items line.new.items (text_of_assignments (edits edit.now)) }
    ensures len { GrowsAtMost line.old.items line.new.items 84 }
{
    put_due_rip(line, edit.rip);
    put_due_flags(line, edit.flags);
    put_due_rsp(line, edit.rsp);
}

/// Adds what a handler's step leaves.
pub(crate) fn put_body(line: &mut Line, set: &BodySet)
    requires room { HasRoom line.old.items 501 }
    ensures text { Appended line.old.items line.new.items (text_of_assignments (body_assignments set.now)) }
    ensures len { GrowsAtMost line.old.items line.new.items 501 }
{
    put_registers(line, &set.regs);
    put_assignment(line, "rip", set.rip);
    put_assignment(line, "rflags", set.flags);
    put_edits(line, &set.edit);
}

/// Adds what a handler returns with.
pub(crate) fn put_leave(line: &mut Line, set: &LeaveSet)
    requires room { HasRoom line.old.items 394 }
    ensures text { Appended line.old.items line.new.items (text_of_assignments (leave_assignments set.now)) }
    ensures len { GrowsAtMost line.old.items line.new.items 394 }
{
    put_scratch(line, &set.regs);
    put_assignment(line, "rflags", set.flags);
}
