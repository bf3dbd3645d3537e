//! The line of a turn other than Go.

ghost use Rattle.std.specs.Prelude.{◌≡◌, ◌+◌, ◌≤◌, ◌++◌, length, codes, decimal};
ghost use Rattle.kc_plain.specs.Appended.{Appended};
ghost use Rattle.kc_trace_text.specs.Lines.{user_assignments, body_assignments, leave_assignments};
ghost use Rattle.kc_trace_text.specs.Text.{number_text, text_of_assignments, text_of_first};
ghost use Rattle.kc_trace_text.specs.Room.{HasRoom, GrowsAtMost};

use crate::assignments::{put_body, put_leave, put_user};
use crate::line::{Line, put, put_count, put_number};
use kc_events::{Turn, UserSet};

fn put_irq(line: &mut Line, vector: u8)
    requires room { HasRoom line.old.items 14 }
    ensures text { Appended line.old.items line.new.items (codes "irq " ++ decimal vector) }
    ensures len { GrowsAtMost line.old.items line.new.items 14 }
{
    put(line, "irq ");
    put_count(line, u32::from(vector));
}

fn put_fault(line: &mut Line, address: u64, code: u32)
    requires room { HasRoom line.old.items 43 }
    ensures text { Appended line.old.items line.new.items
        (codes "fault " ++ number_text address ++ codes " " ++ number_text code) }
    ensures len { GrowsAtMost line.old.items line.new.items 43 }
{
    put(line, "fault ");
    put_number(line, address);
    put(line, " ");
    put_number(line, u64::from(code));
}

fn put_trap(line: &mut Line, vector: u8, code: u32)
    requires room { HasRoom line.old.items 34 }
    ensures text { Appended line.old.items line.new.items
        (codes "trap " ++ decimal vector ++ codes " " ++ number_text code) }
    ensures len { GrowsAtMost line.old.items line.new.items 34 }
{
    put(line, "trap ");
    put_count(line, u32::from(vector));
    put(line, " ");
    put_number(line, u64::from(code));
}

/// Adds a word and what user code leaves.
pub(crate) fn put_named_user(line: &mut Line, word: &str, set: &UserSet)
    requires room { HasRoom line.old.items (length word.now + 462) }
    ensures text { Appended line.old.items line.new.items (word.now ++ text_of_assignments (user_assignments set.now)) }
    ensures len { GrowsAtMost line.old.items line.new.items (length word.now + 462) }
{
    put(line, word);
    put_user(line, set);
}

/// Adds the turn's line without its end; nothing of Go.
pub(crate) fn put_turn(line: &mut Line, turn: &Turn)
    requires room { HasRoom line.old.items 505 }
    ensures text { Appended line.old.items line.new.items (text_of_first turn.now) }
    ensures len { GrowsAtMost line.old.items line.new.items 505 }
{
    match turn {
        Turn::Go => {}
        Turn::Irq(vector) => put_irq(line, *vector),
        Turn::Nmi => put(line, "nmi"),
        Turn::Debug => put(line, "debug"),
        Turn::Check => put(line, "check"),
        Turn::Fault(address, code) => put_fault(line, *address, *code),
        Turn::Trap(vector, code) => put_trap(line, *vector, *code),
        Turn::Syscall => put(line, "syscall"),
        Turn::User(set) => put_named_user(line, "user", set),
        Turn::Body(set) => {
            put(line, "body");
            put_body(line, set);
        }
        Turn::Leave(set) => {
            put(line, "leave");
            put_leave(line, set);
        }
    }
}
