//! The line of what a condition asks.

ghost use Rattle.std.specs.Prelude.{◌≡◌, ◌≤◌, ◌++◌, codes, length, OnOk, OnErr};
ghost use Rattle.kc_io.specs.Sink.{SinkKept, Writes, Refuses};
ghost use Rattle.kc_explain.specs.Explanation.{because_text, because_line};

use crate::line::{Line, put};
use kc_io::{Failed, Sink, write_all};
use kc_state::Condition;

/// Why a certificate that fails this condition is refused; nothing for a number that isn't a condition's.
fn because_text(condition: Condition) -> &'static str
    ensures is { result.now ≡ because_text condition.0 }
    ensures short { length result.now ≤ 65 }
{
    match condition.0 {
        1 => "the certificate is for another image or configuration",
        2 => "a key, a stack count or an entry node is missing",
        3 => "the user state does not cover the start",
        4 => "the GS pair, CR3 or RSP is not exact",
        5 => "the instruction is not decodable executable text under this map",
        6 => "a GS access may use a base other than the kernel's",
        7 => "an address is unknown, absent or not permitted",
        8 => "a write may reach live stack bytes",
        9 => "CR3 may be loaded with a third value",
        10 => "a handler is called without kernel GS, kernel CR3 or a free stack",
        11 => "the instruction or register number is forbidden",
        12 => "the return does not restore the interrupted context",
        13 => "a successor is not covered",
        14 => "an event has no permitted frame or no covering context",
        15 => "the state after an event's return is not covered",
        16 => "the summary lacks a write or a latch",
        17 => "the user state does not cover a return",
        _ => "",
    }
}

/// Writes the line of what the condition asks.
pub(crate) fn write_because<S: Sink>(out: &mut S, condition: Condition) -> Result<(), Failed>
    ensures all { OnOk result (Writes (S.state out.old) (S.state out.new) (because_line condition.0)) }
    ensures part { OnErr result (Refuses (S.state out.old) (S.state out.new) (because_line condition.0)) }
    ensures kept { SinkKept (S.state out.old) (S.state out.new) }
{
    let mut line = Line::new();
    put(&mut line, "because ");
    put(&mut line, because_text(condition));
    put(&mut line, "\n");
    write_all(out, &line)
}
