//! The text of a trace.

ghost use Rattle.std.specs.Prelude.{◌≡◌, ◌≢◌, ◌+◌, ◌≤◌, ◌<◌, ◌^◌, ◌++◌, ◌∷◌, [], IfOk, OnOk, OnErr, length};
ghost use Rattle.kc_io.specs.Sink.{SinkKept, Writes, Refuses};
ghost use Rattle.kc_events.specs.declared.turn.Turn.TheVariants.{Go};
ghost use Rattle.kc_trace.specs.declared.line.Line.TheVariants.{Start};
ghost use Rattle.kc_trace_text.specs.Lines.{go_lines, go_count, ended_run, lines_of_turn, lines_after, user_assignments, mem_lines};
ghost use Rattle.kc_trace_text.specs.Text.{text_of_lines, text_of_trace};
ghost use Rattle.kc_trace_text.specs.BytesSteps.{written_by};

use crate::bytes::print_writes;
use crate::line::{Line, put, put_count};
use crate::turns::{put_named_user, put_turn};
use kc_events::{Trace, Turn, UserSet};
use kc_io::{Failed, Sink, write_all};

/// Writes the line of so many turns Go; none of none.
fn print_go<S: Sink>(out: &mut S, count: u32) -> Result<(), Failed>
    ensures all { OnOk result (Writes (S.state out.old) (S.state out.new) (text_of_lines (go_lines count))) }
    ensures part { OnErr result (Refuses (S.state out.old) (S.state out.new) (text_of_lines (go_lines count))) }
    ensures kept { SinkKept (S.state out.old) (S.state out.new) }
{
    let mut line = Line::new();
    if count != 0 {
        put(&mut line, "go ");
        put_count(&mut line, count);
        put(&mut line, "\n");
    }
    write_all(out, &line)
}

/// What the turn writes.
fn writes_of(turn: &Turn) -> &[(u64, u8)]
    ensures writes { result.now ≡ written_by turn.now }
{
    match turn {
        Turn::User(set) => set.writes.as_slice(),
        Turn::Body(set) => set.writes.as_slice(),
        _ => &[],
    }
}

/// Writes the lines of a turn other than Go.
fn print_turn<S: Sink>(out: &mut S, turn: &Turn) -> Result<(), Failed>
    requires other { turn.now ≢ Go }
    ensures all { OnOk result (Writes (S.state out.old) (S.state out.new) (text_of_lines (lines_of_turn turn.now))) }
    ensures part { OnErr result (Refuses (S.state out.old) (S.state out.new) (text_of_lines (lines_of_turn turn.now))) }
    ensures kept { SinkKept (S.state out.old) (S.state out.new) }
{
    let mut line = Line::new();
    put_turn(&mut line, turn);
    put(&mut line, "\n");
    write_all(out, &line)?;
    print_writes(out, writes_of(turn))
}

/// Writes what ends with the turn after `count` turns Go: their line and the turn's lines, and nothing where it is
/// Go too. Answers how many turns Go follow one another then.
fn print_next<S: Sink>(out: &mut S, count: u32, turn: &Turn) -> Result<u32, Failed>
    requires few { count < 1000000 }
    ensures count { IfOk result (λ n. n ≡ go_count count turn.now) }
    ensures all { OnOk result (Writes (S.state out.old) (S.state out.new)
        (text_of_lines (ended_run count turn.now ++ lines_of_turn turn.now))) }
    ensures part { OnErr result (Refuses (S.state out.old) (S.state out.new)
        (text_of_lines (ended_run count turn.now ++ lines_of_turn turn.now))) }
    ensures kept { SinkKept (S.state out.old) (S.state out.new) }
{
    match turn {
        Turn::Go => Ok(count + 1),
        _ => {
            print_go(out, count)?;
            print_turn(out, turn)?;
            Ok(0)
        }
    }
}

/// Writes the lines of the turns.
fn print_turns<S: Sink>(out: &mut S, turns: &[Turn]) -> Result<(), Failed>
    requires few { length turns.now ≤ 1000000 }
    ensures all { OnOk result (Writes (S.state out.old) (S.state out.new) (text_of_lines (lines_after 0 turns.now))) }
    ensures part { OnErr result (Refuses (S.state out.old) (S.state out.new)
        (text_of_lines (lines_after 0 turns.now))) }
    ensures kept { SinkKept (S.state out.old) (S.state out.new) }
{
    let mut count = 0;
    for turn in turns {
        count = print_next(out, count, turn)?;
    }
    print_go(out, count)
}

/// Writes the line `start` and its lines `mem`.
fn print_start<S: Sink>(out: &mut S, first: &UserSet) -> Result<(), Failed>
    ensures all { OnOk result (Writes (S.state out.old) (S.state out.new)
        (text_of_lines (Start (user_assignments first.now) ∷ mem_lines first.now.writes))) }
    ensures part { OnErr result (Refuses (S.state out.old) (S.state out.new)
        (text_of_lines (Start (user_assignments first.now) ∷ mem_lines first.now.writes))) }
    ensures kept { SinkKept (S.state out.old) (S.state out.new) }
{
    let mut line = Line::new();
    put_named_user(&mut line, "start", first);
    put(&mut line, "\n");
    write_all(out, &line)?;
    print_writes(out, first.writes.as_slice())
}

/// Writes the trace's text without taking memory. `Failed` comes where the sink refused a part of it, and then a
/// prefix of it was added; after `Ok` nothing was refused.
pub fn print_trace<S: Sink>(out: &mut S, trace: &Trace) -> Result<(), Failed>
    requires turns { length trace.now.turns ≤ 1000000 }
    ensures all { OnOk result (Writes (S.state out.old) (S.state out.new) (text_of_trace trace.now)) }
    ensures part { OnErr result (Refuses (S.state out.old) (S.state out.new) (text_of_trace trace.now)) }
    ensures kept { SinkKept (S.state out.old) (S.state out.new) }
{
    print_start(out, &trace.first)?;
    print_turns(out, trace.turns.as_slice())
}
