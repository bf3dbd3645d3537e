//! The lines of what is known at a node.

ghost use Rattle.std.specs.Prelude.{◌≡◌, ◌+◌, ◌≤◌, ◌<◌, ◌++◌, codes, length, Option, OnOk, OnErr};
ghost use Rattle.kc_plain.specs.Appended.{Appended};
ghost use Rattle.kc_io.specs.Sink.{SinkKept, Writes, Refuses};
ghost use Rattle.kc_text.specs.Text.{disp_text};
ghost use Rattle.kc_value.specs.Symbol.{IsSym};
ghost use Rattle.kc_explain.specs.Explanation.{who_text, map_text, nmi_text, word_text, symbol_text, number_text, value_text};
ghost use Rattle.kc_explain.specs.Explanation.{rsp_of, gs_line, map_line, nmi_line, rsp_line, state_lines};
ghost use Rattle.kc_explain.specs.Room.{HasRoom, GrowsAtMost};

use crate::line::{Line, put, put_address, put_hex};
use kc_insn::Reg;
use kc_io::{Failed, Sink, write_all};
use kc_space::{GsPair, MapState, Tri, Who};
use kc_state::AbsState;
use kc_value::{Sym, Value};

/// The names of the interrupted processor's words by number.
const WORDS: [&str; 20] = [
    "rax", "rcx", "rdx", "rbx", "rsp", "rbp", "rsi", "rdi", "r8", "r9", "r10", "r11", "r12", "r13",
    "r14", "r15", "rip", "rflags", "cs", "ss",
];

fn who_text(who: Who) -> &'static str
    ensures is { result.now ≡ who_text who }
    ensures short { length result.now ≤ 6 }
{
    match who {
        Who::Kernel => "kernel",
        Who::User => "user",
        Who::Any => "any",
    }
}

fn map_text(map: MapState) -> &'static str
    ensures is { result.now ≡ map_text map }
    ensures short { length result.now ≤ 6 }
{
    match map {
        MapState::Kernel => "kernel",
        MapState::User => "user",
        MapState::Any => "any",
    }
}

fn nmi_text(blocked: Tri) -> &'static str
    ensures is { result.now ≡ nmi_text blocked }
    ensures short { length result.now ≤ 7 }
{
    match blocked {
        Tri::Yes => "blocked",
        Tri::No => "open",
        Tri::Any => "any",
    }
}

fn word_name(word: u8) -> &'static str
    requires { word < 20 }
    ensures is { result.now ≡ word_text word }
    ensures short { length result.now ≤ 6 }
{
    WORDS[word as usize]
}

/// Adds an offset; nothing where it is 0.
fn put_offset(line: &mut Line, offset: i64)
    requires room { HasRoom line.old.items 19 }
    ensures text { Appended line.old.items line.new.items (disp_text offset) }
    ensures len { GrowsAtMost line.old.items line.new.items 19 }
{
    if offset > 0 {
        put(line, "+");
    }
    if offset < 0 {
        put(line, "-");
    }
    if offset != 0 {
        put_hex(line, offset.unsigned_abs());
    }
}

/// Adds what a symbol says.
fn put_symbol(line: &mut Line, sym: Sym)
    requires room { HasRoom line.old.items 23 }
    requires sym { IsSym sym }
    ensures text { Appended line.old.items line.new.items (symbol_text sym) }
    ensures len { GrowsAtMost line.old.items line.new.items 23 }
{
    match sym {
        Sym::Plain => put(line, "any"),
        Sym::Base(offset) => {
            put(line, "base");
            put_offset(line, offset);
        }
        Sym::Entry(word) => {
            put(line, "entry ");
            put(line, word_name(word));
        }
        Sym::UserGs => put(line, "user gs"),
    }
}

/// Adds a number, or what the symbol says where there is none.
fn put_known(line: &mut Line, sym: Sym, number: Option<u64>)
    requires room { HasRoom line.old.items 27 }
    requires sym { IsSym sym }
    ensures text { Appended line.old.items line.new.items (number_text sym number) }
    ensures len { GrowsAtMost line.old.items line.new.items 27 }
{
    match number {
        Some(number) => {
            put(line, "constant ");
            put_address(line, number);
        }
        None => put_symbol(line, sym),
    }
}

/// Adds what is known of a value.
fn put_value(line: &mut Line, value: &Value)
    requires room { HasRoom line.old.items 27 }
    ensures text { Appended line.old.items line.new.items (value_text value.now) }
    ensures len { GrowsAtMost line.old.items line.new.items 27 }
{
    put_known(line, value.sym, value.bits.single());
}

/// What is known of RSP.
fn rsp_of(state: &AbsState) -> Value
    ensures { result ≡ rsp_of state.now }
{
    state.regs[Reg::RSP.0 as usize]
}

/// Writes whose the GS bases are.
fn write_gs<S: Sink>(out: &mut S, gs: &GsPair) -> Result<(), Failed>
    ensures all { OnOk result (Writes (S.state out.old) (S.state out.new) (gs_line gs.now)) }
    ensures part { OnErr result (Refuses (S.state out.old) (S.state out.new) (gs_line gs.now)) }
    ensures kept { SinkKept (S.state out.old) (S.state out.new) }
{
    let mut line = Line::new();
    put(&mut line, "gs active ");
    put(&mut line, who_text(gs.active));
    put(&mut line, " inactive ");
    put(&mut line, who_text(gs.inactive));
    put(&mut line, "\n");
    write_all(out, &line)
}

/// Writes which CR3 is loaded.
fn write_map<S: Sink>(out: &mut S, map: MapState) -> Result<(), Failed>
    ensures all { OnOk result (Writes (S.state out.old) (S.state out.new) (map_line map)) }
    ensures part { OnErr result (Refuses (S.state out.old) (S.state out.new) (map_line map)) }
    ensures kept { SinkKept (S.state out.old) (S.state out.new) }
{
    let mut line = Line::new();
    put(&mut line, "map ");
    put(&mut line, map_text(map));
    put(&mut line, "\n");
    write_all(out, &line)
}

/// Writes whether NMIs are blocked.
fn write_nmi<S: Sink>(out: &mut S, blocked: Tri) -> Result<(), Failed>
    ensures all { OnOk result (Writes (S.state out.old) (S.state out.new) (nmi_line blocked)) }
    ensures part { OnErr result (Refuses (S.state out.old) (S.state out.new) (nmi_line blocked)) }
    ensures kept { SinkKept (S.state out.old) (S.state out.new) }
{
    let mut line = Line::new();
    put(&mut line, "nmi ");
    put(&mut line, nmi_text(blocked));
    put(&mut line, "\n");
    write_all(out, &line)
}

/// Writes what is known of RSP.
fn write_rsp<S: Sink>(out: &mut S, state: &AbsState) -> Result<(), Failed>
    ensures all { OnOk result (Writes (S.state out.old) (S.state out.new) (rsp_line (rsp_of state.now))) }
    ensures part { OnErr result (Refuses (S.state out.old) (S.state out.new) (rsp_line (rsp_of state.now))) }
    ensures kept { SinkKept (S.state out.old) (S.state out.new) }
{
    let mut line = Line::new();
    put(&mut line, "rsp ");
    put_value(&mut line, &rsp_of(state));
    put(&mut line, "\n");
    write_all(out, &line)
}

/// Writes the lines of the GS bases and of CR3.
fn write_spaces<S: Sink>(out: &mut S, state: &AbsState) -> Result<(), Failed>
    ensures all { OnOk result
        (Writes (S.state out.old) (S.state out.new) (gs_line state.now.gs ++ map_line state.now.map)) }
    ensures part { OnErr result
        (Refuses (S.state out.old) (S.state out.new) (gs_line state.now.gs ++ map_line state.now.map)) }
    ensures kept { SinkKept (S.state out.old) (S.state out.new) }
{
    write_gs(out, &state.gs)?;
    write_map(out, state.map)
}

/// Writes the lines of what is known.
pub(crate) fn write_state<S: Sink>(out: &mut S, state: &AbsState) -> Result<(), Failed>
    ensures all { OnOk result (Writes (S.state out.old) (S.state out.new) (state_lines state.now)) }
    ensures part { OnErr result (Refuses (S.state out.old) (S.state out.new) (state_lines state.now)) }
    ensures kept { SinkKept (S.state out.old) (S.state out.new) }
{
    write_spaces(out, state)?;
    write_nmi(out, state.latches.nmi_blocked)?;
    write_rsp(out, state)
}
