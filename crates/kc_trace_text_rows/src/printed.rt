//! Traces as `print_trace` writes them: the lines of a trace that is read, and the text of its start and turns. An
//! independent model computed the text.

use kc_config::read_config;
use kc_events::{Trace, Turn, UserSet};
use kc_gen::{Sample, sample};
use kc_image::{Image, read_image};
use kc_io::MemSink;
use kc_machine::Machine;
use kc_plain::{Items, NoMemory};
use kc_regions::Config;
use kc_replay::{Script, first_set, read_trace, turn_at};
use kc_trace::Line;
use kc_trace_text::print_trace;
use std::alloc::Global;
use std::test::Fail;

/// The lines that are read and those that are written, apart by a line `=>`. A line that begins with blanks goes on
/// with the line before it.
const ROWS: &str =
    r#"start rax=0x0 rcx=0x0 rdx=0x0 rbx=0x0 rsp=0x0 rbp=0x0 rsi=0x0 rdi=0x0 r8=0x0 r9=0x0 r10=0x0 r11=0x0 r12=0x0
  r13=0x0 r14=0x0 r15=0x0 rip=0x0 rflags=0x202 cs=0x33 gs=0x0
syscall
go 8
body r13=0x009 r9=0x00a rax=0x772a rcx=0x0097b3 rbp=0xf5f1d86f297adff5 rflags=0x246 r11=0x356aa7109ba97d0e
  r14=0x00a r12=0xea605516df77bedf r10=0xc rip=0x98e3eb1d4c6248a3 rsi=0xfd16 rsp=0x00e r8=0x2dc3 rdx=0x003 r15=0x3
  rbx=0x0 rdi=0xdbc03809e83299dd
mem 0x10000 B8A64D
mem 0x10005 14
leave r8=0xd7 r9=0x2a r10=0x3f r11=0x66 rax=0x67 rdi=0xf7 rsi=0x0 rdx=0xea rcx=0x52 rflags=0x2
go 5
go 5
=>
start rax=0x0 rcx=0x0 rdx=0x0 rbx=0x0 rsp=0x0 rbp=0x0 rsi=0x0 rdi=0x0 r8=0x0 r9=0x0 r10=0x0 r11=0x0 r12=0x0
  r13=0x0 r14=0x0 r15=0x0 rip=0x0 rflags=0x202 cs=0x33 gs=0x0
syscall
go 8
body rax=0x772a rcx=0x97b3 rdx=0x3 rbx=0x0 rsp=0xe rbp=0xf5f1d86f297adff5 rsi=0xfd16 rdi=0xdbc03809e83299dd
  r8=0x2dc3 r9=0xa r10=0xc r11=0x356aa7109ba97d0e r12=0xea605516df77bedf r13=0x9 r14=0xa r15=0x3
  rip=0x98e3eb1d4c6248a3 rflags=0x246
mem 0x10000 b8a64d
mem 0x10005 14
leave rax=0x67 rcx=0x52 rdx=0xea rsi=0x0 rdi=0xf7 r8=0xd7 r9=0x2a r10=0x3f r11=0x66 rflags=0x2
go 10

start rax=0x0 rcx=0x0 rdx=0x0 rbx=0x0 rsp=0x0 rbp=0x0 rsi=0x0 rdi=0x0 r8=0x0 r9=0x0 r10=0x0 r11=0x0 r12=0x0
  r13=0x0 r14=0x0 r15=0x0 rip=0x0 rflags=0x202 cs=0x33 gs=0x0
syscall
go 12
body r15=0xccb8fbe28dcfee7d r8=0x00e rbx=0x2 rdi=0x4077 r10=0xc51c205f6f720a19 r11=0x00f rdx=0xd r9=0x54a0
  rflags=0x246 r12=0x4 rsi=0x40297273d217dbba r14=0x650d rax=0xf2b6a87a5f0bdff0 rsp=0xf rip=0x8199992cbb4e8402
  rcx=0xe0b0022f9497f672 due.rip=0x0 r13=0x9 rbp=0x00611b
mem 0x10000 53E53F
mem 0x10005 e8
leave r8=0xd4 r9=0x51 r10=0x27 r11=0xff rax=0xdf rdi=0x2f rsi=0xef rdx=0x4 rcx=0x84 rflags=0x2
go 5
go 5
=>
start rax=0x0 rcx=0x0 rdx=0x0 rbx=0x0 rsp=0x0 rbp=0x0 rsi=0x0 rdi=0x0 r8=0x0 r9=0x0 r10=0x0 r11=0x0 r12=0x0
  r13=0x0 r14=0x0 r15=0x0 rip=0x0 rflags=0x202 cs=0x33 gs=0x0
syscall
go 12
body rax=0xf2b6a87a5f0bdff0 rcx=0xe0b0022f9497f672 rdx=0xd rbx=0x2 rsp=0xf rbp=0x611b rsi=0x40297273d217dbba
  rdi=0x4077 r8=0xe r9=0x54a0 r10=0xc51c205f6f720a19 r11=0xf r12=0x4 r13=0x9 r14=0x650d r15=0xccb8fbe28dcfee7d
  rip=0x8199992cbb4e8402 rflags=0x246 due.rip=0x0
mem 0x10000 53e53f
mem 0x10005 e8
leave rax=0xdf rcx=0x84 rdx=0x4 rsi=0xef rdi=0x2f r8=0xd4 r9=0x51 r10=0x27 r11=0xff rflags=0x2
go 10

start rax=0x0 rcx=0x0 rdx=0x0 rbx=0x0 rsp=0x0 rbp=0x0 rsi=0x0 rdi=0x0 r8=0x0 r9=0x0 r10=0x0 r11=0x0 r12=0x0
  r13=0x0 r14=0x0 r15=0x0 rip=0x0 rflags=0x202 cs=0x33 gs=0x0
syscall
go 5
body rflags=0x246 rdi=0x4 due.rflags=0x00302 r12=0x897a0207a88d8751 r15=0x64 rsi=0xc7d19d1be012e301
  r13=0xce4e1d23737f3ad5 r9=0x00c r10=0x0058c2 r8=0x2 rbp=0xd6ad r14=0x00f4e7 rip=0xeaaf33d7ea73a4a7
  rdx=0x2a48822324309f1e rsp=0x5238 rcx=0x4 due.rsp=0x1 rbx=0x00394f r11=0x4 rax=0xea62
mem 0xffffffff83005fc0 D46318
mem 0xffffffff83005fc3 31
leave r8=0xad r9=0x5c r10=0x21 r11=0x82 rax=0x5 rdi=0x31 rsi=0x4b rdx=0xc7 rcx=0x2 rflags=0x2
go 5
go 5
=>
start rax=0x0 rcx=0x0 rdx=0x0 rbx=0x0 rsp=0x0 rbp=0x0 rsi=0x0 rdi=0x0 r8=0x0 r9=0x0 r10=0x0 r11=0x0 r12=0x0
  r13=0x0 r14=0x0 r15=0x0 rip=0x0 rflags=0x202 cs=0x33 gs=0x0
syscall
go 5
body rax=0xea62 rcx=0x4 rdx=0x2a48822324309f1e rbx=0x394f rsp=0x5238 rbp=0xd6ad rsi=0xc7d19d1be012e301 rdi=0x4
  r8=0x2 r9=0xc r10=0x58c2 r11=0x4 r12=0x897a0207a88d8751 r13=0xce4e1d23737f3ad5 r14=0xf4e7 r15=0x64
  rip=0xeaaf33d7ea73a4a7 rflags=0x246 due.rflags=0x302 due.rsp=0x1
mem 0xffffffff83005fc0 d4631831
leave rax=0x5 rcx=0x2 rdx=0xc7 rsi=0x4b rdi=0x31 r8=0xad r9=0x5c r10=0x21 r11=0x82 rflags=0x2
go 10

start rax=0x0 rcx=0x0 rdx=0x0 rbx=0x0 rsp=0x0 rbp=0x0 rsi=0x0 rdi=0x0 r8=0x0 r9=0x0 r10=0x0 r11=0x0 r12=0x0
  r13=0x0 r14=0x0 r15=0x0 rip=0x0 rflags=0x202 cs=0x33 gs=0x0
syscall
go 6
body r9=0x631e183b4ca1cfca due.rip=0x7fffffffffff rcx=0xf4d1 r11=0x008 rdi=0x42ce50dd31d6c794
  r8=0xc778506db7f932e8 rdx=0x782d rip=0x5fc05ca5160296de rax=0x004 rsp=0x3da69c54ada47202 rbp=0x165ff0410ffc95d
  due.rflags=0x203 rbx=0x5 rsi=0xea53 r14=0x9857 r12=0xaddf r15=0x009be5 r13=0xde3091b153f90f5a rflags=0x00202
  r10=0x7
mem 0x10000 A91D6B
mem 0x10003 21
body r8=0x006702 r11=0xa r14=0x304de02b05925510 rsi=0x374a r13=0xf0a090a0eb4e292e rbp=0xa4c9
  rax=0xe9320a806faec2b9 r9=0xa9ab due.rsp=0xffffffffffffffff rsp=0xd6a4 rdx=0x00527c r10=0xa9cf520878e02f11
  rip=0xb8cdcbd2b19a4a77 rcx=0x194d r12=0x7153 r15=0x9a1694d2f7508586 rdi=0xa056 rflags=0x202 rbx=0x003
mem 0xffffffff83005fc0 168834
mem 0xffffffff83005fc3 08
leave r8=0x5d r9=0x76 r10=0xc6 r11=0x92 rax=0xf5 rdi=0xe1 rsi=0xd2 rdx=0xb rcx=0x15 rflags=0x2
go 5
go 5
=>
start rax=0x0 rcx=0x0 rdx=0x0 rbx=0x0 rsp=0x0 rbp=0x0 rsi=0x0 rdi=0x0 r8=0x0 r9=0x0 r10=0x0 r11=0x0 r12=0x0
  r13=0x0 r14=0x0 r15=0x0 rip=0x0 rflags=0x202 cs=0x33 gs=0x0
syscall
go 6
body rax=0x4 rcx=0xf4d1 rdx=0x782d rbx=0x5 rsp=0x3da69c54ada47202 rbp=0x165ff0410ffc95d rsi=0xea53
  rdi=0x42ce50dd31d6c794 r8=0xc778506db7f932e8 r9=0x631e183b4ca1cfca r10=0x7 r11=0x8 r12=0xaddf
  r13=0xde3091b153f90f5a r14=0x9857 r15=0x9be5 rip=0x5fc05ca5160296de rflags=0x202 due.rip=0x7fffffffffff
  due.rflags=0x203
mem 0x10000 a91d6b21
body rax=0xe9320a806faec2b9 rcx=0x194d rdx=0x527c rbx=0x3 rsp=0xd6a4 rbp=0xa4c9 rsi=0x374a rdi=0xa056 r8=0x6702
  r9=0xa9ab r10=0xa9cf520878e02f11 r11=0xa r12=0x7153 r13=0xf0a090a0eb4e292e r14=0x304de02b05925510
  r15=0x9a1694d2f7508586 rip=0xb8cdcbd2b19a4a77 rflags=0x202 due.rsp=0xffffffffffffffff
mem 0xffffffff83005fc0 16883408
leave rax=0xf5 rcx=0x15 rdx=0xb rsi=0xd2 rdi=0xe1 r8=0x5d r9=0x76 r10=0xc6 r11=0x92 rflags=0x2
go 10"#;

/// No trace of a row is longer.
const MOST_BYTES: usize = 10_000;

/// No trace that is read has more turns.
const MOST_TURNS: usize = 1_000_000;

/// The text with each line that goes on joined to the line before it.
fn joined(alloc: Global, text: &str) -> Result<String, NoMemory> {
    let mut whole = String::new(alloc);
    for (i, piece) in text.split("\n  ").enumerate() {
        if i != 0 {
            whole.push(' ')?;
        }
        whole.push_str(piece)?;
    }
    Ok(whole)
}

/// Adds the turns of a line.
fn add_turns(
    alloc: Global,
    machine: &Machine,
    line: &Line,
    rest: &[Line],
    turns: &mut Items<Turn>,
) -> Result<(), NoMemory> {
    if let Line::Go(count) = line {
        for _ in 0..*count {
            turns.push(Turn::Go)?;
        }
    }
    match turn_at(alloc, machine.config(), &machine.state().cpu, line, rest)? {
        Some(turn) => turns.push(turn),
        None => Ok(()),
    }
}

/// The turns of a script.
fn turns_of(alloc: Global, machine: &Machine, lines: &[Line]) -> Result<Items<Turn>, NoMemory> {
    let mut turns = Items::new(alloc);
    for (i, line) in lines.iter().enumerate() {
        add_turns(alloc, machine, line, &lines[i + 1..], &mut turns)?;
    }
    Ok(turns)
}

/// The script of a short trace.
fn script_of(alloc: Global, config: &Config, text: &[u8]) -> Option<Script> {
    if text.len() > MOST_BYTES {
        return None;
    }
    read_trace(alloc, config, text).ok()
}

/// The turns of a script from its start.
fn turns_from(
    alloc: Global,
    image: Image,
    config: Config,
    first: &UserSet,
    lines: &[Line],
) -> Option<Items<Turn>> {
    let machine = Machine::start(alloc, config, image, first).ok()?;
    turns_of(alloc, &machine, lines).ok()
}

/// The trace that a script says.
fn trace_by(alloc: Global, image: Image, config: Config, lines: &[Line]) -> Option<Trace> {
    let first = first_set(alloc, &config, lines).ok()?;
    let turns = turns_from(alloc, image, config, &first, lines)?;
    Some(Trace { first, turns })
}

/// The trace that a text says under this description.
fn trace_under(alloc: Global, image: Image, config: &[u8], text: &str) -> Option<Trace> {
    let config = read_config(alloc, config, &image).ok()?;
    let script = script_of(alloc, &config, text.as_bytes())?;
    trace_by(alloc, image, config, script.lines())
}

/// The trace that a text says over S1.
fn trace_of(alloc: Global, text: &str) -> Option<Trace> {
    let (file, config) = sample(alloc, Sample::S1).ok()?;
    let image = read_image(alloc, file).ok()?;
    trace_under(alloc, image, &config, text)
}

/// What `print_trace` writes of a trace, without the end of its last line; nothing of one that has more turns than are
/// read.
fn written(alloc: Global, trace: &Trace) -> Result<String, Fail> {
    let mut out = MemSink::new(alloc, 10_000, Vec::new(alloc))?;
    if trace.turns.len() <= MOST_TURNS {
        print_trace(&mut out, trace)?;
    }
    Ok(String::from_str(alloc, std::str::from_utf8(out.bytes())?.trim_end())?)
}

/// The text that is written of a row's trace.
fn text_of(alloc: Global, read: &str) -> Result<String, Fail> {
    let read = joined(alloc, read)?;
    let trace = trace_of(alloc, read.as_str()).ok_or("the trace is good")?;
    written(alloc, &trace)
}

/// Whether what is written of a row's trace is as the row says.
fn is_as_due(alloc: Global, read: &str, written: &str) -> Result<bool, Fail> {
    let text = text_of(alloc, read)?;
    let due = joined(alloc, written)?;
    Ok(text.as_str() == due.as_str())
}

#[test]
fn traces_are_written_as_the_rows_say(rt: HostRuntime) -> Result<(), Fail> {
    for row in ROWS.split("\n\n") {
        let (read, written) = row.split_once("\n=>\n").ok_or("a row")?;
        assert!(rt; is_as_due(rt.alloc(), read, written)?, "{read}");
    }
    Ok(())
}
