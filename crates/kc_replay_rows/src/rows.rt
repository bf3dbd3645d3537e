//! Runs of `replay` over the samples. Statuses and lines are those of an independent model.

use kc_gen::{Sample, sample};
use kc_runs::{Ending, Held, ended, is_told};
use kc_tables::{Case, case_of};
use std::alloc::Global;
use std::test::Fail;

/// What the row is of; the sample; an offset in its image and the bytes put there; edits of its description, each a text
/// and what takes its place; the trace; the exit code; the lines that are written.
const ROWS: &str = "\
# Nothing goes wrong.
a start alone | S1 | 0 | - | - | start | 0 | turns 0
a syscall and back, twice | S1 | 0 | - | - | start rip=0x400000 rsp=0x7ff000 rflags=0x202 / syscall / go 12 / leave / go 10 / syscall / go 12 / leave / go 10 | 0 | turns 48
an NMI after SWAPGS, whose routine goes by the saved CS alone | S1 | 1110 | f6 44 24 08 03 0f 85 03 00 00 00 e8 30 ef 7f 00 48 cf 90 0f 01 f8 | - | start rip=0x400000 rsp=0x7ff000 rflags=0x202 / syscall / go 5 / nmi / go 3 / leave / go 1 / go 7 / leave / go 10 | 0 | turns 30
an NMI before SWAPGS | S1 | 0 | - | - | start rip=0x400000 rsp=0x7ff000 rflags=0x202 / syscall / nmi / go 27 / leave / go 20 / go 12 / leave / go 10 | 0 | turns 73
an NMI inside an NMI after a fault's IRETQ, on the second sample's work stack | S2 | 0 | - | - | start rip=0x400000 rsp=0x7ff000 rflags=0x202 / nmi / go 37 / fault 0x0 0x0 / go 18 / leave / go 17 / nmi / go 9 / leave / go 20 | 0 | turns 106
a machine check before the first instruction of a syscall | S1 | 0 | - | - | start rip=0x400000 rsp=0x7ff000 rflags=0x202 / syscall / check / go 11 | 0 | turns 13
a machine check after 8 turns of a syscall | S1 | 0 | - | - | start rip=0x400000 rsp=0x7ff000 rflags=0x202 / syscall / go 8 / check / go 10 | 0 | turns 20
a machine check after 22 turns of a syscall | S1 | 0 | - | - | start rip=0x400000 rsp=0x7ff000 rflags=0x202 / syscall / go 12 / leave / go 9 / check / go 11 | 0 | turns 35
a machine check after 4 turns of an NMI | S1 | 0 | - | - | start rip=0x400000 rsp=0x7ff000 rflags=0x202 / nmi / go 4 / check / go 11 | 0 | turns 17
a loop of the first sample: a jump to itself | S0 | 0 | - | - | start / syscall / go 5000 / nmi / go 10 | 0 | turns 5012
a page fault of kernel code that may | S1 | 0 | - | {name=\"area\", at=\"0xffffffff82000000\", size=\"0x3000\", kind=\"area\", write=true, user_map=true} => {name=\"area\", at=\"0xffffffff82000000\", size=\"0x3000\", kind=\"area\", write=true, user_map=true, may_fault=true} | start rip=0x400000 rsp=0x7ff000 rflags=0x202 / syscall / go 1 / fault 0xffffffff82002800 0x2 / go 3 | 0 | turns 6
23 nested interrupts, and all the way back | S1 | 0 | - | {entry=\"0xffffffff81800010\", stack=2048, events=[], after_if=\"off\", returns=true} => {entry=\"0xffffffff81800010\", stack=2048, events=[\"irq\"], after_if=\"off\", returns=true} | start rip=0x400000 rsp=0x7ff000 rflags=0x202 / irq 32 / go 22 / body rflags=0x202 / irq 32 / go 18 / body rflags=0x202 / irq 32 / go 18 / body rflags=0x202 / irq 32 / go 18 / body rflags=0x202 / irq 32 / go 18 / body rflags=0x202 / irq 32 / go 18 / body rflags=0x202 / irq 32 / go 18 / body rflags=0x202 / irq 32 / go 18 / body rflags=0x202 / irq 32 / go 18 / body rflags=0x202 / irq 32 / go 18 / body rflags=0x202 / irq 32 / go 18 / body rflags=0x202 / irq 32 / go 18 / body rflags=0x202 / irq 32 / go 18 / body rflags=0x202 / irq 32 / go 18 / body rflags=0x202 / irq 32 / go 18 / body rflags=0x202 / irq 32 / go 18 / body rflags=0x202 / irq 32 / go 18 / body rflags=0x202 / irq 32 / go 18 / body rflags=0x202 / irq 32 / go 18 / body rflags=0x202 / irq 32 / go 18 / body rflags=0x202 / irq 32 / go 18 / body rflags=0x202 / irq 32 / go 18 / body rflags=0x202 / irq 32 / go 18 / leave / go 16 / leave / go 16 / leave / go 16 / leave / go 16 / leave / go 16 / leave / go 16 / leave / go 16 / leave / go 16 / leave / go 16 / leave / go 16 / leave / go 16 / leave / go 16 / leave / go 16 / leave / go 16 / leave / go 16 / leave / go 16 / leave / go 16 / leave / go 16 / leave / go 16 / leave / go 16 / leave / go 16 / leave / go 16 / leave / go 20 | 0 | turns 858
# Turns that may not come.
the gap after STI, and an NMI in it | S1 | 10 | fb 48 cf | - | start rsp=0x7ff000 / syscall / go 1 / irq 32 / nmi / go 27 / leave / go 20 / irq 32 | 0 | turn 3 not allowed / turns 53
one Go too many after the return | S1 | 0 | - | - | start rip=0x400000 rsp=0x7ff000 rflags=0x202 / syscall / go 12 / leave / go 11 | 0 | turn 25 not allowed / turns 25
Go inside a handler | S1 | 0 | - | - | start rip=0x400000 rsp=0x7ff000 rflags=0x202 / syscall / go 15 / leave / go 10 | 0 | turn 14 not allowed / turn 15 not allowed / turn 16 not allowed / turns 27
each kind in user mode | S1 | 0 | - | - | start rip=0x400000 rsp=0x7ff000 rflags=0x202 / go 2 / irq 33 / irq 0 / trap 3 0x0 / body / leave / syscall / syscall / user / go 1 / nmi / nmi | 0 | turn 1 not allowed / turn 2 not allowed / turn 3 not allowed / turn 4 not allowed / turn 5 not allowed / turn 6 not allowed / turn 7 not allowed / turn 9 not allowed / turn 10 not allowed / turn 13 not allowed / turns 13
a Go inside and a leave outside | S1 | 0 | - | - | start rip=0x400000 rsp=0x7ff000 rflags=0x202 / syscall / leave / go 13 / leave / leave / go 10 / leave | 0 | turn 2 not allowed / turn 15 not allowed / turn 17 not allowed / turn 28 not allowed / turns 28
a second machine check | S1 | 0 | - | - | start rip=0x400000 rsp=0x7ff000 rflags=0x202 / check / check / go 22 / leave / go 20 / check / nmi | 0 | turn 2 not allowed / turn 46 not allowed / turns 47
NMIs while they are blocked | S1 | 0 | - | - | start rip=0x400000 rsp=0x7ff000 rflags=0x202 / nmi / nmi / go 1 / nmi / go 26 / nmi / leave / go 19 / nmi / go 1 / nmi | 0 | turn 2 not allowed / turn 4 not allowed / turn 31 not allowed / turn 52 not allowed / turns 54
leave by each flag | S1 | 0 | - | - | start rip=0x400000 rsp=0x7ff000 rflags=0x202 / syscall / go 12 / leave rflags=0x402 / leave rflags=0x202 / leave rflags=0x0 / leave rflags=0x2 rax=0xffffffffffffffff / go 10 | 0 | turn 14 not allowed / turn 15 not allowed / turn 16 not allowed / turns 27
page faults with codes, from user code and from the handler that lists fault | S1 | 0 | - | - | start rip=0x400000 rsp=0x7ff000 rflags=0x202 / fault 0xffffffffffffffff 0xffffffff / go 22 / leave / go 21 / syscall / go 12 / fault 0x0 0x0 / go 18 / fault 0x0 0x0 / leave / go 17 / leave / go 10 | 0 | turn 78 not allowed / turns 107
a page fault of kernel code that may not fault | S1 | 0 | - | - | start rip=0x400000 rsp=0x7ff000 rflags=0x202 / syscall / go 1 / fault 0xffffffff82002800 0x2 / go 1 | 0 | turn 3 not allowed / turns 4
# Runs that stop in a guard.
nested interrupts down to the guard | S1 | 0 | - | {entry=\"0xffffffff81800010\", stack=2048, events=[], after_if=\"off\", returns=true} => {entry=\"0xffffffff81800010\", stack=2048, events=[\"irq\"], after_if=\"off\", returns=true} | start / irq 32 / go 22 / body rflags=0x202 / irq 32 / go 18 / body rflags=0x202 / irq 32 / go 18 / body rflags=0x202 / irq 32 / go 18 / body rflags=0x202 / irq 32 / go 18 / body rflags=0x202 / irq 32 / go 18 / body rflags=0x202 / irq 32 / go 18 / body rflags=0x202 / irq 32 / go 18 / body rflags=0x202 / irq 32 / go 18 / body rflags=0x202 / irq 32 / go 18 / body rflags=0x202 / irq 32 / go 18 / body rflags=0x202 / irq 32 / go 18 / body rflags=0x202 / irq 32 / go 18 / body rflags=0x202 / irq 32 / go 18 / body rflags=0x202 / irq 32 / go 18 / body rflags=0x202 / irq 32 / go 18 / body rflags=0x202 / irq 32 / go 18 / body rflags=0x202 / irq 32 / go 18 / body rflags=0x202 / irq 32 / go 18 / body rflags=0x202 / irq 32 / go 18 / body rflags=0x202 / irq 32 / go 18 / body rflags=0x202 / irq 32 / go 18 / body rflags=0x202 / irq 32 / go 18 / body rflags=0x202 / irq 32 / go 18 / body rflags=0x202 / irq 32 / go 18 / body rflags=0x202 / irq 32 / go 18 / body rflags=0x202 / irq 32 / go 18 / body rflags=0x202 / irq 32 / go 18 / body rflags=0x202 / irq 32 / go 18 / body rflags=0x202 / irq 32 / go 18 / body rflags=0x202 / irq 32 / go 18 / body rflags=0x202 / irq 32 / go 18 / body rflags=0x202 / irq 32 / go 18 / body rflags=0x202 / irq 32 / go 18 / body rflags=0x202 / irq 32 / go 18 / body rflags=0x202 / irq 32 / go 18 / body rflags=0x202 / irq 32 / go 18 / body rflags=0x202 / irq 32 / go 18 / body rflags=0x202 / irq 32 / go 18 / body rflags=0x202 / irq 32 / go 18 / body rflags=0x202 | 0 | turn 469 stopped / turns 469
an interrupt whose frame falls in a guard | S1 | 0 | - | rsp0 = \"0xffffffff84002000\" => rsp0 = \"0xffffffff84001010\" | start rip=0x400000 rsp=0x7ff000 rflags=0x202 / irq 32 / nmi | 0 | turn 1 stopped / turns 1
no line is run after a stop, and each was read | S1 | 0 | - | rsp0 = \"0xffffffff84002000\" => rsp0 = \"0xffffffff84001010\" | start rip=0x400000 rsp=0x7ff000 rflags=0x202 / irq 32 / go 1000 / nmi / user / mem 0x0 00 | 0 | turn 1 stopped / turns 1
a body turn that puts RSP in the guard | S1 | 10 | 0f 01 f8 0f 20 d8 48 81 e0 ff ef ff ff 0f 22 d8 48 c7 c4 00 21 00 83 e8 f4 ff 7f 00 | - | start rip=0x400000 rsp=0x7ff000 rflags=0x202 / syscall / go 6 / body rsp=0xffffffff83001fff | 0 | turn 8 stopped / turns 8
pushes down to the guard, counted inside a go line | S1 | 10 | 0f 01 f8 0f 20 d8 48 81 e0 ff ef ff ff 0f 22 d8 48 c7 c4 40 20 00 83 50 e9 fa ff ff ff | - | start rip=0x400000 rsp=0x7ff000 rflags=0x202 / syscall / go 4000 | 0 | turn 23 stopped / turns 23
# Breaks.
syscall code that uses GS before SWAPGS | S1 | 10 | 65 48 89 24 25 00 08 00 00 0f 01 f8 | - | start rip=0x400000 rsp=0x7ff000 rflags=0x202 gs=0x5000 / syscall / go 9 | 1 | turn 2 break B2 / turns 2
a push before SWAPGS on a user RSP of 0 | S1 | 10 | 50 | - | start / syscall / go 9 | 1 | turn 2 break B3 / turns 2
an NMI without an IST at the first instruction of a syscall, with RSP 0 | S1 | 0 | - | {vector=2, entry=\"0xffffffff81001100\", ist=2} => {vector=2, entry=\"0xffffffff81001100\"} | start / syscall / nmi | 1 | turn 2 break B3 / turns 2
an interrupt at the first instruction of a syscall, fmask without IF | S1 | 0 | - | fmask = \"0x47700\" => fmask = \"0x47500\" | start / syscall / irq 32 | 1 | turn 2 break B3 / turns 2
a missing AND: the kernel's CR3 isn't loaded | S1 | 1f | 90 90 90 90 90 90 90 | - | start rip=0x400000 rsp=0x7ff000 rflags=0x202 / syscall / go 20 | 1 | turn 14 break B3 / turns 14
an NMI inside an NMI after a fault's IRETQ | S1 | 0 | - | {name=\"entry\", at=\"0xffffffff81000000\", size=\"0x1000\", kind=\"text\", exec=true, user_map=true} => {name=\"entry\", at=\"0xffffffff81000000\", size=\"0x1000\", kind=\"text\", exec=true, user_map=true, quiet=true} ;; {entry=\"0xffffffff81800040\", stack=2048, events=[], after_if=\"off\", returns=true} => {entry=\"0xffffffff81800040\", stack=2048, events=[\"fault\"], after_if=\"off\", returns=true} | start rip=0x400000 rsp=0x7ff000 rflags=0x202 / nmi / go 27 / fault 0x0 0x0 / go 18 / leave / go 17 / nmi | 1 | turn 66 break B4 / turns 66
the second SWAPGS left out | S1 | 5d | 48 0f 07 | - | start / syscall / go 12 / leave / go 9 | 1 | turn 23 break B5 / turns 23
the user's stack left on the way out | S1 | 54 | 59 | - | start rip=0x400000 rsp=0x7ff000 rflags=0x202 / syscall / go 12 / leave / go 10 | 1 | turn 24 break B5 / turns 24
CR3 by OR 0x2000 on the way out | S1 | 4d | 48 81 ca 00 20 00 00 | - | start rip=0x400000 rsp=0x7ff000 rflags=0x202 / syscall / go 12 / leave / go 9 | 1 | turn 21 break B6 / turns 21
random 21, one instruction taken out | S1 | 1c | 90 90 90 | - | start rip=0x400000 rsp=0x7ff000 rflags=0x202 gs=0x319a5b34dc5d rbx=0x20000 / syscall / go 7 | 1 | turn 8 break B6 / turns 8
an NMI before SWAPGS, whose routine goes by the saved CS alone | S1 | 1110 | f6 44 24 08 03 0f 85 03 00 00 00 e8 30 ef 7f 00 48 cf 90 0f 01 f8 | - | start rip=0x400000 rsp=0x7ff000 rflags=0x202 / syscall / nmi / go 3 | 1 | turn 5 break B7 / turns 5
an NMI without an IST at the first instruction of a syscall, with RSP in user memory | S1 | 0 | - | {vector=2, entry=\"0xffffffff81001100\", ist=2} => {vector=2, entry=\"0xffffffff81001100\"} | start rip=0x400000 rsp=0x7ff000 rflags=0x202 / syscall / nmi / go 1 / go 26 / go 4 | 1 | turn 29 break B7 / turns 29
a push before SWAPGS, then the rest of the routine is cut | S1 | 10 | 50 0f 0b | - | start rip=0x400000 rsp=0x7ff000 rflags=0x202 / syscall / go 2 | 1 | turn 3 break B8 / turns 3
a break inside a go line | S1 | 10 | 90 90 90 0f 0b | - | start rip=0x400000 rsp=0x7ff000 rflags=0x202 / syscall / go 100000 | 1 | turn 5 break B8 / turns 5
# Faults of traces.
a text of one empty line | S1 | 0 | - | - |  | 6 | bad trace 1 BadLine line 2
a first line that is no start | S1 | 0 | - | - | nmi | 6 | bad trace 1 BadLine line 1
a word that is no turn | S1 | 0 | - | - | start / jump | 6 | bad trace 1 BadLine line 2
no instruction | S1 | 0 | - | - | start / go 0 | 6 | bad trace 2 BadNumber line 2
more than 1,000,000 turns in go lines | S1 | 0 | - | - | start / go 999999 / go 2 | 6 | bad trace 2 BadNumber line 3
a turn after 1,000,000 | S1 | 0 | - | - | start / go 1000000 / nmi | 6 | bad trace 1 BadLine line 3
bytes after an NMI | S1 | 0 | - | - | start / nmi / mem 0x0 00 | 6 | bad trace 1 BadLine line 3
a vector above 255 | S1 | 0 | - | - | start / irq 256 | 6 | bad trace 2 BadNumber line 2
a return that sets RSP | S1 | 0 | - | - | start / leave rsp=0x0 | 6 | bad trace 1 BadLine line 2
a start at an address that is not canonical | S1 | 0 | - | - | start rip=0x800000000000 | 6 | bad trace 3 NotAdmitted line 1
a start with CS 0 | S1 | 0 | - | - | # / start cs=0x0 | 6 | bad trace 3 NotAdmitted line 2
bytes of a tracked word | S1 | 0 | - | - |  /  / start / # / mem 0xffffffff82002800 00 / nmi | 6 | bad trace 3 NotAdmitted line 3
the second run of bytes reaches a tracked word | S1 | 0 | - | - | start / mem 0x10000 00 / mem 0xffffffff820027ff 0000 | 6 | bad trace 3 NotAdmitted line 1
a fault by line goes before a start that is not admitted | S1 | 0 | - | - | start cs=0x0 / jump | 6 | bad trace 1 BadLine line 2
# Handlers that edit the saved user words.
a signal edits the RIP and the RSP to which a syscall returns | S1 | 0 | - | {entry=\"0xffffffff81800000\", => {entry=\"0xffffffff81800000\", frame=8, ;; {entry=\"0xffffffff81800030\", => {entry=\"0xffffffff81800030\", frame=128, | start / syscall / go 12 / body due.rip=0x500000 due.rsp=0x7f0000 / leave / go 10 | 0 | turns 25
an edited RIP that is no user address | S1 | 0 | - | {entry=\"0xffffffff81800000\", => {entry=\"0xffffffff81800000\", frame=8, ;; {entry=\"0xffffffff81800030\", => {entry=\"0xffffffff81800030\", frame=128, | start / syscall / go 12 / body due.rip=0x800000000000 due.rsp=0x7f0000 / leave / go 10 | 0 | turn 14 not allowed / turns 25
a routine that returns to its own copy of the RIP | S1 | 41 | 49 89 cc e8 c7 ff 7f 00 59 4c 89 e1 5a 41 5b 0f 20 da 48 81 ca 00 10 00 00 5c 0f 22 da ba 00 00 00 00 0f 01 f8 48 0f 07 | {entry=\"0xffffffff81800000\", => {entry=\"0xffffffff81800000\", frame=8, | start / syscall / go 13 / body due.rip=0x500000 / leave / go 11 | 1 | turn 27 break B5 / turns 27
";

/// The header of an ELF file and its one program header (System V ABI, ELF-64): what follows is loaded at 0xffffffff81000000.
const HEADERS: &str = "\
7f 45 4c 46 02 01 01 00 00 00 00 00 00 00 00 00 02 00 3e 00 01 00 00 00 00 00 00 81 ff ff ff ff
40 00 00 00 00 00 00 00 00 00 00 00 00 00 00 00 00 00 00 00 40 00 38 00 01 00 40 00 00 00 00 00
01 00 00 00 05 00 00 00 78 00 00 00 00 00 00 00 00 00 00 81 ff ff ff ff 00 00 00 81 ff ff ff ff
84 12 00 00 00 00 00 00 84 12 00 00 00 00 00 00 00 10 00 00 00 00 00 00";

/// A sample by its name.
fn sample_named(name: &str) -> Sample {
    match name {
        "S0" => Sample::S0,
        "S1" => Sample::S1,
        _ => Sample::S2,
    }
}

/// Puts the bytes into the image, at their offset.
fn patch(image: &mut Vec<u8>, at: u64, bytes: &[u8]) {
    for (i, byte) in bytes.iter().enumerate() {
        if let Some(place) = image.get_mut((at as usize).wrapping_add(i)) {
            *place = *byte;
        }
    }
}

/// The description after the edits; `-` is none.
fn edited(alloc: Global, config: &str, edits: &str) -> Result<String, Fail> {
    let mut text = String::from_str(alloc, config)?;
    if edits == "-" {
        return Ok(text);
    }
    for edit in edits.split(" ;; ") {
        let (old, new) = edit.split_once(" => ").ok_or("an edit")?;
        let (front, back) = text.as_str().split_once(old).ok_or("the old text")?;
        text = format!(in alloc; "{front}{new}{back}")?;
    }
    Ok(text)
}

/// An image `i`, a description `c` and a trace `t`.
pub(crate) fn files<'a>(image: &'a [u8], config: &'a [u8], trace: &'a [u8]) -> [Held<'a>; 3] {
    [
        Held {
            name: "i",
            bytes: image,
        },
        Held {
            name: "c",
            bytes: config,
        },
        Held {
            name: "t",
            bytes: trace,
        },
    ]
}

/// Runs `replay` on these files; no read and no write fails.
pub(crate) fn replayed(alloc: Global, held: &[Held<'_>]) -> Result<Ending, Fail> {
    Ok(ended(alloc, "replay / i / c / t", held, &[], &[])?)
}

/// Runs a row's trace, and compares; the failure is the row's name.
fn compare(alloc: Global, case: &mut Case<'static>) -> Result<(), Fail> {
    let name = case.text();
    let (mut image, config) = sample(alloc, sample_named(case.text()))
        .ok()
        .ok_or("memory")?;
    let at = case.number()?;
    patch(&mut image, at, &case.bytes(alloc)?);
    let config = edited(alloc, std::str::from_utf8(&config)?, case.text())?;
    let trace = case.lines(alloc)?;
    let end = replayed(alloc, &files(&image, config.as_bytes(), trace.as_bytes()))?;
    if !is_told(alloc, case, &end)? {
        Err(name)?;
    }
    Ok(())
}

#[test]
fn each_trace_is_told_as_its_row_says(rt: HostRuntime) -> Result<(), Fail> {
    for line in ROWS.lines() {
        if let Some(mut case) = case_of(line) {
            compare(rt.alloc(), &mut case)?;
        }
    }
    Ok(())
}

#[test]
fn the_code_of_an_elf_file_runs_alike(rt: HostRuntime) -> Result<(), Fail> {
    let alloc = rt.alloc();
    let (raw, config) = sample(alloc, Sample::S1).expect(&rt, "memory");
    let mut image = case_of(HEADERS).ok_or("headers")?.bytes(alloc)?;
    for byte in raw.iter().skip(16) {
        image.push(*byte)?;
    }
    let trace = b"start\nsyscall\ngo 12\nleave\ngo 10\n";
    let end = replayed(alloc, &files(&image, &config, trace))?;
    assert!(rt; end.code == 0);
    assert!(rt; end.written.as_slice() == b"turns 24\n".as_slice());
    Ok(())
}
