//! The reader on texts, with `~` for the byte 0A, and the first fault by line. From an independent model of the rules.

use kc_trace::{TraceFault, read_lines};
use std::alloc::Global;
use std::io;
use std::test::Fail;

const ROWS: &str = r#" => 1 BadLine line 1
~ => 1 BadLine line 2
~~ => 1 BadLine line 3
# => 1 BadLine line 2
#~ => 1 BadLine line 2
# a~~#b~ => 1 BadLine line 4
nmi~ => 1 BadLine line 1
~# c~syscall~ => 1 BadLine line 3
mem 0x0 00~ => 1 BadLine line 1
Start~ => 1 BadLine line 1
 start~ => 1 BadLine line 1
start  => 1 BadLine line 1
start  rax=0x0 => 1 BadLine line 1
start rax=0x0  => 1 BadLine line 1
start rax => 1 BadLine line 1
start eax=0x0 => 1 BadLine line 1
start RAX=0x0 => 1 BadLine line 1
start =0x0 => 1 BadLine line 1
start rax=0x0 rax=0x0 => 1 BadLine line 1
start rax=zz rax=0x0 => 1 BadLine line 1
start rax=5 foo=0x0 => 1 BadLine line 1
start ss=0x2b => 1 BadLine line 1
start cr3=0x0 => 1 BadLine line 1
start kgs=0x0 => 1 BadLine line 1
start eflags=0x2 => 1 BadLine line 1
start r16=0x0 => 1 BadLine line 1
start rax=5 => 2 BadNumber line 1
start rax= => 2 BadNumber line 1
start rax=0x => 2 BadNumber line 1
start rax=0xA => 2 BadNumber line 1
start rax=0X1 => 2 BadNumber line 1
start rax=0x12345678123456781 => 2 BadNumber line 1
start rax=0x00000000000000000 => 2 BadNumber line 1
start rax=-0x1 => 2 BadNumber line 1
start rax=0x1_0 => 2 BadNumber line 1
start cs=0x10000 => 2 BadNumber line 1
start cs=0xffffffffffffffff => 2 BadNumber line 1
start rax=0xg => 2 BadNumber line 1
# c~~start rax=1~ => 2 BadNumber line 3
start~start~ => 1 BadLine line 2
start~jump~ => 1 BadLine line 2
start~ nmi => 1 BadLine line 2
start~nmi  => 1 BadLine line 2
start~nmi 0 => 1 BadLine line 2
start~Nmi => 1 BadLine line 2
start~nmi # why~ => 1 BadLine line 2
start~// c~ => 1 BadLine line 2
start~debug 1 => 1 BadLine line 2
start~check 1 => 1 BadLine line 2
start~syscall 1 => 1 BadLine line 2
start~~~#~~nop~ => 1 BadLine line 6
start~go => 1 BadLine line 2
start~go 1 1 => 1 BadLine line 2
start~go  1 => 1 BadLine line 2
start~go  => 2 BadNumber line 2
start~go 0 => 2 BadNumber line 2
start~go 0000000 => 2 BadNumber line 2
start~go 1000001 => 2 BadNumber line 2
start~go 00000001 => 2 BadNumber line 2
start~go x => 2 BadNumber line 2
start~go 0x1 => 2 BadNumber line 2
start~go -1 => 2 BadNumber line 2
start~go +1 => 2 BadNumber line 2
start~go 1.0 => 2 BadNumber line 2
start~go 1e3 => 2 BadNumber line 2
start~go 999999~go 2 => 2 BadNumber line 3
start~nmi~go 1000000~ => 2 BadNumber line 3
start~go 1000000~go 1 => 2 BadNumber line 3
start~go 1000000~nmi => 1 BadLine line 3
start~go 1000000~irq 256 => 1 BadLine line 3
start~go 1000000~user rax=1 => 1 BadLine line 3
start~go 1000000~# fine~~mem 0x0 00~ => 1 BadLine line 5
start~go 999999~user~mem 0x10000 00~#~leave x => 1 BadLine line 6
start~go 999999~nmi~leave~ => 1 BadLine line 4
start~irq => 1 BadLine line 2
start~irq 32 32 => 1 BadLine line 2
start~irq  => 2 BadNumber line 2
start~irq 256 => 2 BadNumber line 2
start~irq 0x20 => 2 BadNumber line 2
start~irq -1 => 2 BadNumber line 2
start~irq 00000032 => 2 BadNumber line 2
start~fault 0x0 => 1 BadLine line 2
start~fault 0x0 0x0 0x0 => 1 BadLine line 2
start~fault => 1 BadLine line 2
start~fault 0x0 0x100000000 => 2 BadNumber line 2
start~fault 0 0x0 => 2 BadNumber line 2
start~fault 0x0 0 => 2 BadNumber line 2
start~fault 0x0  => 2 BadNumber line 2
start~trap 3 => 1 BadLine line 2
start~trap 3 0x0 0x0 => 1 BadLine line 2
start~trap 3 0 => 2 BadNumber line 2
start~trap 256 0x0 => 2 BadNumber line 2
start~trap 0x3 0x0 => 2 BadNumber line 2
start~trap 3 0x100000000 => 2 BadNumber line 2
start~nmi~mem 0x0 00 => 1 BadLine line 3
start~leave~mem 0x0 00 => 1 BadLine line 3
start~syscall~~# c~mem 0x0 00 => 1 BadLine line 5
start~go 1~mem zz zz => 1 BadLine line 3
start~mem => 1 BadLine line 2
start~mem 0x0 => 1 BadLine line 2
start~mem 0x0 00 00 => 1 BadLine line 2
start~mem 0x0  => 2 BadNumber line 2
start~mem 0x0 0 => 2 BadNumber line 2
start~mem 0x0 zz => 2 BadNumber line 2
start~mem 0x0 0x00 => 2 BadNumber line 2
start~mem 0 00 => 2 BadNumber line 2
start~mem 0X0 00 => 2 BadNumber line 2
start~mem 0x10000000000000000 00 => 2 BadNumber line 2
start~body cs=0x0 => 1 BadLine line 2
start~body gs=0x0 => 1 BadLine line 2
start~body mode=0x0 => 1 BadLine line 2
start~body rsp=1 => 2 BadNumber line 2
start~body rsp=0x1 rsp=0x1 => 1 BadLine line 2
start~user ss=0x0 => 1 BadLine line 2
start~user rax= => 2 BadNumber line 2
start~user  => 1 BadLine line 2
start~user cs=0x12345 => 2 BadNumber line 2
start~leave  => 1 BadLine line 2
start~leave rax= => 2 BadNumber line 2
start~leave rsp=zz => 1 BadLine line 2
start~leave rflags => 1 BadLine line 2
start~leave rip=0x0 => 1 BadLine line 2
start~leave rsp=0x0 => 1 BadLine line 2
start~leave rbx=0x0 => 1 BadLine line 2
start~leave rbp=0x0 => 1 BadLine line 2
start~leave r12=0x0 => 1 BadLine line 2
start~leave r13=0x0 => 1 BadLine line 2
start~leave r14=0x0 => 1 BadLine line 2
start~leave r15=0x0 => 1 BadLine line 2
start~leave cs=0x0 => 1 BadLine line 2
start~leave gs=0x0 => 1 BadLine line 2
start rax=5~jump~ => 2 BadNumber line 1
start~jump~go 0~ => 1 BadLine line 2
start~go 0~jump~ => 2 BadNumber line 2
start rip=0xffffffffffffffff~go 0 => 2 BadNumber line 2
start cs=0x0~jump => 1 BadLine line 2
start~mem 0xffffffff82002004 00~mem 0x0 => 1 BadLine line 3
start~ => read
start~syscall~nmi~ => read
start~syscall~go 9~ => read
start cs=0x30 => read
start cs=0x2b => read
#~start cs=0x0 => read
# nothing~~start~~# done~ => read
start~syscall~irq 32~ => read
start~nmi~go 27~leave~go 20 => read
start~syscall~go 999998~nmi~ => read
start cs=0x0~syscall~go 5~ => read
start rip=0x400000 rsp=0x7ff000 rflags=0x202~irq 32~nmi~ => read
start rsp=0x7ff000~syscall~go 1~irq 32~nmi~go 27~leave~go 20~irq 32~ => read
start~syscall~go 12~leave~go 9~ => read
start rip=0x400000 rsp=0x7ff000 rflags=0x202~syscall~go 12~leave~go 9~ => read
start~mem 0xffffffff82002004 00 => read
start~mem 0xffffffff8200200b 00 => read
start~mem 0xffffffff82002024 00 => read
start rip=0x400000 rsp=0x7ff000 rflags=0x202~nmi~check~go 11~ => read
start rip=0x400000 rsp=0x7ff000 rflags=0x202~syscall~check~go 11~ => read
start rip=0x400000 rsp=0x7ff000 rflags=0x202~nmi~go 4~check~go 11~ => read
start rip=0x400000 rsp=0x7ff000 rflags=0x202~user~syscall~go 1~ => read
start rip=0x400000 rsp=0x7ff000 rflags=0x202~irq 32~go 1000~nmi~user~mem 0x0 00~ => read
start rip=0x400000 rsp=0x7ff000 rflags=0x202~syscall~go 6~body rsp=0xffffffff83001fff~ => read
start rip=0x400000 rsp=0x7ff000 rflags=0x202~syscall~go 1~fault 0xffffffff82002800 0x2~go 1~ => read
start rip=0x400000 rsp=0x7ff000 rflags=0x202~syscall~go 1~fault 0xffffffff82002800 0x2~go 3~ => read
start rip=0x400000 rsp=0x7ff000 rflags=0x202~nmi~go 27~fault 0x0 0x0~go 18~leave~go 17~nmi~ => read"#;

fn line(alloc: Global, fault: TraceFault) -> io::Result<String> {
    let (name, number) = match fault {
        TraceFault::BadLine(n) => ("1 BadLine", n),
        TraceFault::BadNumber(n) => ("2 BadNumber", n),
        TraceFault::NotAdmitted(n) => ("3 NotAdmitted", n),
        TraceFault::NoMemory => ("4 NoMemory", 0),
    };
    Ok(format!(in alloc; "{name} line {number}")?)
}

/// What the text gets.
#[tactic(auto, using(kc_trace::proofs::CutLemmas::few_lines))]
fn answer(alloc: Global, text: &[u8]) -> io::Result<String> {
    if text.len() > 1000 {
        return Ok(String::from_str(alloc, "too long")?);
    }
    match read_lines(alloc, text) {
        Ok(_) => Ok(String::from_str(alloc, "read")?),
        Err(fault) => line(alloc, fault),
    }
}

fn unmarked(alloc: Global, text: &str) -> io::Result<Vec<u8>> {
    let mut bytes = Vec::new(alloc);
    for byte in text.as_bytes() {
        bytes.push(if *byte == b'~' { b'\n' } else { *byte })?;
    }
    Ok(bytes)
}

#[test]
fn texts_are_read_or_their_first_fault_is_told(rt: HostRuntime) -> Result<(), Fail> {
    let alloc = rt.alloc();
    for row in ROWS.lines() {
        let (text, due) = row.rsplit_once(" => ").ok_or("a row")?;
        let found = answer(alloc, &unmarked(alloc, text)?)?;
        if found.as_str() != due {
            Err(row)?;
        }
    }
    Ok(())
}
