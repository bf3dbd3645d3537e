//! What turns leave: frames, registers, latches, bytes and the list of accesses.

use crate::table::{Compared, compare};
use std::test::Fail;

/// Turns that enter the kernel, and steps of user code.
const DELIVERIES: &str = r#"state user code
image s1.img
config s1.toml
trace start rip=0x400000 rsp=0x7ff000 rflags=0x202 rax=0x11 gs=0x5000
at user chain=0 rsp=0x7ff000 rip=0x400000 rflags=0x202 gs=0x5000 cr3=0x1001000
turn irq 32
-> done
out rsp=0xffffffff84001fd8 rip=0xffffffff81000100 rflags=0x2 cs=0x10 ss=0x0
mode code
chain 1
activation 0xffffffff84002000
write 0xffffffff84001ff8 2b00000000000000
write 0xffffffff84001ff0 00f07f0000000000
write 0xffffffff84001fe8 0202000000000000
write 0xffffffff84001fe0 3300000000000000
write 0xffffffff84001fd8 0000400000000000
access read 0xffffffff82000200 16; read 0xffffffff82001010 8; read 0xffffffff82002004 8; write 0xffffffff84001ff8 8;
  write 0xffffffff84001ff0 8; write 0xffffffff84001fe8 8; write 0xffffffff84001fe0 8; write 0xffffffff84001fd8 8
turn fault 0xffffffff82000000 0xffffffff
-> done
out rsp=0xffffffff84001fd0 rip=0xffffffff81000200 rflags=0x2 cs=0x10 ss=0x0
mode code
chain 1
activation 0xffffffff84002000
write 0xffffffff84001ff8 2b00000000000000
write 0xffffffff84001ff0 00f07f0000000000
write 0xffffffff84001fe8 0202000000000000
write 0xffffffff84001fe0 3300000000000000
write 0xffffffff84001fd8 0000400000000000
write 0xffffffff84001fd0 ffffffff00000000
access read 0xffffffff820000e0 16; read 0xffffffff82001010 8; read 0xffffffff82002004 8; write 0xffffffff84001ff8 8;
  write 0xffffffff84001ff0 8; write 0xffffffff84001fe8 8; write 0xffffffff84001fe0 8; write 0xffffffff84001fd8 8;
  write 0xffffffff84001fd0 8
turn syscall
-> done
out rcx=0x400000 r11=0x202 rip=0xffffffff81000000 rflags=0x2 cs=0x10 ss=0x18
mode code
chain 1
turn user
-> done
out rax=0x0 rsp=0x0 rip=0x0 gs=0x0

state user turns
image s1.img
config s1.toml
trace start rip=0x400000 rsp=0x7ff000 rflags=0x202 rax=0x11 rbx=0x22 gs=0x5000
at user chain=0 rsp=0x7ff000 rip=0x400000 rflags=0x202 gs=0x5000 cr3=0x1001000
turn user rax=0x1 rbp=0xffffffffffffffff
mem 0x10000 00ff
-> done
out rax=0x1 rbx=0x0 rsp=0x0 rbp=0xffffffffffffffff rip=0x0 gs=0x0

state kernel's stack, RSP not aligned
image s1.img
# at 0xffffffff81000000: swapgs; mov rax, cr3; and rax, -0x1001; mov cr3, rax; mov rsp, -0x7cffb005; nop
patch 0x10 0f01f80f20d84881e0ffefffff0f22d848c7c4fb4f008390
config s1.toml
old fmask = "0x47700"
new fmask = "0x47500"
trace start rip=0x400000 rsp=0x7ff000 rflags=0x202
trace syscall
trace go 5
at code chain=1 rsp=0xffffffff83004ffb rip=0xffffffff81000017 rflags=0x206 gs=0xffffffff82002000 cr3=0x1000000
turn irq 32
-> done
out rsp=0xffffffff83004fc8 rip=0xffffffff81000100 rflags=0x6
chain 2
activation 0xffffffff83004ff0
write 0xffffffff83004fe8 1800000000000000
write 0xffffffff83004fe0 fb4f0083ffffffff
write 0xffffffff83004fd8 0602000000000000
write 0xffffffff83004fd0 1000000000000000
write 0xffffffff83004fc8 17000081ffffffff
access read 0xffffffff82000200 16; read 0xffffffff82001010 8; write 0xffffffff83004fe8 8; write 0xffffffff83004fe0 8;
  write 0xffffffff83004fd8 8; write 0xffffffff83004fd0 8; write 0xffffffff83004fc8 8

state RSP 0xffffffff8300203f, near the guard
image s1.img
# at 0xffffffff81000000: swapgs; mov rax, cr3; and rax, -0x1001; mov cr3, rax; mov rsp, -0x7cffdfc1; nop
patch 0x10 0f01f80f20d84881e0ffefffff0f22d848c7c43f20008390
config s1.toml
old fmask = "0x47700"
new fmask = "0x47500"
trace start rip=0x400000 rsp=0x7ff000 rflags=0x202
trace syscall
trace go 5
at code chain=1 rsp=0xffffffff8300203f rip=0xffffffff81000017 rflags=0x206 gs=0xffffffff82002000 cr3=0x1000000
turn irq 32
-> done
out rsp=0xffffffff83002008 rip=0xffffffff81000100 rflags=0x6
chain 2
activation 0xffffffff83002030
write 0xffffffff83002028 1800000000000000
write 0xffffffff83002020 3f200083ffffffff
write 0xffffffff83002018 0602000000000000
write 0xffffffff83002010 1000000000000000
write 0xffffffff83002008 17000081ffffffff
access read 0xffffffff82000200 16; read 0xffffffff82001010 8; write 0xffffffff83002028 8; write 0xffffffff83002020 8;
  write 0xffffffff83002018 8; write 0xffffffff83002010 8; write 0xffffffff83002008 8

state RSP 0xffffffff8300202f, near the guard
image s1.img
# at 0xffffffff81000000: swapgs; mov rax, cr3; and rax, -0x1001; mov cr3, rax; mov rsp, -0x7cffdfd1; nop
patch 0x10 0f01f80f20d84881e0ffefffff0f22d848c7c42f20008390
config s1.toml
old fmask = "0x47700"
new fmask = "0x47500"
trace start rip=0x400000 rsp=0x7ff000 rflags=0x202
trace syscall
trace go 5
at code chain=1 rsp=0xffffffff8300202f rip=0xffffffff81000017 rflags=0x206 gs=0xffffffff82002000 cr3=0x1000000
turn irq 32
-> stopped
access read 0xffffffff82000200 16; read 0xffffffff82001010 8; write 0xffffffff83002018 8; write 0xffffffff83002010 8;
  write 0xffffffff83002008 8; write 0xffffffff83002000 8; write 0xffffffff83001ff8 8

state six words: the last in the guard
image s1.img
# at 0xffffffff81000000: swapgs; mov rax, cr3; and rax, -0x1001; mov cr3, rax; mov rsp, -0x7cffdfe0; mov rcx, [rbx]
patch 0x10 0f01f80f20d84881e0ffefffff0f22d848c7c420200083488b0b
config s1.toml
old {name="user", at="0x10000", size="0x7ffffffe0000", kind="user", write=true, user_map=true}
new {name="user", at="0x10000", size="0x7ffffffe0000", kind="user", write=true, user_map=true, may_fault=true}
trace start rip=0x400000 rsp=0x7ff000 rflags=0x202 rbx=0x20000
trace syscall
trace go 5
at code chain=1 rsp=0xffffffff83002020 rip=0xffffffff81000017 rflags=0x6 gs=0xffffffff82002000 cr3=0x1000000
turn fault 0x20000 0x2
-> stopped
access read 0xffffffff820000e0 16; read 0xffffffff82001010 8; write 0xffffffff83002018 8; write 0xffffffff83002010 8;
  write 0xffffffff83002008 8; write 0xffffffff83002000 8; write 0xffffffff83001ff8 8; write 0xffffffff83001ff0 8

state IF is set, RSP 0: the frame wraps
image s1.img
config s1.toml
old fmask = "0x47700"
new fmask = "0x47500"
trace start
trace syscall
at code chain=1 rsp=0x0 rip=0xffffffff81000000 rflags=0x202 gs=0x0 cr3=0x1001000
turn irq 32
-> break B3
access read 0xffffffff82000200 16; read 0xffffffff82001010 8; write 0xfffffffffffffff8 8; write 0xfffffffffffffff0 8;
  write 0xffffffffffffffe8 8; write 0xffffffffffffffe0 8; write 0xffffffffffffffd8 8

state the IDT's last byte in a guard
image s1.img
config s1.toml
old idt = "0xffffffff82000000"
new idt = "0xffffffff83000fd0"
trace start rip=0x400000 rsp=0x7ff000 rflags=0x202
at user chain=0 rsp=0x7ff000 rip=0x400000 rflags=0x202 gs=0x0 cr3=0x1001000
turn irq 32
-> stopped
access read 0xffffffff830011d0 16; read 0xffffffff82001010 8; read 0xffffffff82002004 8; write 0xffffffff84001ff8 8;
  write 0xffffffff84001ff0 8; write 0xffffffff84001fe8 8; write 0xffffffff84001fe0 8; write 0xffffffff84001fd8 8
turn nmi
-> break B3
access read 0xffffffff83000ff0 16; read 0xffffffff82001010 8; read 0xffffffff8200202c 8; write 0xffffffff84005ff8 8;
  write 0xffffffff84005ff0 8; write 0xffffffff84005fe8 8; write 0xffffffff84005fe0 8; write 0xffffffff84005fd8 8

state the IDT absent goes before a frame in a guard
image s1.img
config s1.toml
old {name="user", at="0x10000", size="0x7ffffffe0000", kind="user", write=true, user_map=true}
new {name="user", at="0x10000", size="0x7ffffffe0000", kind="user", write=true, user_map=true},\n {name="high",
  at="0xffffffff85000000", size="0x10000", kind="area"}
old idt = "0xffffffff82000000"
new idt = "0xffffffff85000000"
old rsp0 = "0xffffffff84002000"
new rsp0 = "0xffffffff83001800"
trace start rip=0x400000 rsp=0x7ff000 rflags=0x202
at user chain=0 rsp=0x7ff000 rip=0x400000 rflags=0x202 gs=0x0 cr3=0x1001000
turn irq 32
-> break B3
access read 0xffffffff85000200 16; read 0xffffffff82001010 8; read 0xffffffff82002004 8; write 0xffffffff830017f8 8;
  write 0xffffffff830017f0 8; write 0xffffffff830017e8 8; write 0xffffffff830017e0 8; write 0xffffffff830017d8 8

state a word of the frame in no region goes before a later one in a guard
image s1.img
config s1.toml
old {name="user", at="0x10000", size="0x7ffffffe0000", kind="user", write=true, user_map=true}
new {name="user", at="0x10000", size="0x7ffffffe0000", kind="user", write=true, user_map=true},\n {name="x",
  at="0xffffffff85000000", size="0x1000", kind="guard"}
old rsp0 = "0xffffffff84002000"
new rsp0 = "0xffffffff85001010"
trace start rip=0x400000 rsp=0x7ff000 rflags=0x202
at user chain=0 rsp=0x7ff000 rip=0x400000 rflags=0x202 gs=0x0 cr3=0x1001000
turn irq 32
-> break B3
access read 0xffffffff82000200 16; read 0xffffffff82001010 8; read 0xffffffff82002004 8; write 0xffffffff85001008 8;
  write 0xffffffff85001000 8; write 0xffffffff85000ff8 8; write 0xffffffff85000ff0 8; write 0xffffffff85000fe8 8"#;

/// Turns of a handler, and events while it runs.
const HANDLERS: &str = r#"state what leave puts back
image s1.img
config s1.toml
trace start rip=0x400000 rsp=0x7ff000 rflags=0x202 rbx=0xb rbp=0xbb r12=0xc r13=0xd r14=0xe r15=0xf
trace syscall
trace go 12
trace body rax=0x1 rcx=0x2 rbx=0x3 rbp=0x4 r12=0x5 r15=0x6 rsp=0xffffffff83005f90 rip=0x123 rflags=0xcd7
at inside handler=0 rsp=0xffffffff83005fd0 back=0xffffffff81000036 rflags=0x6 rbx=0xb rbp=0xbb r12=0xc r13=0xd r14=0xe
  r15=0xf chain=1 rsp=0xffffffff83005f90 rip=0x123 rflags=0xcd7 gs=0xffffffff82002000 cr3=0x1000000
turn leave
-> done
out rbx=0xb rsp=0xffffffff83005fd8 rbp=0xbb r12=0xc r15=0xf rip=0xffffffff81000036 rflags=0x8d7
mode code
turn leave r9=0x7 rdi=0x8
-> done
out rbx=0xb rsp=0xffffffff83005fd8 rbp=0xbb rdi=0x8 r9=0x7 r12=0xc r15=0xf rip=0xffffffff81000036 rflags=0x8d7
mode code

state a body turn that puts RSP in the guard
image s1.img
# at 0xffffffff81000000: swapgs; mov rax, cr3; and rax, -0x1001; mov cr3, rax; mov rsp, -0x7cffdf00; call
  0xffffffff81800010
patch 0x10 0f01f80f20d84881e0ffefffff0f22d848c7c400210083e8f4ff7f00
config s1.toml
trace start rip=0x400000 rsp=0x7ff000 rflags=0x202
trace syscall
trace go 6
at inside handler=1 rsp=0xffffffff830020f8 back=0xffffffff8100001c rflags=0x6 rbx=0x0 rbp=0x0 r12=0x0 r13=0x0 r14=0x0
  r15=0x0 chain=1 rsp=0xffffffff830020f8 rip=0xffffffff81800010 rflags=0x6 gs=0xffffffff82002000 cr3=0x1000000
turn body rsp=0xffffffff83001fff
-> stopped
access read 0xffffffff83001fff 1
turn body rsp=0xffffffff83002000
-> done
out rsp=0xffffffff83002000
access read 0xffffffff83002000 1

state a handler's stack that passes the guard
image s1.img
# at 0xffffffff81000000: swapgs; mov rax, cr3; and rax, -0x1001; mov cr3, rax; mov rsp, -0x7cffdf00; call
  0xffffffff81800010
patch 0x10 0f01f80f20d84881e0ffefffff0f22d848c7c400210083e8f4ff7f00
config s1.toml
old {entry="0xffffffff81800010", stack=2048, events=[], after_if="off", returns=true}
new {entry="0xffffffff81800010", stack=65536, events=[], after_if="off", returns=true}
trace start rip=0x400000 rsp=0x7ff000 rflags=0x202
trace syscall
trace go 6
at inside handler=1 rsp=0xffffffff830020f8 back=0xffffffff8100001c rflags=0x6 rbx=0x0 rbp=0x0 r12=0x0 r13=0x0 r14=0x0
  r15=0x0 chain=1 rsp=0xffffffff830020f8 rip=0xffffffff81800010 rflags=0x6 gs=0xffffffff82002000 cr3=0x1000000
turn body rsp=0xffffffff83000fff
-> break B3
access read 0xffffffff83000fff 1
turn body rsp=0xffffffff83001000
-> stopped
access read 0xffffffff83001000 1

state an NMI inside a handler: RSP and RIP of the body are pushed
image s1.img
config s1.toml
trace start rip=0x400000 rsp=0x7ff000 rflags=0x202
trace syscall
trace go 12
trace body rsp=0xffffffff83005f48 rip=0x55aa
at inside handler=0 rsp=0xffffffff83005fd0 back=0xffffffff81000036 rflags=0x6 rbx=0x0 rbp=0x0 r12=0x0 r13=0x0 r14=0x0
  r15=0x0 chain=1 rsp=0xffffffff83005f48 rip=0x55aa rflags=0x6 gs=0xffffffff82002000 cr3=0x1000000
turn nmi
-> done
out rsp=0xffffffff84005fd8 rip=0xffffffff81001100 nmi_blocked=0x1
mode code
chain 2
activation 0xffffffff84006000
write 0xffffffff84005ff8 1800000000000000
write 0xffffffff84005ff0 485f0083ffffffff
write 0xffffffff84005fe8 0600000000000000
write 0xffffffff84005fe0 1000000000000000
write 0xffffffff84005fd8 aa55000000000000
access read 0xffffffff82000020 16; read 0xffffffff82001010 8; read 0xffffffff8200202c 8; write 0xffffffff84005ff8 8;
  write 0xffffffff84005ff0 8; write 0xffffffff84005fe8 8; write 0xffffffff84005fe0 8; write 0xffffffff84005fd8 8

state in a handler that lists irq and fault
image s1.img
config s1.toml
old {name="user", at="0x10000", size="0x7ffffffe0000", kind="user", write=true, user_map=true}
new {name="user", at="0x10000", size="0x7ffffffe0000", kind="user", write=true, user_map=true},\n {name="data",
  at="0xffffffff85000000", size="0x1000", kind="data"}
trace start rip=0x400000 rsp=0x7ff000 rflags=0x202
trace syscall
trace go 12
at inside handler=0 rsp=0xffffffff83005fd0 back=0xffffffff81000036 rflags=0x6 rbx=0x0 rbp=0x0 r12=0x0 r13=0x0 r14=0x0
  r15=0x0 chain=1 rsp=0xffffffff83005fd0 rip=0xffffffff81800000 rflags=0x6 gs=0xffffffff82002000 cr3=0x1000000
turn leave rflags=0x2 rax=0x5
-> done
out rax=0x5 rsp=0xffffffff83005fd8 rip=0xffffffff81000036 rflags=0x2
mode code
turn body rip=0x1234 r15=0x9
-> done
out r15=0x9 rip=0x1234
access read 0xffffffff83005fd0 1
turn body
mem 0xffffffff83005fcf 01
-> done
access read 0xffffffff83005fd0 1"#;

#[test]
fn deliveries_leave_what_the_cases_say(rt: HostRuntime) -> Result<(), Fail> {
    compare(rt.alloc(), DELIVERIES, Compared::All)
}

#[test]
fn handlers_leave_what_the_cases_say(rt: HostRuntime) -> Result<(), Fail> {
    compare(rt.alloc(), HANDLERS, Compared::All)
}
