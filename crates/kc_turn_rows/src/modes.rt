//! Which turns may come in each mode: by each kind of turn, some that may and some that may not.

use crate::table::{Compared, compare};
use std::test::Fail;

/// User code runs.
const USER: &str = r#"state user code
image s1.img
config s1.toml
trace start rip=0x400000 rsp=0x7ff000 rflags=0x202 rax=0x11 gs=0x5000
at user chain=0 rsp=0x7ff000 rip=0x400000 rflags=0x202 gs=0x5000 cr3=0x1001000
turn irq 32
-> done
turn irq 31
-> not allowed
turn irq 2
-> not allowed
turn irq 33
-> not allowed
turn nmi
-> done
turn debug
-> done
turn check
-> done
turn fault 0x0 0x4
-> done
turn trap 14 0x0
-> not allowed
turn trap 3 0x0
-> not allowed
turn syscall
-> done
turn user
-> done
turn body
-> not allowed
turn leave
-> not allowed
turn go 1
-> not allowed

state 32-bit user code
image s1.img
config s1.toml
trace start rip=0x400000 rsp=0x7ff000 rflags=0x202 cs=0x23
at user chain=0 rsp=0x7ff000 rip=0x400000 rflags=0x202 gs=0x0 cr3=0x1001000
turn syscall
-> not allowed
turn irq 32
-> done
turn user cs=0x33
-> done

state user code, more gates
image s1.img
config s1.toml
old {vector=32, entry="0xffffffff81000100"}
new {vector=32, entry="0xffffffff81000100"},\n {vector=0, entry="0xffffffff81000100"},\n {vector=3,
  entry="0xffffffff81000100"},\n {vector=4, entry="0xffffffff81000100", trap=true},\n {vector=13,
  entry="0xffffffff81000200"},\n {vector=128, entry="0xffffffff81000100", user=true},\n {vector=129,
  entry="0xffffffff81000100"},\n {vector=255, entry="0xffffffff81000100", user=true, trap=true}
trace start rip=0x400000 rsp=0x7ff000 rflags=0x202
at user chain=0 rsp=0x7ff000 rip=0x400000 rflags=0x202 gs=0x0 cr3=0x1001000
turn irq 128
-> not allowed
turn irq 129
-> done
turn trap 0 0x0
-> done
turn trap 0 0x1
-> not allowed
turn trap 13 0xffffffff
-> done
turn trap 1 0x0
-> not allowed
turn trap 2 0x0
-> not allowed
turn trap 14 0x0
-> not allowed
turn trap 18 0x0
-> not allowed
turn trap 32 0x0
-> not allowed
turn trap 128 0x0
-> done
turn trap 128 0x1
-> not allowed
turn trap 129 0x0
-> not allowed

state user turns
image s1.img
config s1.toml
trace start rip=0x400000 rsp=0x7ff000 rflags=0x202 rax=0x11 rbx=0x22 gs=0x5000
at user chain=0 rsp=0x7ff000 rip=0x400000 rflags=0x202 gs=0x5000 cr3=0x1001000
turn user rip=0x7fffffffffff
-> done
turn user rip=0x800000000000
-> not allowed
turn user rflags=0x2
-> not allowed
turn user rflags=0x240fd7
-> done
turn user rflags=0x1202
-> not allowed
turn user cs=0x23
-> done
turn user cs=0x2b
-> not allowed
turn user gs=0x7fffffffffff
-> done
turn user gs=0x800000000000
-> not allowed
turn user rsp=0xffffffff83005fff
-> not allowed
turn user rsp=0xffffffff83006000
-> done
turn user
mem 0x7ffffffeffff aa
-> done
turn user
mem 0x7ffffffeffff aabb
-> not allowed
turn user
mem 0xffffffff83004000 00
-> not allowed
turn user
mem 0x20000 01
mem 0xffffffff82002800 00
-> not allowed

state user turns where user_gs_writes is true
image s1.img
config s1.toml
old user_gs_writes = false
new user_gs_writes = true
trace start rip=0x400000 rsp=0x7ff000 rflags=0x202
at user chain=0 rsp=0x7ff000 rip=0x400000 rflags=0x202 gs=0x0 cr3=0x1001000
turn user gs=0x800000000000
-> not allowed
turn user gs=0xffff800000000000
-> done

state without user_cs32
image s1.img
config s1.toml
old user_cs32 = 35\n
new 
trace start rip=0x400000 rsp=0x7ff000 rflags=0x202
at user chain=0 rsp=0x7ff000 rip=0x400000 rflags=0x202 gs=0x0 cr3=0x1001000
turn user cs=0x23
-> not allowed
turn user cs=0x33
-> done"#;

/// Kernel code of the image runs.
const CODE: &str = r#"state the syscall's first instruction
image s1.img
config s1.toml
old {vector=32, entry="0xffffffff81000100"}
new {vector=32, entry="0xffffffff81000100"},\n {vector=0, entry="0xffffffff81000100"},\n {vector=3,
  entry="0xffffffff81000100"},\n {vector=4, entry="0xffffffff81000100", trap=true},\n {vector=13,
  entry="0xffffffff81000200"},\n {vector=128, entry="0xffffffff81000100", user=true},\n {vector=129,
  entry="0xffffffff81000100"},\n {vector=255, entry="0xffffffff81000100", user=true, trap=true}
trace start rip=0x400000 rsp=0x7ff000 rflags=0x202 gs=0x5000
trace syscall
at code chain=1 rsp=0x7ff000 rip=0xffffffff81000000 rflags=0x2 gs=0x5000 cr3=0x1001000
turn go 1
-> done
turn irq 32
-> not allowed
turn nmi
-> done
turn debug
-> done
turn check
-> done
turn fault 0x0 0x0
-> not allowed
turn syscall
-> not allowed
turn user
-> not allowed
turn body
-> not allowed
turn leave
-> not allowed
turn trap 0 0x0
-> not allowed
turn trap 128 0x0
-> not allowed

state the same where the region is quiet
image s2.img
config s2.toml
trace start rip=0x400000 rsp=0x7ff000 rflags=0x202
trace syscall
at code chain=1 rsp=0x7ff000 rip=0xffffffff81000000 rflags=0x2 gs=0x0 cr3=0x1001000
turn debug
-> not allowed
turn nmi
-> done

state after STI
image s1.img
# at 0xffffffff81000000: sti; nop; nop
patch 0x10 fb9090
config s1.toml
trace start rip=0x400000 rsp=0x7ff000 rflags=0x202
trace syscall
trace go 1
at code chain=1 rsp=0x7ff000 rip=0xffffffff81000001 rflags=0x202 gs=0x0 cr3=0x1001000 shadow=0x1
turn irq 32
-> not allowed
turn nmi
-> done
turn go 1
-> done

state after STI and one instruction
image s1.img
# at 0xffffffff81000000: sti; nop; nop
patch 0x10 fb9090
config s1.toml
trace start rip=0x400000 rsp=0x7ff000 rflags=0x202
trace syscall
trace go 2
at code chain=1 rsp=0x7ff000 rip=0xffffffff81000002 rflags=0x202 gs=0x0 cr3=0x1001000
turn irq 32
-> done

state after STI and CLI
image s1.img
# at 0xffffffff81000000: sti; cli; nop
patch 0x10 fbfa90
config s1.toml
trace start rip=0x400000 rsp=0x7ff000 rflags=0x202
trace syscall
trace go 2
at code chain=1 rsp=0x7ff000 rip=0xffffffff81000002 rflags=0x2 gs=0x0 cr3=0x1001000
turn irq 32
-> not allowed

state at an NMI's entry
image s1.img
config s1.toml
trace start rip=0x400000 rsp=0x7ff000 rflags=0x202
trace nmi
at code chain=1 rsp=0xffffffff84005fd8 rip=0xffffffff81001100 rflags=0x2 gs=0x0 cr3=0x1001000 nmi_blocked=0x1
turn nmi
-> not allowed
turn check
-> done
turn debug
-> not allowed
turn irq 32
-> not allowed

state at a machine check's entry
image s1.img
config s1.toml
trace start rip=0x400000 rsp=0x7ff000 rflags=0x202
trace check
at code chain=1 rsp=0xffffffff84007fd8 rip=0xffffffff81001200 rflags=0x2 gs=0x0 cr3=0x1001000 mcip=0x1
turn check
-> not allowed
turn nmi
-> done

state MCIP left set
image s1.img
# at 0xffffffff81001200: iretq
patch 0x1210 48cf
config s1.toml
trace start rip=0x400000 rsp=0x7ff000 rflags=0x202
trace check
trace go 1
at user chain=0 rsp=0x7ff000 rip=0x400000 rflags=0x202 gs=0x0 cr3=0x1001000 mcip=0x1
turn check
-> not allowed
turn syscall
-> done

state an NMI's IRETQ opens NMIs
image s1.img
# at 0xffffffff81001100: iretq
patch 0x1110 48cf
config s1.toml
trace start rip=0x400000 rsp=0x7ff000 rflags=0x202
trace nmi
trace go 1
at user chain=0 rsp=0x7ff000 rip=0x400000 rflags=0x202 gs=0x0 cr3=0x1001000
turn nmi
-> done

state SYSRETQ leaves the NMI block
image s1.img
config s1.toml
trace start rip=0x400000 rsp=0x7ff000 rflags=0x202
trace syscall
trace nmi
at code chain=2 rsp=0xffffffff84005fd8 rip=0xffffffff81001100 rflags=0x2 gs=0x0 cr3=0x1001000 nmi_blocked=0x1
turn nmi
-> not allowed
turn check
-> done

state a read of eight bytes
image s1.img
# at 0xffffffff81000000: mov rax, [rbx]
patch 0x10 488b03
config s1.toml
old {name="user", at="0x10000", size="0x7ffffffe0000", kind="user", write=true, user_map=true}
new {name="user", at="0x10000", size="0x7ffffffe0000", kind="user", write=true, user_map=true, may_fault=true}
trace start rip=0x400000 rsp=0x7ff000 rflags=0x202 rbx=0x20000
trace syscall
at code chain=1 rsp=0x7ff000 rip=0xffffffff81000000 rflags=0x2 gs=0x0 cr3=0x1001000
turn fault 0x20000 0x0
-> done
turn fault 0x20007 0xdeadbeef
-> done
turn fault 0x20008 0x0
-> not allowed
turn fault 0x1ffff 0x0
-> not allowed
turn fault 0xffffffff82000000 0x0
-> not allowed

state a pop to memory: both places
image s1.img
# at 0xffffffff81000000: pop [rbx]
patch 0x10 8f03
config s1.toml
old {name="user", at="0x10000", size="0x7ffffffe0000", kind="user", write=true, user_map=true}
new {name="user", at="0x10000", size="0x7ffffffe0000", kind="user", write=true, user_map=true, may_fault=true}
trace start rip=0x400000 rsp=0x7ff000 rflags=0x202 rbx=0x20000
trace syscall
at code chain=1 rsp=0x7ff000 rip=0xffffffff81000000 rflags=0x2 gs=0x0 cr3=0x1001000
turn fault 0x7ff000 0x0
-> done
turn fault 0x20004 0x0
-> done
turn fault 0x7ff008 0x0
-> not allowed

state IRETQ counts none
image s1.img
# at 0xffffffff81000000: iretq
patch 0x10 48cf
config s1.toml
old {name="user", at="0x10000", size="0x7ffffffe0000", kind="user", write=true, user_map=true}
new {name="user", at="0x10000", size="0x7ffffffe0000", kind="user", write=true, user_map=true, may_fault=true}
trace start rip=0x400000 rsp=0x7ff000 rflags=0x202 rbx=0x20000
trace syscall
at code chain=1 rsp=0x7ff000 rip=0xffffffff81000000 rflags=0x2 gs=0x0 cr3=0x1001000
turn fault 0x7ff000 0x0
-> not allowed

state no region may fault
image s1.img
# at 0xffffffff81000000: mov rax, [rbx]
patch 0x10 488b03
config s1.toml
trace start rip=0x400000 rsp=0x7ff000 rflags=0x202 rbx=0x20000
trace syscall
at code chain=1 rsp=0x7ff000 rip=0xffffffff81000000 rflags=0x2 gs=0x0 cr3=0x1001000
turn fault 0x20000 0x0
-> not allowed

state nothing decodes at RIP
image s1.img
# at 0xffffffff81000000: bytes 0f 05, no instruction of the grammar
patch 0x10 0f05
config s1.toml
old {name="user", at="0x10000", size="0x7ffffffe0000", kind="user", write=true, user_map=true}
new {name="user", at="0x10000", size="0x7ffffffe0000", kind="user", write=true, user_map=true, may_fault=true}
trace start rip=0x400000 rsp=0x7ff000 rflags=0x202 rbx=0x20000
trace syscall
at code chain=1 rsp=0x7ff000 rip=0xffffffff81000000 rflags=0x2 gs=0x0 cr3=0x1001000
turn fault 0x20000 0x0
-> not allowed
turn nmi
-> done
turn debug
-> done"#;

/// A handler runs.
const INSIDE: &str = r#"state in a handler that lists irq and fault
image s1.img
config s1.toml
old {name="user", at="0x10000", size="0x7ffffffe0000", kind="user", write=true, user_map=true}
new {name="user", at="0x10000", size="0x7ffffffe0000", kind="user", write=true, user_map=true},\n {name="data",
  at="0xffffffff85000000", size="0x1000", kind="data"}
trace start rip=0x400000 rsp=0x7ff000 rflags=0x202
trace syscall
trace go 12
at inside handler=0 rsp=0xffffffff83005fd0 back=0xffffffff81000036 rflags=0x6 rbx=0x0 rbp=0x0 r12=0x0 r13=0x0 r14=0x0
  r15=0x0 chain=1 rsp=0xffffffff83005fd0 rip=0xffffffff81800000 rflags=0x6 gs=0xffffffff82002000 cr3=0x1000000
turn go 1
-> not allowed
turn irq 32
-> not allowed
turn nmi
-> done
turn check
-> done
turn debug
-> not allowed
turn fault 0x0 0x2
-> done
turn syscall
-> not allowed
turn user
-> not allowed
turn trap 3 0x0
-> not allowed
turn leave
-> done
turn leave rflags=0x202
-> not allowed
turn leave rflags=0x402
-> not allowed
turn leave rflags=0x1002
-> not allowed
turn body
-> done
turn body rsp=0xffffffff830057d0 rax=0x1 rbx=0x2
-> done
turn body rsp=0xffffffff830057cf
-> not allowed
turn body rsp=0xffffffff83005fd1
-> not allowed
turn body rflags=0x0
-> not allowed
turn body rflags=0x202
-> done
turn body rflags=0x10002
-> not allowed
turn body
mem 0xffffffff83005fcf 01
-> done
turn body
mem 0xffffffff83005fd0 01
-> not allowed
turn body
mem 0xffffffff830057cf 01
-> not allowed

state the same after a body turn that set IF
image s1.img
config s1.toml
trace start rip=0x400000 rsp=0x7ff000 rflags=0x202
trace syscall
trace go 12
trace body rflags=0x202 rsp=0xffffffff83005ecf rbx=0x77 r11=0x99
at inside handler=0 rsp=0xffffffff83005fd0 back=0xffffffff81000036 rflags=0x6 rbx=0x0 rbp=0x0 r12=0x0 r13=0x0 r14=0x0
  r15=0x0 chain=1 rsp=0xffffffff83005ecf rip=0xffffffff81800000 rflags=0x202 gs=0xffffffff82002000 cr3=0x1000000
turn irq 32
-> done
turn leave
-> done
turn leave rflags=0x202
-> not allowed

state in a handler that lists nothing
image s1.img
config s1.toml
trace start rip=0x400000 rsp=0x7ff000 rflags=0x202
trace irq 32
trace go 22
at inside handler=1 rsp=0xffffffff84001f58 back=0xffffffff81000137 rflags=0x6 rbx=0x0 rbp=0x0 r12=0x0 r13=0x0 r14=0x0
  r15=0x0 chain=1 rsp=0xffffffff84001f58 rip=0xffffffff81800010 rflags=0x6 gs=0xffffffff82002000 cr3=0x1000000
turn irq 32
-> not allowed
turn debug
-> not allowed
turn fault 0x0 0x0
-> not allowed
turn body rflags=0x202
-> not allowed

state in a handler that lists debug, from a quiet region
image s1.img
config s1.toml
old {entry="0xffffffff81800000", stack=2048, events=["irq","fault"], after_if="off", returns=true}
new {entry="0xffffffff81800000", stack=2048, events=["debug"], after_if="off", returns=true}
old {name="entry", at="0xffffffff81000000", size="0x1000", kind="text", exec=true, user_map=true}
new {name="entry", at="0xffffffff81000000", size="0x1000", kind="text", exec=true, user_map=true, quiet=true}
trace start rip=0x400000 rsp=0x7ff000 rflags=0x202
trace syscall
trace go 12
at inside handler=0 rsp=0xffffffff83005fd0 back=0xffffffff81000036 rflags=0x6 rbx=0x0 rbp=0x0 r12=0x0 r13=0x0 r14=0x0
  r15=0x0 chain=1 rsp=0xffffffff83005fd0 rip=0xffffffff81800000 rflags=0x6 gs=0xffffffff82002000 cr3=0x1000000
turn debug
-> done
turn irq 32
-> not allowed

state after_if on, called without IF
image s1.img
config s1.toml
old {entry="0xffffffff81800000", stack=2048, events=["irq","fault"], after_if="off", returns=true}
new {entry="0xffffffff81800000", stack=2048, events=["irq","fault"], after_if="on", returns=true}
trace start rip=0x400000 rsp=0x7ff000 rflags=0x202
trace syscall
trace go 12
at inside handler=0 rsp=0xffffffff83005fd0 back=0xffffffff81000036 rflags=0x6 rbx=0x0 rbp=0x0 r12=0x0 r13=0x0 r14=0x0
  r15=0x0 chain=1 rsp=0xffffffff83005fd0 rip=0xffffffff81800000 rflags=0x6 gs=0xffffffff82002000 cr3=0x1000000
turn leave rflags=0x2
-> not allowed
turn leave rflags=0x202
-> done

state after_if any, called without IF
image s1.img
config s1.toml
old {entry="0xffffffff81800000", stack=2048, events=["irq","fault"], after_if="off", returns=true}
new {entry="0xffffffff81800000", stack=2048, events=["irq","fault"], after_if="any", returns=true}
trace start rip=0x400000 rsp=0x7ff000 rflags=0x202
trace syscall
trace go 12
at inside handler=0 rsp=0xffffffff83005fd0 back=0xffffffff81000036 rflags=0x6 rbx=0x0 rbp=0x0 r12=0x0 r13=0x0 r14=0x0
  r15=0x0 chain=1 rsp=0xffffffff83005fd0 rip=0xffffffff81800000 rflags=0x6 gs=0xffffffff82002000 cr3=0x1000000
turn leave rflags=0x2
-> done
turn leave rflags=0x202
-> done

state after_if keep, called with IF
image s1.img
config s1.toml
old fmask = "0x47700"
new fmask = "0x47500"
old {entry="0xffffffff81800000", stack=2048, events=["irq","fault"], after_if="off", returns=true}
new {entry="0xffffffff81800000", stack=2048, events=["irq","fault"], after_if="keep", returns=true}
trace start rip=0x400000 rsp=0x7ff000 rflags=0x202
trace syscall
trace go 12
at inside handler=0 rsp=0xffffffff83005fd0 back=0xffffffff81000036 rflags=0x206 rbx=0x0 rbp=0x0 r12=0x0 r13=0x0
  r14=0x0 r15=0x0 chain=1 rsp=0xffffffff83005fd0 rip=0xffffffff81800000 rflags=0x206 gs=0xffffffff82002000
  cr3=0x1000000
turn leave rflags=0x2
-> not allowed
turn leave rflags=0x202
-> done

state a handler that doesn't return
image s1.img
config s1.toml
trace start rip=0x400000 rsp=0x7ff000 rflags=0x202
trace syscall
trace check
trace go 11
at inside handler=6 rsp=0xffffffff84007fd0 back=0xffffffff81001284 rflags=0x6 rbx=0x0 rbp=0x0 r12=0x0 r13=0x0 r14=0x0
  r15=0x0 chain=2 rsp=0xffffffff84007fd0 rip=0xffffffff81800060 rflags=0x6 gs=0xffffffff82002000 cr3=0x1000000
  mcip=0x1
turn leave
-> not allowed
turn body
-> done"#;

#[test]
fn turns_may_come_in_user_code_as_the_cases_say(rt: HostRuntime) -> Result<(), Fail> {
    compare(rt.alloc(), USER, Compared::End)
}

#[test]
fn turns_may_come_in_kernel_code_as_the_cases_say(rt: HostRuntime) -> Result<(), Fail> {
    compare(rt.alloc(), CODE, Compared::End)
}

#[test]
fn turns_may_come_inside_a_handler_as_the_cases_say(rt: HostRuntime) -> Result<(), Fail> {
    compare(rt.alloc(), INSIDE, Compared::End)
}
