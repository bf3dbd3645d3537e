//! The breaks B5 to B8, each alone, and turns beside them that break nothing.

use crate::table::{Compared, compare};
use std::test::Fail;

/// A comment begins the states of each break.
const BREAKS: &str = r#"# B5.

state SYSRETQ at once
image s1.img
# at 0xffffffff81000000: sysretq
patch 0x10 480f07
config s1.toml
trace start rip=0x400000 rsp=0x7ff000 rflags=0x202
trace syscall
at code chain=1 rsp=0x7ff000 rip=0xffffffff81000000 rflags=0x2 gs=0x0 cr3=0x1001000
turn go 1
-> done
out rip=0x400000 rflags=0x202 cs=0x33 ss=0x2b
mode user
chain 0
access fetch 0xffffffff81000000 3

state SYSRETQ: RIP
image s1.img
# at 0xffffffff81000000: add rcx, 0x1; sysretq
patch 0x10 4883c101480f07
config s1.toml
trace start rip=0x400000 rsp=0x7ff000 rflags=0x202
trace syscall
trace go 1
at code chain=1 rsp=0x7ff000 rip=0xffffffff81000004 rflags=0x2 gs=0x0 cr3=0x1001000
turn go 1
-> break B5
access fetch 0xffffffff81000004 3

state SYSRETQ: RFLAGS, CF
image s1.img
# at 0xffffffff81000000: or r11, 0x1; sysretq
patch 0x10 4983cb01480f07
config s1.toml
trace start rip=0x400000 rsp=0x7ff000 rflags=0x202
trace syscall
trace go 1
at code chain=1 rsp=0x7ff000 rip=0xffffffff81000004 rflags=0x6 gs=0x0 cr3=0x1001000
turn go 1
-> break B5
access fetch 0xffffffff81000004 3

state SYSRETQ: RSP
image s1.img
# at 0xffffffff81000000: lea rsp, [rsp+0x8]; sysretq
patch 0x10 488d642408480f07
config s1.toml
trace start rip=0x400000 rsp=0x7ff000 rflags=0x202
trace syscall
trace go 1
at code chain=1 rsp=0x7ff008 rip=0xffffffff81000005 rflags=0x2 gs=0x0 cr3=0x1001000
turn go 1
-> break B5
access fetch 0xffffffff81000005 3

state SYSRETQ: GS bases exchanged
image s1.img
# at 0xffffffff81000000: swapgs; sysretq
patch 0x10 0f01f8480f07
config s1.toml
trace start rip=0x400000 rsp=0x7ff000 rflags=0x202
trace syscall
trace go 1
at code chain=1 rsp=0x7ff000 rip=0xffffffff81000003 rflags=0x2 gs=0xffffffff82002000 cr3=0x1001000
turn go 1
-> break B5
access fetch 0xffffffff81000003 3

state SYSRETQ: the inactive GS base
image s1.img
# at 0xffffffff81000000: mov rdi, rcx; mov ecx, 0xc0000102; mov eax, 0x0; mov edx, 0x0; wrmsr; mov rcx, rdi; sysretq
patch 0x10 4889cfb9020100c0b800000000ba000000000f304889f9480f07
config s1.toml
trace start rip=0x400000 rsp=0x7ff000 rflags=0x202
trace syscall
trace go 6
at code chain=1 rsp=0x7ff000 rip=0xffffffff81000017 rflags=0x2 gs=0x0 cr3=0x1001000
turn go 1
-> break B5
access fetch 0xffffffff81000017 3

state SYSRETQ: CR3
image s1.img
# at 0xffffffff81000000: mov rax, cr3; and rax, -0x1001; mov cr3, rax; sysretq
patch 0x10 0f20d84881e0ffefffff0f22d8480f07
config s1.toml
trace start rip=0x400000 rsp=0x7ff000 rflags=0x202
trace syscall
trace go 3
at code chain=1 rsp=0x7ff000 rip=0xffffffff8100000d rflags=0x6 gs=0x0 cr3=0x1000000
turn go 1
-> break B5
access fetch 0xffffffff8100000d 3

state SYSRETQ: other registers are free
image s1.img
# at 0xffffffff81000000: mov rax, 0x7777777777777777; mov rbx, rax; mov r15, rax; sysretq
patch 0x10 48b877777777777777774889c34989c7480f07
config s1.toml
trace start rip=0x400000 rsp=0x7ff000 rflags=0x202
trace syscall
trace go 3
at code chain=1 rsp=0x7ff000 rip=0xffffffff81000010 rflags=0x2 gs=0x0 cr3=0x1001000
turn go 1
-> done
out rip=0x400000 rflags=0x202 cs=0x33 ss=0x2b
mode user
chain 0
access fetch 0xffffffff81000010 3

state IRETQ of a syscall: CS
image s1.img
# at 0xffffffff81000000: push 0x2b; push rbx; push r11; push 0x23; push rcx; iretq
patch 0x10 6a2b5341536a235148cf
config s1.toml
trace start rip=0x400000 rsp=0x7ff000 rflags=0x202 rbx=0x7ff000
trace syscall
trace go 5
at code chain=1 rsp=0x7fefd8 rip=0xffffffff81000008 rflags=0x2 gs=0x0 cr3=0x1001000
turn go 1
-> break B5
access fetch 0xffffffff81000008 2; read 0x7fefd8 8; read 0x7fefe0 8; read 0x7fefe8 8; read 0x7feff0 8; read 0x7feff8
  8; read 0xffffffff82001020 8; read 0xffffffff82001028 8

state IRETQ of a syscall: SS
image s1.img
# at 0xffffffff81000000: push 0x2a; push rbx; push r11; push 0x33; push rcx; iretq
patch 0x10 6a2a5341536a335148cf
config s1.toml
trace start rip=0x400000 rsp=0x7ff000 rflags=0x202 rbx=0x7ff000
trace syscall
trace go 5
at code chain=1 rsp=0x7fefd8 rip=0xffffffff81000008 rflags=0x2 gs=0x0 cr3=0x1001000
turn go 1
-> break B5
access fetch 0xffffffff81000008 2; read 0x7fefd8 8; read 0x7fefe0 8; read 0x7fefe8 8; read 0x7feff0 8; read 0x7feff8
  8; read 0xffffffff82001030 8; read 0xffffffff82001028 8

state IRETQ into the kernel
image s1.img
# at 0xffffffff81000000: swapgs; mov rax, cr3; and rax, -0x1001; mov cr3, rax; mov rsp, -0x7cffc000; sti; nop; nop
patch 0x10 0f01f80f20d84881e0ffefffff0f22d848c7c400400083fb9090
# at 0xffffffff81000100: iretq
patch 0x110 48cf
config s1.toml
trace start rip=0x400000 rsp=0x7ff000 rflags=0x202
trace syscall
trace go 7
trace irq 32
at code chain=2 rsp=0xffffffff83003fd8 rip=0xffffffff81000100 rflags=0x6 gs=0xffffffff82002000 cr3=0x1000000
turn go 1
-> done
out rsp=0xffffffff83004000 rip=0xffffffff81000019 rflags=0x206
chain 1
access fetch 0xffffffff81000100 2; read 0xffffffff83003fd8 8; read 0xffffffff83003fe0 8; read 0xffffffff83003fe8 8;
  read 0xffffffff83003ff0 8; read 0xffffffff83003ff8 8; read 0xffffffff82001010 8; read 0xffffffff82001018 8

state IRETQ into the kernel: rax
image s1.img
# at 0xffffffff81000000: swapgs; mov rax, cr3; and rax, -0x1001; mov cr3, rax; mov rsp, -0x7cffc000; sti; nop; nop
patch 0x10 0f01f80f20d84881e0ffefffff0f22d848c7c400400083fb9090
# at 0xffffffff81000100: mov rax, 0x55; iretq
patch 0x110 48c7c05500000048cf
config s1.toml
trace start rip=0x400000 rsp=0x7ff000 rflags=0x202
trace syscall
trace go 7
trace irq 32
trace go 1
at code chain=2 rsp=0xffffffff83003fd8 rip=0xffffffff81000107 rflags=0x6 gs=0xffffffff82002000 cr3=0x1000000
turn go 1
-> break B5
access fetch 0xffffffff81000107 2; read 0xffffffff83003fd8 8; read 0xffffffff83003fe0 8; read 0xffffffff83003fe8 8;
  read 0xffffffff83003ff0 8; read 0xffffffff83003ff8 8; read 0xffffffff82001010 8; read 0xffffffff82001018 8

state IRETQ into the kernel: RSP
image s1.img
# at 0xffffffff81000000: swapgs; mov rax, cr3; and rax, -0x1001; mov cr3, rax; mov rsp, -0x7cffc000; sti; nop; nop
patch 0x10 0f01f80f20d84881e0ffefffff0f22d848c7c400400083fb9090
# at 0xffffffff81000100: add qword [rsp+0x18], 0x8; iretq
patch 0x110 48834424180848cf
config s1.toml
trace start rip=0x400000 rsp=0x7ff000 rflags=0x202
trace syscall
trace go 7
trace irq 32
trace go 1
at code chain=2 rsp=0xffffffff83003fd8 rip=0xffffffff81000106 rflags=0x82 gs=0xffffffff82002000 cr3=0x1000000
turn go 1
-> break B5
access fetch 0xffffffff81000106 2; read 0xffffffff83003fd8 8; read 0xffffffff83003fe0 8; read 0xffffffff83003fe8 8;
  read 0xffffffff83003ff0 8; read 0xffffffff83003ff8 8; read 0xffffffff82001010 8; read 0xffffffff82001018 8

state IRETQ into the kernel: RFLAGS
image s1.img
# at 0xffffffff81000000: swapgs; mov rax, cr3; and rax, -0x1001; mov cr3, rax; mov rsp, -0x7cffc000; sti; nop; nop
patch 0x10 0f01f80f20d84881e0ffefffff0f22d848c7c400400083fb9090
# at 0xffffffff81000100: xor qword [rsp+0x10], 0x1; iretq
patch 0x110 48837424100148cf
config s1.toml
trace start rip=0x400000 rsp=0x7ff000 rflags=0x202
trace syscall
trace go 7
trace irq 32
trace go 1
at code chain=2 rsp=0xffffffff83003fd8 rip=0xffffffff81000106 rflags=0x2 gs=0xffffffff82002000 cr3=0x1000000
turn go 1
-> break B5
access fetch 0xffffffff81000106 2; read 0xffffffff83003fd8 8; read 0xffffffff83003fe0 8; read 0xffffffff83003fe8 8;
  read 0xffffffff83003ff0 8; read 0xffffffff83003ff8 8; read 0xffffffff82001010 8; read 0xffffffff82001018 8

state IRETQ into a handler: a register of the body
image s1.img
# at 0xffffffff81001100: mov rbx, 0x0; iretq
patch 0x1110 48c7c30000000048cf
config s1.toml
trace start rip=0x400000 rsp=0x7ff000 rflags=0x202
trace irq 32
trace go 22
trace body rax=0x77 rbx=0x78 rip=0x99
trace nmi
trace go 1
at code chain=2 rsp=0xffffffff84005fd8 rip=0xffffffff81001107 rflags=0x6 gs=0xffffffff82002000 cr3=0x1000000
  nmi_blocked=0x1
turn go 1
-> break B5
access fetch 0xffffffff81001107 2; read 0xffffffff84005fd8 8; read 0xffffffff84005fe0 8; read 0xffffffff84005fe8 8;
  read 0xffffffff84005ff0 8; read 0xffffffff84005ff8 8; read 0xffffffff82001010 8

# B6.

state CR3 loaded with 0x1002000
image s1.img
# at 0xffffffff81000000: mov cr3, rbx
patch 0x10 0f22db
config s1.toml
trace start rip=0x400000 rsp=0x7ff000 rflags=0x202 rbx=0x1002000
trace syscall
at code chain=1 rsp=0x7ff000 rip=0xffffffff81000000 rflags=0x2 gs=0x0 cr3=0x1001000
turn go 1
-> break B6
access fetch 0xffffffff81000000 3

state CR3 loaded with 0x8000000001001000
image s1.img
# at 0xffffffff81000000: mov cr3, rbx
patch 0x10 0f22db
config s1.toml
trace start rip=0x400000 rsp=0x7ff000 rflags=0x202 rbx=0x8000000001001000
trace syscall
at code chain=1 rsp=0x7ff000 rip=0xffffffff81000000 rflags=0x2 gs=0x0 cr3=0x1001000
turn go 1
-> done
out rip=0xffffffff81000003
access fetch 0xffffffff81000000 3

state CR3 loaded with 0x4000000001000000
image s1.img
# at 0xffffffff81000000: mov cr3, rbx
patch 0x10 0f22db
config s1.toml
trace start rip=0x400000 rsp=0x7ff000 rflags=0x202 rbx=0x4000000001000000
trace syscall
at code chain=1 rsp=0x7ff000 rip=0xffffffff81000000 rflags=0x2 gs=0x0 cr3=0x1001000
turn go 1
-> break B6
access fetch 0xffffffff81000000 3

# B7.

state a handler's call
image s1.img
# at 0xffffffff81000000: swapgs; mov rax, cr3; and rax, -0x1001; mov cr3, rax; mov rsp, -0x7cffc000; call
  0xffffffff81800000
patch 0x10 0f01f80f20d84881e0ffefffff0f22d848c7c400400083e8e4ff7f00
config s1.toml
trace start rip=0x400000 rsp=0x7ff000 rflags=0x202
trace syscall
trace go 5
at code chain=1 rsp=0xffffffff83004000 rip=0xffffffff81000017 rflags=0x6 gs=0xffffffff82002000 cr3=0x1000000
turn go 1
-> done
out rsp=0xffffffff83003ff8 rip=0xffffffff81800000
mode inside handler=0 rsp=0xffffffff83003ff8 back=0xffffffff8100001c rflags=0x6 rbx=0x0 rbp=0x0 r12=0x0 r13=0x0
  r14=0x0 r15=0x0
write 0xffffffff83003ff8 1c000081ffffffff
access fetch 0xffffffff81000017 5; write 0xffffffff83003ff8 8

state a handler's call with the user's GS base
image s1.img
# at 0xffffffff81000000: swapgs; mov rax, cr3; and rax, -0x1001; mov cr3, rax; mov rsp, -0x7cffc000; swapgs; call
  0xffffffff81800000
patch 0x10 0f01f80f20d84881e0ffefffff0f22d848c7c4004000830f01f8e8e1ff7f00
config s1.toml
trace start rip=0x400000 rsp=0x7ff000 rflags=0x202
trace syscall
trace go 6
at code chain=1 rsp=0xffffffff83004000 rip=0xffffffff8100001a rflags=0x6 gs=0x0 cr3=0x1000000
turn go 1
-> break B7
access fetch 0xffffffff8100001a 5; write 0xffffffff83003ff8 8

state a handler's call with the user's CR3
image s1.img
# at 0xffffffff81000000: swapgs; mov rsp, -0x7bffe000; call 0xffffffff81800000
patch 0x10 0f01f848c7c400200084e8f1ff7f00
config s1.toml
trace start rip=0x400000 rsp=0x7ff000 rflags=0x202
trace syscall
trace go 2
at code chain=1 rsp=0xffffffff84002000 rip=0xffffffff8100000a rflags=0x2 gs=0xffffffff82002000 cr3=0x1001000
turn go 1
-> break B7
access fetch 0xffffffff8100000a 5; write 0xffffffff84001ff8 8

state a handler's call off every stack
image s1.img
# at 0xffffffff81000000: swapgs; mov rax, cr3; and rax, -0x1001; mov cr3, rax; mov rsp, -0x7dfff000; call
  0xffffffff81800000
patch 0x10 0f01f80f20d84881e0ffefffff0f22d848c7c400100082e8e4ff7f00
config s1.toml
trace start rip=0x400000 rsp=0x7ff000 rflags=0x202
trace syscall
trace go 5
at code chain=1 rsp=0xffffffff82001000 rip=0xffffffff81000017 rflags=0x6 gs=0xffffffff82002000 cr3=0x1000000
turn go 1
-> break B7
access fetch 0xffffffff81000017 5; write 0xffffffff82000ff8 8

# B8.

state ud2
image s1.img
# at 0xffffffff81000000: ud2
patch 0x10 0f0b
config s1.toml
trace start rip=0x400000 rsp=0x7ff000 rflags=0x202
trace syscall
at code chain=1 rsp=0x7ff000 rip=0xffffffff81000000 rflags=0x2 gs=0x0 cr3=0x1001000
turn go 1
-> break B8
access fetch 0xffffffff81000000 2

state mov ecx, 0x10; rdmsr
image s1.img
# at 0xffffffff81000000: mov ecx, 0x10; rdmsr
patch 0x10 b9100000000f32
config s1.toml
trace start rip=0x400000 rsp=0x7ff000 rflags=0x202
trace syscall
trace go 1
at code chain=1 rsp=0x7ff000 rip=0xffffffff81000005 rflags=0x2 gs=0x0 cr3=0x1001000
turn go 1
-> break B8
access fetch 0xffffffff81000005 2

state mov ecx, 0x17a; mov eax, 0x4; mov edx, 0x0; wrmsr
image s1.img
# at 0xffffffff81000000: mov ecx, 0x17a; mov eax, 0x4; mov edx, 0x0; wrmsr
patch 0x10 b97a010000b804000000ba000000000f30
config s1.toml
trace start rip=0x400000 rsp=0x7ff000 rflags=0x202
trace syscall
trace go 3
at code chain=1 rsp=0x7ff000 rip=0xffffffff8100000f rflags=0x2 gs=0x0 cr3=0x1001000
turn go 1
-> break B8
access fetch 0xffffffff8100000f 2

state mov ecx, 0xc0000101; mov eax, 0x0; mov edx, 0x8000; wrmsr
image s1.img
# at 0xffffffff81000000: mov ecx, 0xc0000101; mov eax, 0x0; mov edx, 0x8000; wrmsr
patch 0x10 b9010100c0b800000000ba008000000f30
config s1.toml
trace start rip=0x400000 rsp=0x7ff000 rflags=0x202
trace syscall
trace go 3
at code chain=1 rsp=0x7ff000 rip=0xffffffff8100000f rflags=0x2 gs=0x0 cr3=0x1001000
turn go 1
-> break B8
access fetch 0xffffffff8100000f 2

state mov rax, 0x800000000000; wrgsbase rax
image s1.img
# at 0xffffffff81000000: mov rax, 0x800000000000; wrgsbase rax
patch 0x10 48b80000000000800000f3480faed8
config s1.toml
trace start rip=0x400000 rsp=0x7ff000 rflags=0x202
trace syscall
trace go 1
at code chain=1 rsp=0x7ff000 rip=0xffffffff8100000a rflags=0x2 gs=0x0 cr3=0x1001000
turn go 1
-> break B8
access fetch 0xffffffff8100000a 5

state SYSRETQ of an interrupt that gives the context back
image s1.img
# at 0xffffffff81000100: mov rsp, [rsp+0x18]; sysretq
patch 0x110 488b642418480f07
config s1.toml
trace start rip=0x400000 rsp=0x7ff000 rcx=0x400000 r11=0x202
trace irq 32
trace go 1
at code chain=1 rsp=0x7ff000 rip=0xffffffff81000105 rflags=0x2 gs=0x0 cr3=0x1001000
turn go 1
-> break B8
access fetch 0xffffffff81000105 3"#;

#[test]
fn breaks_of_returns_and_instructions_come_as_their_cases_say(rt: HostRuntime) -> Result<(), Fail> {
    compare(rt.alloc(), BREAKS, Compared::All)
}
