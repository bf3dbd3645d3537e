//! Breaks that come together, of which the least counts, and stops before, at and after the access of a break.

use crate::table::{Compared, compare};
use std::test::Fail;

/// `3 with 4`: the turn has the causes of B3 and of B4.
const PAIRS: &str = r#"state 1 with 2: mov rax, gs:[0x0] in text without exec
image s1.img
# at 0xffffffff81000000: mov rax, gs:[0x0]
patch 0x10 65488b042500000000
config s1.toml
old {name="entry", at="0xffffffff81000000", size="0x1000", kind="text", exec=true, user_map=true}
new {name="entry", at="0xffffffff81000000", size="0x1000", kind="text", user_map=true}
trace start rip=0x400000 rsp=0x7ff000 rflags=0x202 gs=0x20000
trace syscall
at code chain=1 rsp=0x7ff000 rip=0xffffffff81000000 rflags=0x2 gs=0x20000 cr3=0x1001000
turn go 1
-> break B1

state 1 with 3: mov rax, [rbx] in text without exec
image s1.img
# at 0xffffffff81000000: mov rax, [rbx]
patch 0x10 488b03
config s1.toml
old {name="entry", at="0xffffffff81000000", size="0x1000", kind="text", exec=true, user_map=true}
new {name="entry", at="0xffffffff81000000", size="0x1000", kind="text", user_map=true}
trace start rip=0x400000 rsp=0x7ff000 rflags=0x202 rbx=0x8000
trace syscall
at code chain=1 rsp=0x7ff000 rip=0xffffffff81000000 rflags=0x2 gs=0x0 cr3=0x1001000
turn go 1
-> break B1

state 1 with 6: mov cr3, rbx in text without exec
image s1.img
# at 0xffffffff81000000: mov cr3, rbx
patch 0x10 0f22db
config s1.toml
old {name="entry", at="0xffffffff81000000", size="0x1000", kind="text", exec=true, user_map=true}
new {name="entry", at="0xffffffff81000000", size="0x1000", kind="text", user_map=true}
trace start rip=0x400000 rsp=0x7ff000 rflags=0x202 rbx=0x5000
trace syscall
at code chain=1 rsp=0x7ff000 rip=0xffffffff81000000 rflags=0x2 gs=0x0 cr3=0x1001000
turn go 1
-> break B1

state 1 with 7: call 0xffffffff81800000 in text without exec
image s1.img
# at 0xffffffff81000000: call 0xffffffff81800000
patch 0x10 e8fbff7f00
config s1.toml
old {name="entry", at="0xffffffff81000000", size="0x1000", kind="text", exec=true, user_map=true}
new {name="entry", at="0xffffffff81000000", size="0x1000", kind="text", user_map=true}
trace start rip=0x400000 rsp=0x7ff000 rflags=0x202
trace syscall
at code chain=1 rsp=0x7ff000 rip=0xffffffff81000000 rflags=0x2 gs=0x0 cr3=0x1001000
turn go 1
-> break B1

state 1 with 8: ud2 in text without exec
image s1.img
# at 0xffffffff81000000: ud2
patch 0x10 0f0b
config s1.toml
old {name="entry", at="0xffffffff81000000", size="0x1000", kind="text", exec=true, user_map=true}
new {name="entry", at="0xffffffff81000000", size="0x1000", kind="text", user_map=true}
trace start rip=0x400000 rsp=0x7ff000 rflags=0x202
trace syscall
at code chain=1 rsp=0x7ff000 rip=0xffffffff81000000 rflags=0x2 gs=0x0 cr3=0x1001000
turn go 1
-> break B1

state 1 with 5: SYSRETQ to another context in text without exec
image s1.img
# at 0xffffffff81000000: add rcx, 0x1; jmp 0xffffffff81001280
patch 0x10 4883c101e977120000
# at 0xffffffff81001280: sysretq
patch 0x1290 480f07
config s1.toml
old {name="quiet", at="0xffffffff81001000", size="0x1000", kind="text", exec=true, user_map=true, quiet=true}
new {name="quiet", at="0xffffffff81001000", size="0x1000", kind="text", user_map=true, quiet=true}
trace start rip=0x400000 rsp=0x7ff000 rflags=0x202
trace syscall
trace go 2
at code chain=1 rsp=0x7ff000 rip=0xffffffff81001280 rflags=0x2 gs=0x0 cr3=0x1001000
turn go 1
-> break B1

state 1 with a read in a guard: no stop
image s1.img
# at 0xffffffff81000000: mov rax, [rbx]
patch 0x10 488b03
config s1.toml
old {name="entry", at="0xffffffff81000000", size="0x1000", kind="text", exec=true, user_map=true}
new {name="entry", at="0xffffffff81000000", size="0x1000", kind="text", user_map=true}
trace start rip=0x400000 rsp=0x7ff000 rflags=0x202 rbx=0xffffffff83001800
trace syscall
at code chain=1 rsp=0x7ff000 rip=0xffffffff81000000 rflags=0x2 gs=0x0 cr3=0x1001000
turn go 1
-> break B1

state 1 with 4: a store on live bytes in text without exec
image s1.img
# at 0xffffffff81000000: swapgs; mov rax, cr3; and rax, -0x1001; mov cr3, rax; mov rsp, -0x7cffc000; sti; nop; nop
patch 0x10 0f01f80f20d84881e0ffefffff0f22d848c7c400400083fb9090
# at 0xffffffff81000100: jmp 0xffffffff81001280
patch 0x110 e97b110000
# at 0xffffffff81001280: push rax
patch 0x1290 50
config s1.toml
old {name="quiet", at="0xffffffff81001000", size="0x1000", kind="text", exec=true, user_map=true, quiet=true}
new {name="quiet", at="0xffffffff81001000", size="0x1000", kind="text", user_map=true, quiet=true}
trace start rip=0x400000 rsp=0x7ff000 rflags=0x202
trace syscall
trace go 7
trace irq 32
trace go 1
at code chain=2 rsp=0xffffffff83003fd8 rip=0xffffffff81001280 rflags=0x6 gs=0xffffffff82002000 cr3=0x1000000
turn go 1
-> break B1

state 2 with 3: the user's base leads to no region
image s1.img
# at 0xffffffff81000000: mov rax, gs:[0x0]
patch 0x10 65488b042500000000
config s1.toml
trace start rip=0x400000 rsp=0x7ff000 rflags=0x202 gs=0x8000
trace syscall
at code chain=1 rsp=0x7ff000 rip=0xffffffff81000000 rflags=0x2 gs=0x8000 cr3=0x1001000
turn go 1
-> break B2
access fetch 0xffffffff81000000 9; read 0x8000 8 gs

state 2 with 3: a fetch that is absent
image s1.img
# at 0xffffffff81000000: mov rax, gs:[0x0]
patch 0x10 65488b042500000000
config s1.toml
old {name="entry", at="0xffffffff81000000", size="0x1000", kind="text", exec=true, user_map=true}
new {name="entry", at="0xffffffff81000000", size="0x1000", kind="text", exec=true}
trace start rip=0x400000 rsp=0x7ff000 rflags=0x202 gs=0x20000
trace syscall
at code chain=1 rsp=0x7ff000 rip=0xffffffff81000000 rflags=0x2 gs=0x20000 cr3=0x1001000
turn go 1
-> break B2
access fetch 0xffffffff81000000 9; read 0x20000 8 gs

state 2 with 4: the user's base, live bytes
image s1.img
# at 0xffffffff81000000: swapgs; mov rax, cr3; and rax, -0x1001; mov cr3, rax; mov rsp, -0x7cffc000; sti; nop; nop
patch 0x10 0f01f80f20d84881e0ffefffff0f22d848c7c400400083fb9090
# at 0xffffffff81000100: swapgs; lea rbx, [rsp-0x4fd8]; mov gs:[rbx], rax
patch 0x110 0f01f8488d9c2428b0ffff65488903
config s1.toml
trace start rip=0x400000 rsp=0x7ff000 rflags=0x202 gs=0x5000
trace syscall
trace go 7
trace irq 32
trace go 2
at code chain=2 rsp=0xffffffff83003fd8 rip=0xffffffff8100010b rflags=0x6 gs=0x5000 cr3=0x1000000
turn go 1
-> break B2
access fetch 0xffffffff8100010b 4; write 0xffffffff83004000 8 gs

state 3 with 4: live bytes that are absent under the user's map
image s1.img
# at 0xffffffff81000000: swapgs; mov rax, cr3; and rax, -0x1001; mov cr3, rax; mov rsp, -0x7cffc000; sti; nop; nop
patch 0x10 0f01f80f20d84881e0ffefffff0f22d848c7c400400083fb9090
# at 0xffffffff81000100: mov rax, cr3; or rax, 0x1000; mov cr3, rax; mov [rsp+0x28], rax
patch 0x110 0f20d84881c8001000000f22d84889442428
config s1.toml
trace start rip=0x400000 rsp=0x7ff000 rflags=0x202
trace syscall
trace go 7
trace irq 32
trace go 3
at code chain=2 rsp=0xffffffff83003fd8 rip=0xffffffff8100010d rflags=0x6 gs=0xffffffff82002000 cr3=0x1001000
turn go 1
-> break B3
access fetch 0xffffffff8100010d 5; write 0xffffffff83004000 8

state 3 with 5: a descriptor in no region
image s1.img
# at 0xffffffff81000000: push 0x2b; push rbx; push r11; push 0xfff8; push rcx; iretq
patch 0x10 6a2b53415368f8ff00005148cf
config s1.toml
trace start rip=0x400000 rsp=0x7ff000 rflags=0x202 rbx=0x7ff000
trace syscall
trace go 5
at code chain=1 rsp=0x7fefd8 rip=0xffffffff8100000b rflags=0x2 gs=0x0 cr3=0x1001000
turn go 1
-> break B3
access fetch 0xffffffff8100000b 2; read 0x7fefd8 8; read 0x7fefe0 8; read 0x7fefe8 8; read 0x7feff0 8; read 0x7feff8
  8; read 0xffffffff82010ff8 8; read 0xffffffff82001028 8

state 3 with 6: a fetch that is absent, a third CR3 value
image s1.img
# at 0xffffffff81000000: mov cr3, rbx
patch 0x10 0f22db
config s1.toml
old {name="entry", at="0xffffffff81000000", size="0x1000", kind="text", exec=true, user_map=true}
new {name="entry", at="0xffffffff81000000", size="0x1000", kind="text", exec=true}
trace start rip=0x400000 rsp=0x7ff000 rflags=0x202 rbx=0x5000
trace syscall
at code chain=1 rsp=0x7ff000 rip=0xffffffff81000000 rflags=0x2 gs=0x0 cr3=0x1001000
turn go 1
-> break B3
access fetch 0xffffffff81000000 3

state 3 with 7: a handler's call whose push is in no region
image s1.img
# at 0xffffffff81000000: mov rsp, rbx; call 0xffffffff81800000
patch 0x10 4889dce8f8ff7f00
config s1.toml
trace start rip=0x400000 rsp=0x7ff000 rflags=0x202 rbx=0x8000
trace syscall
trace go 1
at code chain=1 rsp=0x8000 rip=0xffffffff81000003 rflags=0x2 gs=0x0 cr3=0x1001000
turn go 1
-> break B3
access fetch 0xffffffff81000003 5; write 0x7ff8 8

state 3 with 8: a fetch that is absent, UD2
image s1.img
# at 0xffffffff81000000: ud2
patch 0x10 0f0b
config s1.toml
old {name="entry", at="0xffffffff81000000", size="0x1000", kind="text", exec=true, user_map=true}
new {name="entry", at="0xffffffff81000000", size="0x1000", kind="text", exec=true}
trace start rip=0x400000 rsp=0x7ff000 rflags=0x202
trace syscall
at code chain=1 rsp=0x7ff000 rip=0xffffffff81000000 rflags=0x2 gs=0x0 cr3=0x1001000
turn go 1
-> break B3
access fetch 0xffffffff81000000 2

state 4 with 7: a handler's call on live bytes with the user's GS base
image s1.img
# at 0xffffffff81000000: swapgs; mov rax, cr3; and rax, -0x1001; mov cr3, rax; mov rsp, -0x7cffc000; sti; nop; nop
patch 0x10 0f01f80f20d84881e0ffefffff0f22d848c7c400400083fb9090
# at 0xffffffff81000100: swapgs; lea rsp, [rsp+0x40]; call 0xffffffff81800010
patch 0x110 0f01f8488d642440e803ff7f00
config s1.toml
trace start rip=0x400000 rsp=0x7ff000 rflags=0x202
trace syscall
trace go 7
trace irq 32
trace go 2
at code chain=2 rsp=0xffffffff83004018 rip=0xffffffff81000108 rflags=0x6 gs=0x0 cr3=0x1000000
turn go 1
-> break B4
access fetch 0xffffffff81000108 5; write 0xffffffff83004010 8

state 5 with 8: SYSRETQ of an interrupt to another context
image s1.img
# at 0xffffffff81000100: sysretq
patch 0x110 480f07
config s1.toml
trace start rip=0x400000 rsp=0x7ff000 rcx=0x400000 r11=0x202
trace irq 32
at code chain=1 rsp=0xffffffff84001fd8 rip=0xffffffff81000100 rflags=0x2 gs=0x0 cr3=0x1001000
turn go 1
-> break B5
access fetch 0xffffffff81000100 3

state 3 with 4 of a delivery: an NMI's landing on live bytes that are absent
image s1.img
# at 0xffffffff81000000: swapgs; mov rax, cr3; and rax, -0x1001; mov cr3, rax; mov rsp, -0x7bffa020; mov rax, cr3; or
  rax, 0x1000; mov cr3, rax; nop
patch 0x10 0f01f80f20d84881e0ffefffff0f22d848c7c4e05f00840f20d84881c8001000000f22d890
config s1.toml
trace start rip=0x400000 rsp=0x7ff000 rflags=0x202
trace syscall
trace go 5
at code chain=1 rsp=0xffffffff84005fe0 rip=0xffffffff81000017 rflags=0x6 gs=0xffffffff82002000 cr3=0x1000000
turn nmi
-> break B4
access read 0xffffffff82000020 16; read 0xffffffff82001010 8; read 0xffffffff8200202c 8; write 0xffffffff84005ff8 8;
  write 0xffffffff84005ff0 8; write 0xffffffff84005fe8 8; write 0xffffffff84005fe0 8; write 0xffffffff84005fd8 8

state a stop goes before 7: the push in a guard, the user's GS base
image s1.img
# at 0xffffffff81000000: swapgs; mov rax, cr3; and rax, -0x1001; mov cr3, rax; mov rsp, -0x7cffe000; swapgs; call
  0xffffffff81800000
patch 0x10 0f01f80f20d84881e0ffefffff0f22d848c7c4002000830f01f8e8e1ff7f00
config s1.toml
trace start rip=0x400000 rsp=0x7ff000 rflags=0x202
trace syscall
trace go 6
at code chain=1 rsp=0xffffffff83002000 rip=0xffffffff8100001a rflags=0x6 gs=0x0 cr3=0x1000000
turn go 1
-> stopped
access fetch 0xffffffff8100001a 5; write 0xffffffff83001ff8 8
turn nmi
-> done
out rsp=0xffffffff84005fd8 rip=0xffffffff81001100 nmi_blocked=0x1
chain 2
activation 0xffffffff84006000
write 0xffffffff84005ff8 1800000000000000
write 0xffffffff84005ff0 00200083ffffffff
write 0xffffffff84005fe8 0600000000000000
write 0xffffffff84005fe0 1000000000000000
write 0xffffffff84005fd8 1a000081ffffffff
access read 0xffffffff82000020 16; read 0xffffffff82001010 8; read 0xffffffff8200202c 8; write 0xffffffff84005ff8 8;
  write 0xffffffff84005ff0 8; write 0xffffffff84005fe8 8; write 0xffffffff84005fe0 8; write 0xffffffff84005fd8 8

state a stop goes before 5: a frame in a guard
image s1.img
# at 0xffffffff81000000: swapgs; mov rax, cr3; and rax, -0x1001; mov cr3, rax; mov rsp, -0x7cffe800; iretq
patch 0x10 0f01f80f20d84881e0ffefffff0f22d848c7c40018008348cf
config s1.toml
trace start rip=0x400000 rsp=0x7ff000 rflags=0x202
trace syscall
trace go 5
at code chain=1 rsp=0xffffffff83001800 rip=0xffffffff81000017 rflags=0x6 gs=0xffffffff82002000 cr3=0x1000000
turn go 1
-> stopped
access fetch 0xffffffff81000017 2; read 0xffffffff83001800 8; read 0xffffffff83001808 8; read 0xffffffff83001810 8;
  read 0xffffffff83001818 8; read 0xffffffff83001820 8; read 0xffffffff82001000 8

state a stop at an access goes before 2 of the same access
image s1.img
# at 0xffffffff81000000: mov rax, gs:[rbx]
patch 0x10 65488b03
config s1.toml
trace start rip=0x400000 rsp=0x7ff000 rflags=0x202 gs=0x1000 rbx=0xffffffff83000800
trace syscall
at code chain=1 rsp=0x7ff000 rip=0xffffffff81000000 rflags=0x2 gs=0x1000 cr3=0x1001000
turn go 1
-> stopped
access fetch 0xffffffff81000000 4; read 0xffffffff83001800 8 gs

state a stop at an access goes before 3 of the same access
image s1.img
# at 0xffffffff81000000: mov rax, [rbx]
patch 0x10 488b03
config s1.toml
trace start rip=0x400000 rsp=0x7ff000 rflags=0x202 rbx=0xffffffff83000ffc
trace syscall
at code chain=1 rsp=0x7ff000 rip=0xffffffff81000000 rflags=0x2 gs=0x0 cr3=0x1001000
turn go 1
-> stopped
access fetch 0xffffffff81000000 3; read 0xffffffff83000ffc 8

state 3 of an access before a stop
image s1.img
# at 0xffffffff81000000: swapgs; mov rax, cr3; and rax, -0x1001; mov cr3, rax; mov rsp, -0x7cffe000; push [rbx]
patch 0x10 0f01f80f20d84881e0ffefffff0f22d848c7c400200083ff33
config s1.toml
trace start rip=0x400000 rsp=0x7ff000 rflags=0x202 rbx=0x8000
trace syscall
trace go 5
at code chain=1 rsp=0xffffffff83002000 rip=0xffffffff81000017 rflags=0x6 gs=0xffffffff82002000 cr3=0x1000000
turn go 1
-> break B3
access fetch 0xffffffff81000017 2; read 0x8000 8; write 0xffffffff83001ff8 8

state 2 of an access before a stop
image s1.img
# at 0xffffffff81000000: mov rsp, -0x7cffe000; push gs:[0x0]
patch 0x10 48c7c40020008365ff342500000000
config s1.toml
trace start rip=0x400000 rsp=0x7ff000 rflags=0x202 gs=0x20000
trace syscall
trace go 1
at code chain=1 rsp=0xffffffff83002000 rip=0xffffffff81000007 rflags=0x2 gs=0x20000 cr3=0x1001000
turn go 1
-> break B2
access fetch 0xffffffff81000007 8; read 0x20000 8 gs; write 0xffffffff83001ff8 8

state a stop before a later 3
image s1.img
# at 0xffffffff81000000: swapgs; mov rax, cr3; and rax, -0x1001; mov cr3, rax; mov rsp, -0x7cffe800; pop [rbx]
patch 0x10 0f01f80f20d84881e0ffefffff0f22d848c7c4001800838f03
config s1.toml
trace start rip=0x400000 rsp=0x7ff000 rflags=0x202 rbx=0x8000
trace syscall
trace go 5
at code chain=1 rsp=0xffffffff83001800 rip=0xffffffff81000017 rflags=0x6 gs=0xffffffff82002000 cr3=0x1000000
turn go 1
-> stopped
access fetch 0xffffffff81000017 2; read 0xffffffff83001800 8; write 0x8000 8

state a stop before a later 2
image s1.img
# at 0xffffffff81000000: mov rsp, -0x7cffe800; pop gs:[0x0]
patch 0x10 48c7c400180083658f042500000000
config s1.toml
trace start rip=0x400000 rsp=0x7ff000 rflags=0x202 gs=0x20000
trace syscall
trace go 1
at code chain=1 rsp=0xffffffff83001800 rip=0xffffffff81000007 rflags=0x2 gs=0x20000 cr3=0x1001000
turn go 1
-> stopped
access fetch 0xffffffff81000007 8; read 0xffffffff83001800 8; write 0x20000 8 gs

state a stop by one byte of a push
image s1.img
# at 0xffffffff81000000: swapgs; mov rax, cr3; and rax, -0x1001; mov cr3, rax; mov rsp, -0x7cffdffc; push rax
patch 0x10 0f01f80f20d84881e0ffefffff0f22d848c7c40420008350
config s1.toml
trace start rip=0x400000 rsp=0x7ff000 rflags=0x202
trace syscall
trace go 5
at code chain=1 rsp=0xffffffff83002004 rip=0xffffffff81000017 rflags=0x6 gs=0xffffffff82002000 cr3=0x1000000
turn go 1
-> stopped
access fetch 0xffffffff81000017 1; write 0xffffffff83001ffc 8

state a fetch that is absent goes before a stop
image s1.img
# at 0xffffffff81000000: mov rax, [rbx]
patch 0x10 488b03
config s1.toml
old {name="entry", at="0xffffffff81000000", size="0x1000", kind="text", exec=true, user_map=true}
new {name="entry", at="0xffffffff81000000", size="0x1000", kind="text", exec=true}
trace start rip=0x400000 rsp=0x7ff000 rflags=0x202 rbx=0xffffffff83001800
trace syscall
at code chain=1 rsp=0x7ff000 rip=0xffffffff81000000 rflags=0x2 gs=0x0 cr3=0x1001000
turn go 1
-> break B3
access fetch 0xffffffff81000000 3; read 0xffffffff83001800 8"#;

#[test]
fn the_least_break_counts_as_the_cases_say(rt: HostRuntime) -> Result<(), Fail> {
    compare(rt.alloc(), PAIRS, Compared::All)
}
