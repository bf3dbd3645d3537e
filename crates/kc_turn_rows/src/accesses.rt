//! The breaks B1 to B4, each alone, and turns beside them that break nothing.

use crate::table::{Compared, compare};
use std::test::Fail;

/// A comment begins the states of each break.
const BREAKS: &str = r#"# B1.

state bytes that spell nothing
image s1.img
# at 0xffffffff81000000: bytes 0f 05
patch 0x10 0f05
config s1.toml
trace start rip=0x400000 rsp=0x7ff000 rflags=0x202
trace syscall
at code chain=1 rsp=0x7ff000 rip=0xffffffff81000000 rflags=0x2 gs=0x0 cr3=0x1001000
turn go 1
-> break B1

state RIP past the image's end, in a text region
image s1.img
# at 0xffffffff81000000: jmp 0xffffffff81001284
patch 0x10 e97f120000
config s1.toml
trace start rip=0x400000 rsp=0x7ff000 rflags=0x202
trace syscall
trace go 1
at code chain=1 rsp=0x7ff000 rip=0xffffffff81001284 rflags=0x2 gs=0x0 cr3=0x1001000
turn go 1
-> break B1

state an instruction that the image's end cuts
image s1.img
# at 0xffffffff81000000: jmp 0xffffffff81001283
patch 0x10 e97e120000
# at 0xffffffff81001283: bytes 48
patch 0x1293 48
config s1.toml
trace start rip=0x400000 rsp=0x7ff000 rflags=0x202
trace syscall
trace go 1
at code chain=1 rsp=0x7ff000 rip=0xffffffff81001283 rflags=0x2 gs=0x0 cr3=0x1001000
turn go 1
-> break B1

state the image's last byte is a whole instruction
image s1.img
# at 0xffffffff81000000: jmp 0xffffffff81001283
patch 0x10 e97e120000
# at 0xffffffff81001283: bytes 90
patch 0x1293 90
config s1.toml
trace start rip=0x400000 rsp=0x7ff000 rflags=0x202
trace syscall
trace go 1
at code chain=1 rsp=0x7ff000 rip=0xffffffff81001283 rflags=0x2 gs=0x0 cr3=0x1001000
turn go 1
-> done
out rip=0xffffffff81001284
access fetch 0xffffffff81001283 1

state a text region without exec
image s1.img
# at 0xffffffff81000000: nop
patch 0x10 90
config s1.toml
old {name="entry", at="0xffffffff81000000", size="0x1000", kind="text", exec=true, user_map=true}
new {name="entry", at="0xffffffff81000000", size="0x1000", kind="text", user_map=true}
trace start rip=0x400000 rsp=0x7ff000 rflags=0x202
trace syscall
at code chain=1 rsp=0x7ff000 rip=0xffffffff81000000 rflags=0x2 gs=0x0 cr3=0x1001000
turn go 1
-> break B1

state RIP in an area
image s1.img
# at 0xffffffff81000000: jmp 0xffffffff82000800
patch 0x10 e9fb070001
config s1.toml
trace start rip=0x400000 rsp=0x7ff000 rflags=0x202
trace syscall
trace go 1
at code chain=1 rsp=0x7ff000 rip=0xffffffff82000800 rflags=0x2 gs=0x0 cr3=0x1001000
turn go 1
-> break B1

state RIP in a guard: no stop
image s1.img
# at 0xffffffff81000000: jmp 0xffffffff83001800
patch 0x10 e9fb170002
config s1.toml
trace start rip=0x400000 rsp=0x7ff000 rflags=0x202
trace syscall
trace go 1
at code chain=1 rsp=0x7ff000 rip=0xffffffff83001800 rflags=0x2 gs=0x0 cr3=0x1001000
turn go 1
-> break B1

state an instruction over two text regions
image s1.img
# at 0xffffffff81000000: jmp 0xffffffff81000ffe
patch 0x10 e9f90f0000
# at 0xffffffff81000ffe: bytes 48 89 d8
patch 0x100e 4889d8
config s1.toml
trace start rip=0x400000 rsp=0x7ff000 rflags=0x202
trace syscall
trace go 1
at code chain=1 rsp=0x7ff000 rip=0xffffffff81000ffe rflags=0x2 gs=0x0 cr3=0x1001000
turn go 1
-> done
out rip=0xffffffff81001001
access fetch 0xffffffff81000ffe 3

state the same where the second region hasn't exec
image s1.img
# at 0xffffffff81000000: jmp 0xffffffff81000ffe
patch 0x10 e9f90f0000
# at 0xffffffff81000ffe: bytes 48 89 d8
patch 0x100e 4889d8
config s1.toml
old {name="quiet", at="0xffffffff81001000", size="0x1000", kind="text", exec=true, user_map=true, quiet=true}
new {name="quiet", at="0xffffffff81001000", size="0x1000", kind="text", user_map=true, quiet=true}
trace start rip=0x400000 rsp=0x7ff000 rflags=0x202
trace syscall
trace go 1
at code chain=1 rsp=0x7ff000 rip=0xffffffff81000ffe rflags=0x2 gs=0x0 cr3=0x1001000
turn go 1
-> break B1

# B2.

state mov rax, gs:[0x0] with the user's base
image s1.img
# at 0xffffffff81000000: mov rax, gs:[0x0]
patch 0x10 65488b042500000000
config s1.toml
trace start rip=0x400000 rsp=0x7ff000 rflags=0x202 gs=0x20000
trace syscall
at code chain=1 rsp=0x7ff000 rip=0xffffffff81000000 rflags=0x2 gs=0x20000 cr3=0x1001000
turn go 1
-> break B2
access fetch 0xffffffff81000000 9; read 0x20000 8 gs

state push gs:[0x8] with the user's base
image s1.img
# at 0xffffffff81000000: push gs:[0x8]
patch 0x10 65ff342508000000
config s1.toml
trace start rip=0x400000 rsp=0x7ff000 rflags=0x202 gs=0x20000
trace syscall
at code chain=1 rsp=0x7ff000 rip=0xffffffff81000000 rflags=0x2 gs=0x20000 cr3=0x1001000
turn go 1
-> break B2
access fetch 0xffffffff81000000 8; read 0x20008 8 gs; write 0x7feff8 8

state the kernel's base
image s1.img
# at 0xffffffff81000000: swapgs; mov rax, gs:[0x0]
patch 0x10 0f01f865488b042500000000
config s1.toml
trace start rip=0x400000 rsp=0x7ff000 rflags=0x202 gs=0x20000
trace syscall
trace go 1
at code chain=1 rsp=0x7ff000 rip=0xffffffff81000003 rflags=0x2 gs=0xffffffff82002000 cr3=0x1001000
turn go 1
-> done
out rax=0x8400200000000000 rip=0xffffffff8100000c
access fetch 0xffffffff81000003 9; read 0xffffffff82002000 8 gs

state a base set by WRGSBASE
image s1.img
# at 0xffffffff81000000: wrgsbase rax; mov rax, gs:[0x0]
patch 0x10 f3480faed865488b042500000000
config s1.toml
trace start rip=0x400000 rsp=0x7ff000 rflags=0x202 rax=0x20000
trace syscall
trace go 1
at code chain=1 rsp=0x7ff000 rip=0xffffffff81000005 rflags=0x2 gs=0x20000 cr3=0x1001000
turn go 1
-> break B2
access fetch 0xffffffff81000005 9; read 0x20000 8 gs

state equal numbers: the user's base is the kernel's
image s1.img
# at 0xffffffff81000000: mov rcx, gs:[0x0]
patch 0x10 65488b0c2500000000
config s1.toml
old user_gs_writes = false
new user_gs_writes = true
trace start rip=0x400000 rsp=0x7ff000 rflags=0x202 gs=0xffffffff82002000
trace syscall
at code chain=1 rsp=0x7ff000 rip=0xffffffff81000000 rflags=0x2 gs=0xffffffff82002000 cr3=0x1001000
turn go 1
-> done
out rcx=0x8400200000000000 rip=0xffffffff81000009
access fetch 0xffffffff81000000 9; read 0xffffffff82002000 8 gs

# B3.

state a read in no region
image s1.img
# at 0xffffffff81000000: mov rax, [rbx]
patch 0x10 488b03
config s1.toml
trace start rip=0x400000 rsp=0x7ff000 rflags=0x202 rbx=0x8000
trace syscall
at code chain=1 rsp=0x7ff000 rip=0xffffffff81000000 rflags=0x2 gs=0x0 cr3=0x1001000
turn go 1
-> break B3
access fetch 0xffffffff81000000 3; read 0x8000 8

state a read half in no region
image s1.img
# at 0xffffffff81000000: mov rax, [rbx]
patch 0x10 488b03
config s1.toml
trace start rip=0x400000 rsp=0x7ff000 rflags=0x202 rbx=0xfffc
trace syscall
at code chain=1 rsp=0x7ff000 rip=0xffffffff81000000 rflags=0x2 gs=0x0 cr3=0x1001000
turn go 1
-> break B3
access fetch 0xffffffff81000000 3; read 0xfffc 8

state a read half past a region
image s1.img
# at 0xffffffff81000000: mov rax, [rbx]
patch 0x10 488b03
config s1.toml
trace start rip=0x400000 rsp=0x7ff000 rflags=0x202 rbx=0x7ffffffefffc
trace syscall
at code chain=1 rsp=0x7ff000 rip=0xffffffff81000000 rflags=0x2 gs=0x0 cr3=0x1001000
turn go 1
-> break B3
access fetch 0xffffffff81000000 3; read 0x7ffffffefffc 8

state one byte past a region
image s1.img
# at 0xffffffff81000000: test byte [rbx], 0x1
patch 0x10 f60301
config s1.toml
trace start rip=0x400000 rsp=0x7ff000 rflags=0x202 rbx=0x7fffffff0000
trace syscall
at code chain=1 rsp=0x7ff000 rip=0xffffffff81000000 rflags=0x2 gs=0x0 cr3=0x1001000
turn go 1
-> break B3
access fetch 0xffffffff81000000 3; read 0x7fffffff0000 1

state a write to text
image s1.img
# at 0xffffffff81000000: mov [rbx], rax
patch 0x10 488903
config s1.toml
trace start rip=0x400000 rsp=0x7ff000 rflags=0x202 rbx=0xffffffff81000000
trace syscall
at code chain=1 rsp=0x7ff000 rip=0xffffffff81000000 rflags=0x2 gs=0x0 cr3=0x1001000
turn go 1
-> break B3
access fetch 0xffffffff81000000 3; write 0xffffffff81000000 8

state a read over two regions
image s1.img
# at 0xffffffff81000000: mov rax, [rbx]
patch 0x10 488b03
config s1.toml
trace start rip=0x400000 rsp=0x7ff000 rflags=0x202 rbx=0xffffffff81000ffc
trace syscall
at code chain=1 rsp=0x7ff000 rip=0xffffffff81000000 rflags=0x2 gs=0x0 cr3=0x1001000
turn go 1
-> done
out rip=0xffffffff81000003
access fetch 0xffffffff81000000 3; read 0xffffffff81000ffc 8

state the kernel's stack under the user's map
image s1.img
# at 0xffffffff81000000: mov rax, [rbx]
patch 0x10 488b03
config s1.toml
trace start rip=0x400000 rsp=0x7ff000 rflags=0x202 rbx=0xffffffff83004000
trace syscall
at code chain=1 rsp=0x7ff000 rip=0xffffffff81000000 rflags=0x2 gs=0x0 cr3=0x1001000
turn go 1
-> break B3
access fetch 0xffffffff81000000 3; read 0xffffffff83004000 8

state a read of the last byte of the space and on
image s1.img
# at 0xffffffff81000000: mov rax, [rbx]
patch 0x10 488b03
config s1.toml
trace start rip=0x400000 rsp=0x7ff000 rflags=0x202 rbx=0xffffffffffffffff
trace syscall
at code chain=1 rsp=0x7ff000 rip=0xffffffff81000000 rflags=0x2 gs=0x0 cr3=0x1001000
turn go 1
-> break B3
access fetch 0xffffffff81000000 3; read 0xffffffffffffffff 8

state a write to an area without write
image s1.img
# at 0xffffffff81000000: mov [rbx], rax
patch 0x10 488903
config s1.toml
old {name="area", at="0xffffffff82000000", size="0x3000", kind="area", write=true, user_map=true}
new {name="area", at="0xffffffff82000000", size="0x3000", kind="area", user_map=true}
trace start rip=0x400000 rsp=0x7ff000 rflags=0x202 rbx=0xffffffff82000800
trace syscall
at code chain=1 rsp=0x7ff000 rip=0xffffffff81000000 rflags=0x2 gs=0x0 cr3=0x1001000
turn go 1
-> break B3
access fetch 0xffffffff81000000 3; write 0xffffffff82000800 8

state a read of an area without write
image s1.img
# at 0xffffffff81000000: mov rcx, [rbx]
patch 0x10 488b0b
config s1.toml
old {name="area", at="0xffffffff82000000", size="0x3000", kind="area", write=true, user_map=true}
new {name="area", at="0xffffffff82000000", size="0x3000", kind="area", user_map=true}
trace start rip=0x400000 rsp=0x7ff000 rflags=0x202 rbx=0xffffffff82000800
trace syscall
at code chain=1 rsp=0x7ff000 rip=0xffffffff81000000 rflags=0x2 gs=0x0 cr3=0x1001000
turn go 1
-> done
out rcx=0x0 rip=0xffffffff81000003
access fetch 0xffffffff81000000 3; read 0xffffffff82000800 8

state a fetch under a map that lacks the code
image s1.img
# at 0xffffffff81000000: nop
patch 0x10 90
config s1.toml
old {name="entry", at="0xffffffff81000000", size="0x1000", kind="text", exec=true, user_map=true}
new {name="entry", at="0xffffffff81000000", size="0x1000", kind="text", exec=true}
trace start rip=0x400000 rsp=0x7ff000 rflags=0x202
trace syscall
at code chain=1 rsp=0x7ff000 rip=0xffffffff81000000 rflags=0x2 gs=0x0 cr3=0x1001000
turn go 1
-> break B3
access fetch 0xffffffff81000000 1

state a fetch whose last byte is absent
image s1.img
# at 0xffffffff81000000: jmp 0xffffffff81000ffe
patch 0x10 e9f90f0000
# at 0xffffffff81000ffe: bytes 48 89 d8
patch 0x100e 4889d8
config s1.toml
old {name="quiet", at="0xffffffff81001000", size="0x1000", kind="text", exec=true, user_map=true, quiet=true}
new {name="quiet", at="0xffffffff81001000", size="0x1000", kind="text", exec=true, quiet=true}
trace start rip=0x400000 rsp=0x7ff000 rflags=0x202
trace syscall
trace go 1
at code chain=1 rsp=0x7ff000 rip=0xffffffff81000ffe rflags=0x2 gs=0x0 cr3=0x1001000
turn go 1
-> break B3
access fetch 0xffffffff81000ffe 3

# B4.

state a store 40 bytes from the routine's RSP, the interrupted one 40 above it
image s1.img
# at 0xffffffff81000000: swapgs; mov rax, cr3; and rax, -0x1001; mov cr3, rax; mov rsp, -0x7cffc000; sti; nop; nop
patch 0x10 0f01f80f20d84881e0ffefffff0f22d848c7c400400083fb9090
# at 0xffffffff81000100: mov [rsp+0x28], rax
patch 0x110 4889442428
config s1.toml
trace start rip=0x400000 rsp=0x7ff000 rflags=0x202
trace syscall
trace go 7
trace irq 32
at code chain=2 rsp=0xffffffff83003fd8 rip=0xffffffff81000100 rflags=0x6 gs=0xffffffff82002000 cr3=0x1000000
turn go 1
-> break B4
access fetch 0xffffffff81000100 5; write 0xffffffff83004000 8

state a store 33 bytes from the routine's RSP, the interrupted one 40 above it
image s1.img
# at 0xffffffff81000000: swapgs; mov rax, cr3; and rax, -0x1001; mov cr3, rax; mov rsp, -0x7cffc000; sti; nop; nop
patch 0x10 0f01f80f20d84881e0ffefffff0f22d848c7c400400083fb9090
# at 0xffffffff81000100: mov [rsp+0x21], rax
patch 0x110 4889442421
config s1.toml
trace start rip=0x400000 rsp=0x7ff000 rflags=0x202
trace syscall
trace go 7
trace irq 32
at code chain=2 rsp=0xffffffff83003fd8 rip=0xffffffff81000100 rflags=0x6 gs=0xffffffff82002000 cr3=0x1000000
turn go 1
-> break B4
access fetch 0xffffffff81000100 5; write 0xffffffff83003ff9 8

state a store 32 bytes from the routine's RSP, the interrupted one 40 above it
image s1.img
# at 0xffffffff81000000: swapgs; mov rax, cr3; and rax, -0x1001; mov cr3, rax; mov rsp, -0x7cffc000; sti; nop; nop
patch 0x10 0f01f80f20d84881e0ffefffff0f22d848c7c400400083fb9090
# at 0xffffffff81000100: mov [rsp+0x20], rax
patch 0x110 4889442420
config s1.toml
trace start rip=0x400000 rsp=0x7ff000 rflags=0x202
trace syscall
trace go 7
trace irq 32
at code chain=2 rsp=0xffffffff83003fd8 rip=0xffffffff81000100 rflags=0x6 gs=0xffffffff82002000 cr3=0x1000000
turn go 1
-> done
out rip=0xffffffff81000105
write 0xffffffff83003ff8 0000000100000000
access fetch 0xffffffff81000100 5; write 0xffffffff83003ff8 8

state a store 8224 bytes from the routine's RSP, the interrupted one 40 above it
image s1.img
# at 0xffffffff81000000: swapgs; mov rax, cr3; and rax, -0x1001; mov cr3, rax; mov rsp, -0x7cffc000; sti; nop; nop
patch 0x10 0f01f80f20d84881e0ffefffff0f22d848c7c400400083fb9090
# at 0xffffffff81000100: mov [rsp+0x2020], rax
patch 0x110 4889842420200000
config s1.toml
trace start rip=0x400000 rsp=0x7ff000 rflags=0x202
trace syscall
trace go 7
trace irq 32
at code chain=2 rsp=0xffffffff83003fd8 rip=0xffffffff81000100 rflags=0x6 gs=0xffffffff82002000 cr3=0x1000000
turn go 1
-> break B4
access fetch 0xffffffff81000100 8; write 0xffffffff83005ff8 8

state a push on live bytes
image s1.img
# at 0xffffffff81000000: swapgs; mov rax, cr3; and rax, -0x1001; mov cr3, rax; mov rsp, -0x7cffc000; sti; nop; nop
patch 0x10 0f01f80f20d84881e0ffefffff0f22d848c7c400400083fb9090
# at 0xffffffff81000100: lea rsp, [rsp+0x40]; push rax
patch 0x110 488d64244050
config s1.toml
trace start rip=0x400000 rsp=0x7ff000 rflags=0x202
trace syscall
trace go 7
trace irq 32
trace go 1
at code chain=2 rsp=0xffffffff83004018 rip=0xffffffff81000105 rflags=0x6 gs=0xffffffff82002000 cr3=0x1000000
turn go 1
-> break B4
access fetch 0xffffffff81000105 1; write 0xffffffff83004010 8

state a handler's call on live bytes
image s1.img
# at 0xffffffff81000000: swapgs; mov rax, cr3; and rax, -0x1001; mov cr3, rax; mov rsp, -0x7cffc000; sti; nop; nop
patch 0x10 0f01f80f20d84881e0ffefffff0f22d848c7c400400083fb9090
# at 0xffffffff81000100: lea rsp, [rsp+0x40]; call 0xffffffff81800010
patch 0x110 488d642440e806ff7f00
config s1.toml
trace start rip=0x400000 rsp=0x7ff000 rflags=0x202
trace syscall
trace go 7
trace irq 32
trace go 1
at code chain=2 rsp=0xffffffff83004018 rip=0xffffffff81000105 rflags=0x6 gs=0xffffffff82002000 cr3=0x1000000
turn go 1
-> break B4
access fetch 0xffffffff81000105 5; write 0xffffffff83004010 8

state a read of live bytes
image s1.img
# at 0xffffffff81000000: swapgs; mov rax, cr3; and rax, -0x1001; mov cr3, rax; mov rsp, -0x7cffc000; sti; nop; nop
patch 0x10 0f01f80f20d84881e0ffefffff0f22d848c7c400400083fb9090
# at 0xffffffff81000100: mov rax, [rsp+0x28]
patch 0x110 488b442428
config s1.toml
trace start rip=0x400000 rsp=0x7ff000 rflags=0x202
trace syscall
trace go 7
trace irq 32
at code chain=2 rsp=0xffffffff83003fd8 rip=0xffffffff81000100 rflags=0x6 gs=0xffffffff82002000 cr3=0x1000000
turn go 1
-> done
out rax=0x0 rip=0xffffffff81000105
access fetch 0xffffffff81000100 5; read 0xffffffff83004000 8

state RSP not aligned: a byte of the store is live
image s1.img
# at 0xffffffff81000000: swapgs; mov rax, cr3; and rax, -0x1001; mov cr3, rax; mov rsp, -0x7cffbff9; sti; nop; nop
patch 0x10 0f01f80f20d84881e0ffefffff0f22d848c7c407400083fb9090
# at 0xffffffff81000100: mov [rsp+0x28], rax
patch 0x110 4889442428
config s1.toml
trace start rip=0x400000 rsp=0x7ff000 rflags=0x202
trace syscall
trace go 7
trace irq 32
at code chain=2 rsp=0xffffffff83003fd8 rip=0xffffffff81000100 rflags=0x6 gs=0xffffffff82002000 cr3=0x1000000
turn go 1
-> break B4
access fetch 0xffffffff81000100 5; write 0xffffffff83004000 8

state an NMI's landing on live bytes
image s1.img
# at 0xffffffff81000000: swapgs; mov rax, cr3; and rax, -0x1001; mov cr3, rax; mov rsp, -0x7cffc000; sti; nop; nop
patch 0x10 0f01f80f20d84881e0ffefffff0f22d848c7c400400083fb9090
# at 0xffffffff81000100: mov rsp, -0x7bffa100; nop
patch 0x110 48c7c4005f008490
config s1.toml
trace start rip=0x400000 rsp=0x7ff000 rflags=0x202
trace syscall
trace go 7
trace irq 32
trace go 1
at code chain=2 rsp=0xffffffff84005f00 rip=0xffffffff81000107 rflags=0x6 gs=0xffffffff82002000 cr3=0x1000000
turn nmi
-> break B4
access read 0xffffffff82000020 16; read 0xffffffff82001010 8; read 0xffffffff8200202c 8; write 0xffffffff84005ff8 8;
  write 0xffffffff84005ff0 8; write 0xffffffff84005fe8 8; write 0xffffffff84005fe0 8; write 0xffffffff84005fd8 8"#;

#[test]
fn breaks_of_code_and_accesses_come_as_their_cases_say(rt: HostRuntime) -> Result<(), Fail> {
    compare(rt.alloc(), BREAKS, Compared::All)
}
