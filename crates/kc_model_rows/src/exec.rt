//! What instructions do, by a choice of outside cases: with those marked `measured` an emulator of the
//! processor agrees; those marked `model` go by the manual, as an independent model computes them.
//!
//! A case ends at an empty line. Its parts are apart by ` | `: the bytes at RIP, what differs from the
//! base state before (kc_cases), bytes of memory, how it ends, what differs then, what is written, and
//! the accesses in their order.

use kc_cases::ExecCase;
use kc_config::read_config;
use kc_gen::{Sample, sample};
use kc_image::read_image;
use kc_regions::Config;
use std::alloc::Global;
use std::test::Fail;

const TABLE: &str = "\
# Mov rm, reg; Mov reg, rm (89, 8B)
case mov rax, rbx | measured | code 4889d8 | in rflags=0x8d7 | -> next
out rax=0x3333333333333333 rip=0xffffffff81000403 | access fetch 0xffffffff81000400 3

case mov eax, ebx (the upper half is cleared) | measured | code 89d8
in rax=0xffffffffffffffff rbx=0xffffffff80000001 | -> next | out rax=0x80000001 rip=0xffffffff81000402
access fetch 0xffffffff81000400 2

case mov edi, edi (to itself clears the upper half) | measured | code 89ff | in rdi=0xffffffff00000007 | -> next
out rdi=0x7 rip=0xffffffff81000402 | access fetch 0xffffffff81000400 2

case mov rax, [rbx+rcx*8-0x10] (the sum wraps) | measured | code 488b44cbf0 | in rcx=0xfffffffffffffffe rbx=0x60
mem 0x40 0500000000000000 | -> next | out rax=0x5 rip=0xffffffff81000405
access fetch 0xffffffff81000400 5; read 0x40 8

case mov rax, gs:[rbx] (the GS base is added last and wraps) | measured | code 65488b03 | in rbx=0x7dffe010
mem 0x10 0300000000000000 | -> next | out rax=0x3 rip=0xffffffff81000404
access fetch 0xffffffff81000400 4; read 0x10 8 gs

case mov rax, [rbx] (a load whose bytes wrap at 2^64) | model | code 488b03 | in rbx=0xfffffffffffffffc
mem 0xfffffffffffffffc 11223344 | mem 0x0 55667788 | -> next | out rax=0x8877665544332211 rip=0xffffffff81000403
access fetch 0xffffffff81000400 3; read 0xfffffffffffffffc 8

case mov [rbx], rcx (a store whose bytes wrap at 2^64) | model | code 48890b | in rbx=0xfffffffffffffffc | -> next
out rip=0xffffffff81000403 | write 0xfffffffffffffffc 1111111111111111
access fetch 0xffffffff81000400 3; write 0xfffffffffffffffc 8

case mov [rbx], ecx (a Long store whose bytes wrap) | model | code 890b | in rbx=0xffffffffffffffff | -> next
out rip=0xffffffff81000402 | write 0xffffffffffffffff 11111111
access fetch 0xffffffff81000400 2; write 0xffffffffffffffff 4

case mov [rbx], rcx (a store over a page's border, 1 bytes before it) | measured | code 48890b
in rbx=0xffffffff82000fff | mem 0xffffffff82000ff8 ffffffffffffffff | mem 0xffffffff82001000 ffffffffffffffff
-> next | out rip=0xffffffff81000403 | write 0xffffffff82000fff 1111111111111111
access fetch 0xffffffff81000400 3; write 0xffffffff82000fff 8

# Mov rm, imm (C7); Mov reg, imm (B8)
case mov qword [rbx], -0x2 (sign-extended) | measured | code 48c703feffffff | in rbx=0xffffffff82000800 rflags=0x8d7
mem 0xffffffff82000800 3412000000000000 | -> next | out rip=0xffffffff81000407
write 0xffffffff82000800 feffffffffffffff | access fetch 0xffffffff81000400 7; write 0xffffffff82000800 8

case mov dword [rbx], 0xfffffffe (Long) | measured | code c703feffffff | in rbx=0xffffffff82000800
mem 0xffffffff82000800 ffffffffffffffff | -> next | out rip=0xffffffff81000406 | write 0xffffffff82000800 feffffff
access fetch 0xffffffff81000400 6; write 0xffffffff82000800 4

# Lea
case lea rax, [rbx+rcx*4-0x8] | measured | code 488d448bf8 | in rcx=0x6 rbx=0x4 rflags=0x8d7 | -> next
out rax=0x14 rip=0xffffffff81000405 | access fetch 0xffffffff81000400 5

case lea eax, [rbx-0x8] (Long) | measured | code 8d43f8 | in rax=0xffffffffffffffff rbx=0x4 | -> next
out rax=0xfffffffc rip=0xffffffff81000403 | access fetch 0xffffffff81000400 3

case lea r8, [r9+r10*2+0x7fffffff] (the sum wraps) | measured | code 4f8d8451ffffff7f
in r9=0xffffffffffffffff r10=0xffffffffffffffff | -> next | out r8=0x7ffffffc rip=0xffffffff81000408
access fetch 0xffffffff81000400 8

# Xchg (87)
case xchg rax, rbx | measured | code 4887d8 | in rflags=0x8d7 | -> next
out rax=0x3333333333333333 rbx=0x0 rip=0xffffffff81000403 | access fetch 0xffffffff81000400 3

case xchg eax, ebx (Long clears both upper halves) | measured | code 87d8
in rax=0xaaaaaaaa00000001 rbx=0xbbbbbbbb00000002 | -> next | out rax=0x2 rbx=0x1 rip=0xffffffff81000402
access fetch 0xffffffff81000400 2

case xchg eax, eax (one register at Long clears its upper half) | measured | code 87c0 | in rax=0xffffffff80000005
-> next | out rax=0x80000005 rip=0xffffffff81000402 | access fetch 0xffffffff81000400 2

case xchg rax, rax (one register at Quad) | measured | code 4887c0 | in rax=0xffffffff80000005 | -> next
out rip=0xffffffff81000403 | access fetch 0xffffffff81000400 3

# Push
case push rbx | measured | code 53 | in rflags=0x8d7 | -> next | out rsp=0xffffffff83003ff8 rip=0xffffffff81000401
write 0xffffffff83003ff8 3333333333333333 | access fetch 0xffffffff81000400 1; write 0xffffffff83003ff8 8

case push r12 (R8 and above) | measured | code 4154 | -> next | out rsp=0xffffffff83003ff8 rip=0xffffffff81000402
write 0xffffffff83003ff8 cccccccccccccccc | access fetch 0xffffffff81000400 2; write 0xffffffff83003ff8 8

case push rsp (RSP pushes the old number) | measured | code 54 | -> next
out rsp=0xffffffff83003ff8 rip=0xffffffff81000401 | write 0xffffffff83003ff8 00400083ffffffff
access fetch 0xffffffff81000400 1; write 0xffffffff83003ff8 8

case push rsp (RSP by FF /6) | measured | code fff4 | -> next | out rsp=0xffffffff83003ff8 rip=0xffffffff81000402
write 0xffffffff83003ff8 00400083ffffffff | access fetch 0xffffffff81000400 2; write 0xffffffff83003ff8 8

case push rbx (RSP 4: the word wraps) | model | code 53 | in rsp=0x4 | -> next
out rsp=0xfffffffffffffffc rip=0xffffffff81000401 | write 0xfffffffffffffffc 3333333333333333
access fetch 0xffffffff81000400 1; write 0xfffffffffffffffc 8

case push rbx (over a page's border) | measured | code 53 | in rsp=0xffffffff83004002
mem 0xffffffff83003ff8 ffffffffffffffff | mem 0xffffffff83004000 ffffffffffffffff | -> next
out rsp=0xffffffff83003ffa rip=0xffffffff81000401 | write 0xffffffff83003ffa 3333333333333333
access fetch 0xffffffff81000400 1; write 0xffffffff83003ffa 8

# Pop
case pop rax | measured | code 58 | in rflags=0x8d7 | mem 0xffffffff83004000 0100000000000080 | -> next
out rax=0x8000000000000001 rsp=0xffffffff83004008 rip=0xffffffff81000401
access fetch 0xffffffff81000400 1; read 0xffffffff83004000 8

case pop r15 (R8 and above) | measured | code 415f | mem 0xffffffff83004000 0300000000000000 | -> next
out rsp=0xffffffff83004008 r15=0x3 rip=0xffffffff81000402
access fetch 0xffffffff81000400 2; read 0xffffffff83004000 8

case pop rsp (RSP leaves the popped number) | measured | code 5c | mem 0xffffffff83004000 2301000000000000 | -> next
out rsp=0x123 rip=0xffffffff81000401 | access fetch 0xffffffff81000400 1; read 0xffffffff83004000 8

case pop rsp (RSP by 8F /0) | measured | code 8fc4 | mem 0xffffffff83004000 2301000000000000 | -> next
out rsp=0x123 rip=0xffffffff81000402 | access fetch 0xffffffff81000400 2; read 0xffffffff83004000 8

case pop [rsp] (memory by RSP: the address after the addition) | measured | code 8f0424
mem 0xffffffff83004000 7700000000000000 | mem 0xffffffff83004008 7800000000000000 | -> next
out rsp=0xffffffff83004008 rip=0xffffffff81000403 | write 0xffffffff83004008 7700000000000000
access fetch 0xffffffff81000400 3; read 0xffffffff83004000 8; write 0xffffffff83004008 8

case pop [rsp+0x8] (memory by RSP, with a displacement) | measured | code 8f442408
mem 0xffffffff83004000 7700000000000000 | -> next | out rsp=0xffffffff83004008 rip=0xffffffff81000404
write 0xffffffff83004010 7700000000000000
access fetch 0xffffffff81000400 4; read 0xffffffff83004000 8; write 0xffffffff83004010 8

case pop [rsp+rcx*8-0x10] (memory by RSP and an index) | measured | code 8f44ccf0 | in rcx=0x1
mem 0xffffffff83004000 7700000000000000 | -> next | out rsp=0xffffffff83004008 rip=0xffffffff81000404
write 0xffffffff83004000 7700000000000000
access fetch 0xffffffff81000400 4; read 0xffffffff83004000 8; write 0xffffffff83004000 8

case pop rbx (over a page's border) | measured | code 5b | in rsp=0xffffffff83003ffb
mem 0xffffffff83003ff8 1122334455667788 | mem 0xffffffff83004000 0077665544332211 | -> next
out rbx=0x6677008877665544 rsp=0xffffffff83004003 rip=0xffffffff81000401
access fetch 0xffffffff81000400 1; read 0xffffffff83003ffb 8

case pop rax (a word that wraps) | model | code 58 | in rsp=0xfffffffffffffffc | mem 0xfffffffffffffffc 11223344
mem 0x0 55667788 | -> next | out rax=0x8877665544332211 rsp=0x4 rip=0xffffffff81000401
access fetch 0xffffffff81000400 1; read 0xfffffffffffffffc 8

# Pushfq; Popfq
case pushfq | measured | code 9c | -> next | out rsp=0xffffffff83003ff8 rip=0xffffffff81000401
write 0xffffffff83003ff8 0200000000000000 | access fetch 0xffffffff81000400 1; write 0xffffffff83003ff8 8

case pushfq | measured | code 9c | in rflags=0x240ad7 | -> next | out rsp=0xffffffff83003ff8 rip=0xffffffff81000401
write 0xffffffff83003ff8 d70a240000000000 | access fetch 0xffffffff81000400 1; write 0xffffffff83003ff8 8

case popfq (0x0) | measured | code 9d | in rflags=0x8d7 | mem 0xffffffff83004000 0000000000000000 | -> next
out rsp=0xffffffff83004008 rip=0xffffffff81000401 rflags=0x2
access fetch 0xffffffff81000400 1; read 0xffffffff83004000 8

case popfq (0xffffffffffffffff) | model | code 9d | mem 0xffffffff83004000 ffffffffffffffff | -> next
out rsp=0xffffffff83004008 rip=0xffffffff81000401 rflags=0x240fd7
access fetch 0xffffffff81000400 1; read 0xffffffff83004000 8

case popfq (0xfffffffffffffeff) | measured | code 9d | mem 0xffffffff83004000 fffeffffffffffff | -> next
out rsp=0xffffffff83004008 rip=0xffffffff81000401 rflags=0x240ed7
access fetch 0xffffffff81000400 1; read 0xffffffff83004000 8

case popfq (0x3000) | measured | code 9d | in rflags=0x8d7 | mem 0xffffffff83004000 0030000000000000 | -> next
out rsp=0xffffffff83004008 rip=0xffffffff81000401 rflags=0x2
access fetch 0xffffffff81000400 1; read 0xffffffff83004000 8

case popfq (0xffffffff00000000) | measured | code 9d | in rflags=0x8d7 | mem 0xffffffff83004000 00000000ffffffff
-> next | out rsp=0xffffffff83004008 rip=0xffffffff81000401 rflags=0x2
access fetch 0xffffffff81000400 1; read 0xffffffff83004000 8

case popfq (IF opens no gap) | measured | code 9d | in shadow=0x1 | mem 0xffffffff83004000 0002000000000000
-> next | out rsp=0xffffffff83004008 rip=0xffffffff81000401 rflags=0x202 shadow=0x0
access fetch 0xffffffff81000400 1; read 0xffffffff83004000 8

# Add (01 to 3B, 83, 81)
case add rax, rbx | measured | code 4801d8 | in rax=0xffffffffffffffff rbx=0x1 | -> next
out rax=0x0 rip=0xffffffff81000403 rflags=0x57 | access fetch 0xffffffff81000400 3

case add rax, rbx | measured | code 4801d8 | in rax=0x7fffffffffffffff rbx=0x1 rflags=0x8d7 | -> next
out rax=0x8000000000000000 rip=0xffffffff81000403 rflags=0x896 | access fetch 0xffffffff81000400 3

# Sub (01 to 3B, 83, 81)
case sub rax, rbx | measured | code 4829d8 | in rbx=0x1 | -> next
out rax=0xffffffffffffffff rip=0xffffffff81000403 rflags=0x97 | access fetch 0xffffffff81000400 3

case sub rax, rbx | measured | code 4829d8 | in rax=0x5 rbx=0x5 rflags=0x8d7 | -> next
out rax=0x0 rip=0xffffffff81000403 rflags=0x46 | access fetch 0xffffffff81000400 3

# Cmp (01 to 3B, 83, 81)
case cmp rax, rbx | measured | code 4839d8 | in rbx=0x1 | -> next | out rip=0xffffffff81000403 rflags=0x97
access fetch 0xffffffff81000400 3

case cmp rax, rbx | measured | code 4839d8 | in rax=0x5 rbx=0x5 rflags=0x8d7 | -> next
out rip=0xffffffff81000403 rflags=0x46 | access fetch 0xffffffff81000400 3

# And (01 to 3B, 83, 81)
case and rax, rbx | measured | code 4821d8 | in rax=0xf0 rbx=0xf | -> next
out rax=0x0 rip=0xffffffff81000403 rflags=0x46 | access fetch 0xffffffff81000400 3

case and rax, rbx | measured | code 4821d8 | in rax=0xffffffffffffffff rbx=0x8000000000000000 rflags=0x8d7 | -> next
out rax=0x8000000000000000 rip=0xffffffff81000403 rflags=0x96 | access fetch 0xffffffff81000400 3

# Or (01 to 3B, 83, 81)
case or rax, rbx | measured | code 4809d8 | in rax=0xf0 rbx=0xf | -> next
out rax=0xff rip=0xffffffff81000403 rflags=0x6 | access fetch 0xffffffff81000400 3

case or rax, rbx | measured | code 4809d8 | in rax=0xffffffffffffffff rbx=0x8000000000000000 rflags=0x8d7 | -> next
out rip=0xffffffff81000403 rflags=0x96 | access fetch 0xffffffff81000400 3

# Xor (01 to 3B, 83, 81)
case xor rax, rbx | measured | code 4831d8 | in rax=0xf0 rbx=0xf | -> next
out rax=0xff rip=0xffffffff81000403 rflags=0x6 | access fetch 0xffffffff81000400 3

case xor rax, rbx | measured | code 4831d8 | in rax=0xffffffffffffffff rbx=0x8000000000000000 rflags=0x8d7 | -> next
out rax=0x7fffffffffffffff rip=0xffffffff81000403 rflags=0x16 | access fetch 0xffffffff81000400 3

case add [rbx], rcx (a sum stored past the end of the space) | model | code 48010b
in rcx=0x1 rbx=0xfffffffffffffffe | mem 0xfffffffffffffffe ffff | mem 0x0 ffffffff | mem 0x4 0000 | -> next
out rip=0xffffffff81000403 rflags=0x16 | write 0xfffffffffffffffe 0000000000000100
access fetch 0xffffffff81000400 3; read 0xfffffffffffffffe 8; write 0xfffffffffffffffe 8

# Test (85, F7 /0, A9; F6 /0, A8)
case test rax, rbx | measured | code 4885d8 | in rbx=0x0 | -> next | out rip=0xffffffff81000403 rflags=0x46
access fetch 0xffffffff81000400 3

case test eax, ebx (Long) | measured | code 85d8 | in rbx=0x0 rflags=0x8d7 | -> next
out rip=0xffffffff81000402 rflags=0x56 | access fetch 0xffffffff81000400 2

case test byte [rsp+0x8], 0x3 (one byte of memory: a frame's CS) | measured | code f644240803 | in rflags=0x8d7
mem 0xffffffff83004008 3300000000000000 | -> next | out rip=0xffffffff81000405 rflags=0x16
access fetch 0xffffffff81000400 5; read 0xffffffff83004008 1

case test byte [rsp+0x8], 0x3 (one byte of memory, no bit) | measured | code f644240803 | in rflags=0x8d7
mem 0xffffffff83004008 10ff000000000000 | -> next | out rip=0xffffffff81000405 rflags=0x56
access fetch 0xffffffff81000400 5; read 0xffffffff83004008 1

case test byte [rbx], 0x80 (one byte of memory, its sign) | measured | code f60380 | in rbx=0xffffffff82000800
mem 0xffffffff82000800 807f000000000000 | -> next | out rip=0xffffffff81000403 rflags=0x82
access fetch 0xffffffff81000400 3; read 0xffffffff82000800 1

# Bit Test, Set, Reset (0F BA)
case bt rax, 0x3f (bit 63) | measured | code 480fbae03f | in rax=0x8000000000000000 rflags=0x8d6 | -> next
out rip=0xffffffff81000405 rflags=0x8d7 | access fetch 0xffffffff81000400 5

case bt rax, 0x3f (bit 63, clear) | measured | code 480fbae03f | in rax=0x7fffffffffffffff rflags=0x8d7 | -> next
out rip=0xffffffff81000405 rflags=0x8d6 | access fetch 0xffffffff81000400 5

case bts rax, 0x3f (bit 63) | measured | code 480fbae83f | in rax=0x8000000000000000 rflags=0x8d6 | -> next
out rip=0xffffffff81000405 rflags=0x8d7 | access fetch 0xffffffff81000400 5

case bts rax, 0x3f (bit 63, clear) | measured | code 480fbae83f | in rax=0x7fffffffffffffff rflags=0x8d7 | -> next
out rax=0xffffffffffffffff rip=0xffffffff81000405 rflags=0x8d6 | access fetch 0xffffffff81000400 5

case btr rax, 0x3f (bit 63) | measured | code 480fbaf03f | in rax=0x8000000000000000 rflags=0x8d6 | -> next
out rax=0x0 rip=0xffffffff81000405 rflags=0x8d7 | access fetch 0xffffffff81000400 5

case btr rax, 0x3f (bit 63, clear) | measured | code 480fbaf03f | in rax=0x7fffffffffffffff rflags=0x8d7 | -> next
out rip=0xffffffff81000405 rflags=0x8d6 | access fetch 0xffffffff81000400 5

# Jcc (70, 0F 80)
case jo 0xffffffff81000440 | measured | code 0f803a000000 | in rflags=0x802 | -> next | out rip=0xffffffff81000440
access fetch 0xffffffff81000400 6

case jo 0xffffffff81000390 | measured | code 0f808affffff | in rflags=0xd7 | -> next | out rip=0xffffffff81000406
access fetch 0xffffffff81000400 6

case jno 0xffffffff81000440 | measured | code 0f813a000000 | in rflags=0x802 | -> next | out rip=0xffffffff81000406
access fetch 0xffffffff81000400 6

case jb 0xffffffff81000440 | measured | code 0f823a000000 | in rflags=0x3 | -> next | out rip=0xffffffff81000440
access fetch 0xffffffff81000400 6

case jae 0xffffffff81000440 | measured | code 0f833a000000 | in rflags=0x3 | -> next | out rip=0xffffffff81000406
access fetch 0xffffffff81000400 6

case jz 0xffffffff81000440 | measured | code 0f843a000000 | in rflags=0x42 | -> next | out rip=0xffffffff81000440
access fetch 0xffffffff81000400 6

case jnz 0xffffffff81000440 | measured | code 0f853a000000 | in rflags=0x42 | -> next | out rip=0xffffffff81000406
access fetch 0xffffffff81000400 6

case jbe 0xffffffff81000440 | measured | code 0f863a000000 | in rflags=0x3 | -> next | out rip=0xffffffff81000440
access fetch 0xffffffff81000400 6

# Jmp; Call; Ret
case jmp 0xffffffff81000481 (short) | measured | code eb7f | in rflags=0x8d7 | -> next | out rip=0xffffffff81000481
access fetch 0xffffffff81000400 2

case jmp 0xffffffff81000400 (short, back to itself) | measured | code ebfe | -> next
access fetch 0xffffffff81000400 2

case call 0xffffffff81000100 | measured | code e8fbfcffff | in rflags=0x8d7 | -> next
out rsp=0xffffffff83003ff8 rip=0xffffffff81000100 | write 0xffffffff83003ff8 05040081ffffffff
access fetch 0xffffffff81000400 5; write 0xffffffff83003ff8 8

case call 0xffffffff81000100 (RSP 4: the word wraps) | model | code e8fbfcffff | in rsp=0x4 | -> next
out rsp=0xfffffffffffffffc rip=0xffffffff81000100 | write 0xfffffffffffffffc 05040081ffffffff
access fetch 0xffffffff81000400 5; write 0xfffffffffffffffc 8

case ret | measured | code c3 | in rflags=0x8d7 | mem 0xffffffff83004000 23010081ffffffff | -> next
out rsp=0xffffffff83004008 rip=0xffffffff81000123 | access fetch 0xffffffff81000400 1; read 0xffffffff83004000 8

case ret (to a number that isn't canonical) | model | code c3 | mem 0xffffffff83004000 0000000000000080 | -> next
out rsp=0xffffffff83004008 rip=0x8000000000000000 | access fetch 0xffffffff81000400 1; read 0xffffffff83004000 8

# Call of a handler's entry
case call 0xffffffff81800000 (handler 0) | model | code e8fbfb7f00 | -> next
out rsp=0xffffffff83003ff8 rip=0xffffffff81800000
inside handler=0 rsp=0xffffffff83003ff8 back=0xffffffff81000405 rflags=0x2 rbx=0x3333333333333333
inside rbp=0x5555555555555555 r12=0xcccccccccccccccc r13=0xdddddddddddddddd r14=0xeeeeeeeeeeeeeeee
inside r15=0xffffffffffffffff | write 0xffffffff83003ff8 05040081ffffffff
access fetch 0xffffffff81000400 5; write 0xffffffff83003ff8 8

case call 0xffffffff81800010 (handler 1) | model | code e80bfc7f00 | in rflags=0x246 | -> next
out rsp=0xffffffff83003ff8 rip=0xffffffff81800010
inside handler=1 rsp=0xffffffff83003ff8 back=0xffffffff81000405 rflags=0x246 rbx=0x3333333333333333
inside rbp=0x5555555555555555 r12=0xcccccccccccccccc r13=0xdddddddddddddddd r14=0xeeeeeeeeeeeeeeee
inside r15=0xffffffffffffffff | write 0xffffffff83003ff8 05040081ffffffff
access fetch 0xffffffff81000400 5; write 0xffffffff83003ff8 8

case call 0xffffffff81800000 (user's GS base) | model | code e8fbfb7f00 | in gs=0x1234 kgs=0xffffffff82002000
-> forbidden 7 | access fetch 0xffffffff81000400 5; write 0xffffffff83003ff8 8

case call 0xffffffff81800000 (user's CR3) | model | code e8fbfb7f00 | in cr3=0x1001000 | -> forbidden 7
access fetch 0xffffffff81000400 5; write 0xffffffff83003ff8 8

case call 0xffffffff81800000 (the push falls in a guard: stopped before forbidden) | model | code e8fbfb7f00
in rsp=0xffffffff83002000 gs=0x0 | -> stopped | access fetch 0xffffffff81000400 5; write 0xffffffff83001ff8 8

case call 0xffffffff81800000 (RSP at a stack's end: the push lies in it) | model | code e8fbfb7f00
in rsp=0xffffffff83006000 | -> next | out rsp=0xffffffff83005ff8 rip=0xffffffff81800000
inside handler=0 rsp=0xffffffff83005ff8 back=0xffffffff81000405 rflags=0x2 rbx=0x3333333333333333
inside rbp=0x5555555555555555 r12=0xcccccccccccccccc r13=0xdddddddddddddddd r14=0xeeeeeeeeeeeeeeee
inside r15=0xffffffffffffffff | write 0xffffffff83005ff8 05040081ffffffff
access fetch 0xffffffff81000400 5; write 0xffffffff83005ff8 8

# Swapgs
case swapgs | model | code 0f01f8 | in rflags=0x8d7 | -> next
out rip=0xffffffff81000403 gs=0x1234 kgs=0xffffffff82002000 | access fetch 0xffffffff81000400 3

case swapgs (from the user's) | model | code 0f01f8 | in gs=0x7fffffffffff kgs=0xffffffff82002000 | -> next
out rip=0xffffffff81000403 gs=0xffffffff82002000 kgs=0x7fffffffffff | access fetch 0xffffffff81000400 3

# Sysretq
case sysretq (all bits of R11) | model | code 480f07
in rcx=0x400000 r11=0xffffffffffffffff gs=0x0 kgs=0xffffffff82002000 cr3=0x1001000 | -> returned
out rip=0x400000 rflags=0x3c7fd7 cs=0x33 ss=0x2b | access fetch 0xffffffff81000400 3

case sysretq (no bit of R11) | model | code 480f07 | in rcx=0x7fffffffffff r11=0x0 | -> returned
out rip=0x7fffffffffff cs=0x33 ss=0x2b | access fetch 0xffffffff81000400 3

case sysretq (RCX that isn't canonical) | model | code 480f07 | in rcx=0x800000000000 r11=0x202 | -> returned
out rip=0x800000000000 rflags=0x202 cs=0x33 ss=0x2b | access fetch 0xffffffff81000400 3

# Iretq
case iretq (to the user) | model | code 48cf | in gs=0x0 kgs=0xffffffff82002000 cr3=0x1001000
mem 0xffffffff83004000 0000400000000000 | mem 0xffffffff83004008 3300000000000000
mem 0xffffffff83004010 0202000000000000 | mem 0xffffffff83004018 00f07f0000000000
mem 0xffffffff83004020 2b00000000000000 | -> returned | out rsp=0x7ff000 rip=0x400000 rflags=0x202 cs=0x33 ss=0x2b
access fetch 0xffffffff81000400 2; read 0xffffffff83004000 8; read 0xffffffff83004008 8
access read 0xffffffff83004010 8; read 0xffffffff83004018 8; read 0xffffffff83004020 8
access read 0xffffffff82001030 8; read 0xffffffff82001028 8

case iretq (all bits of RFLAGS) | model | code 48cf | mem 0xffffffff83004000 0000400000000000
mem 0xffffffff83004008 3300000000000000 | mem 0xffffffff83004010 ffffffffffffffff
mem 0xffffffff83004018 00f07f0000000000 | mem 0xffffffff83004020 2b00000000000000 | -> returned
out rsp=0x7ff000 rip=0x400000 rflags=0x240fd7 cs=0x33 ss=0x2b
access fetch 0xffffffff81000400 2; read 0xffffffff83004000 8; read 0xffffffff83004008 8
access read 0xffffffff83004010 8; read 0xffffffff83004018 8; read 0xffffffff83004020 8
access read 0xffffffff82001030 8; read 0xffffffff82001028 8

case iretq (no bit of RFLAGS) | model | code 48cf | in rflags=0x8d7 | mem 0xffffffff83004000 0000400000000000
mem 0xffffffff83004008 3300000000000000 | mem 0xffffffff83004010 0000000000000000
mem 0xffffffff83004018 00f07f0000000000 | mem 0xffffffff83004020 2b00000000000000 | -> returned
out rsp=0x7ff000 rip=0x400000 rflags=0x2 cs=0x33 ss=0x2b
access fetch 0xffffffff81000400 2; read 0xffffffff83004000 8; read 0xffffffff83004008 8
access read 0xffffffff83004010 8; read 0xffffffff83004018 8; read 0xffffffff83004020 8
access read 0xffffffff82001030 8; read 0xffffffff82001028 8

case iretq (into the kernel, SS null: one descriptor) | model | code 48cf | mem 0xffffffff83004000 40000081ffffffff
mem 0xffffffff83004008 1000000000000000 | mem 0xffffffff83004010 4600000000000000
mem 0xffffffff83004018 003f0083ffffffff | mem 0xffffffff83004020 0000000000000000 | -> returned
out rsp=0xffffffff83003f00 rip=0xffffffff81000040 rflags=0x46 ss=0x0
access fetch 0xffffffff81000400 2; read 0xffffffff83004000 8; read 0xffffffff83004008 8
access read 0xffffffff83004010 8; read 0xffffffff83004018 8; read 0xffffffff83004020 8
access read 0xffffffff82001010 8

case iretq (the upper bits of the words of CS and SS are dropped) | model | code 48cf
mem 0xffffffff83004000 0000400000000000 | mem 0xffffffff83004008 3300ffffffffffff
mem 0xffffffff83004010 0202000000000000 | mem 0xffffffff83004018 00f07f0000000000
mem 0xffffffff83004020 2b00000078563412 | -> returned | out rsp=0x7ff000 rip=0x400000 rflags=0x202 cs=0x33 ss=0x2b
access fetch 0xffffffff81000400 2; read 0xffffffff83004000 8; read 0xffffffff83004008 8
access read 0xffffffff83004010 8; read 0xffffffff83004018 8; read 0xffffffff83004020 8
access read 0xffffffff82001030 8; read 0xffffffff82001028 8

case iretq (the NMI block and the gap end, MCIP stays) | model | code 48cf | in nmi_blocked=0x1 shadow=0x1 mcip=0x1
mem 0xffffffff83004000 0000400000000000 | mem 0xffffffff83004008 3300000000000000
mem 0xffffffff83004010 0202000000000000 | mem 0xffffffff83004018 00f07f0000000000
mem 0xffffffff83004020 2b00000000000000 | -> returned
out rsp=0x7ff000 rip=0x400000 rflags=0x202 cs=0x33 ss=0x2b nmi_blocked=0x0 shadow=0x0
access fetch 0xffffffff81000400 2; read 0xffffffff83004000 8; read 0xffffffff83004008 8
access read 0xffffffff83004010 8; read 0xffffffff83004018 8; read 0xffffffff83004020 8
access read 0xffffffff82001030 8; read 0xffffffff82001028 8

case iretq (five words over the end of the space) | model | code 48cf | in rsp=0xfffffffffffffff0
mem 0xfffffffffffffff0 0000400000000000 | mem 0xfffffffffffffff8 3300000000000000 | mem 0x0 0202000000000000
mem 0x8 00f07f0000000000 | mem 0x10 2b00000000000000 | -> returned
out rsp=0x7ff000 rip=0x400000 rflags=0x202 cs=0x33 ss=0x2b
access fetch 0xffffffff81000400 2; read 0xfffffffffffffff0 8; read 0xfffffffffffffff8 8; read 0x0 8; read 0x8 8
access read 0x10 8; read 0xffffffff82001030 8; read 0xffffffff82001028 8

# Cli; Sti; Cld; Clac; Stac; Nop; Endbr64; Lfence; Ud2
case cli | measured | code fa | in rflags=0x8d7 | -> next | out rip=0xffffffff81000401
access fetch 0xffffffff81000400 1

case cli | measured | code fa | in rflags=0xad7 | -> next | out rip=0xffffffff81000401 rflags=0x8d7
access fetch 0xffffffff81000400 1

case cli (the gap ends) | measured | code fa | in rflags=0x240ed7 shadow=0x1 | -> next
out rip=0xffffffff81000401 rflags=0x240cd7 shadow=0x0 | access fetch 0xffffffff81000400 1

case cld | measured | code fc | in rflags=0x8d7 | -> next | out rip=0xffffffff81000401
access fetch 0xffffffff81000400 1

case cld (the gap ends) | measured | code fc | in rflags=0x240ed7 shadow=0x1 | -> next
out rip=0xffffffff81000401 rflags=0x240ad7 shadow=0x0 | access fetch 0xffffffff81000400 1

case clac | measured | code 0f01ca | in rflags=0x8d7 | -> next | out rip=0xffffffff81000403
access fetch 0xffffffff81000400 3

case clac (the gap ends) | measured | code 0f01ca | in rflags=0x240ed7 shadow=0x1 | -> next
out rip=0xffffffff81000403 rflags=0x200ed7 shadow=0x0 | access fetch 0xffffffff81000400 3

case stac | measured | code 0f01cb | in rflags=0x8d7 | -> next | out rip=0xffffffff81000403 rflags=0x408d7
access fetch 0xffffffff81000400 3

case stac (the gap ends) | measured | code 0f01cb | in rflags=0x240ed7 shadow=0x1 | -> next
out rip=0xffffffff81000403 shadow=0x0 | access fetch 0xffffffff81000400 3

# Rdmsr
case rdmsr (the active base, upper half of RCX no matter) | measured | code 0f32
in rax=0xffffffffffffffff rcx=0xabcd0000c0000101 rdx=0xffffffffffffffff rflags=0x8d7 | -> next
out rax=0x82002000 rdx=0xffffffff rip=0xffffffff81000402 | access fetch 0xffffffff81000400 2

case rdmsr (the active base, the user's) | measured | code 0f32
in rax=0xffffffffffffffff rcx=0xc0000101 rdx=0xffffffffffffffff gs=0x7fff12345678 | -> next
out rax=0x12345678 rdx=0x7fff rip=0xffffffff81000402 | access fetch 0xffffffff81000400 2

case rdmsr (the inactive base) | measured | code 0f32
in rax=0xffffffffffffffff rcx=0xc0000102 rdx=0xffffffffffffffff | -> next
out rax=0x1234 rdx=0x0 rip=0xffffffff81000402 | access fetch 0xffffffff81000400 2

case rdmsr (17AH) | model | code 0f32 | in rcx=0x17a mcip=0x1 | -> next | out rax=0x4 rdx=0x0 rip=0xffffffff81000402
access fetch 0xffffffff81000400 2

case rdmsr (17AH, MCIP clear) | model | code 0f32 | in rax=0xffffffffffffffff rcx=0x17a rdx=0xffffffffffffffff
-> next | out rax=0x0 rdx=0x0 rip=0xffffffff81000402 | access fetch 0xffffffff81000400 2

case rdmsr (another number: 0xc0000100) | model | code 0f32 | in rcx=0xc0000100 | -> forbidden 8
access fetch 0xffffffff81000400 2

case rdmsr (another number: 0xc0000103) | model | code 0f32 | in rcx=0xc0000103 | -> forbidden 8
access fetch 0xffffffff81000400 2

case rdmsr (another number: 0xc0000080) | model | code 0f32 | in rcx=0xc0000080 | -> forbidden 8
access fetch 0xffffffff81000400 2

case rdmsr (another number: 0x179) | model | code 0f32 | in rcx=0x179 | -> forbidden 8
access fetch 0xffffffff81000400 2

# Wrmsr
case wrmsr (the active base: 0x0) | model | code 0f30 | in rax=0x111100000000 rcx=0xc0000101 rdx=0x222200000000
-> next | out rip=0xffffffff81000402 gs=0x0 | access fetch 0xffffffff81000400 2

case wrmsr (the active base: 0x7fffffffffff) | model | code 0f30
in rax=0x1111ffffffff rcx=0xc0000101 rdx=0x222200007fff | -> next | out rip=0xffffffff81000402 gs=0x7fffffffffff
access fetch 0xffffffff81000400 2

case wrmsr (the active base: 0x800000000000) | model | code 0f30
in rax=0x111100000000 rcx=0xc0000101 rdx=0x222200008000 | -> forbidden 8 | access fetch 0xffffffff81000400 2

case wrmsr (the active base: 0xffff7fffffffffff) | model | code 0f30
in rax=0x1111ffffffff rcx=0xc0000101 rdx=0x2222ffff7fff | -> forbidden 8 | access fetch 0xffffffff81000400 2

case wrmsr (the active base: 0xffff800000000000) | model | code 0f30
in rax=0x111100000000 rcx=0xc0000101 rdx=0x2222ffff8000 | -> next | out rip=0xffffffff81000402 gs=0xffff800000000000
access fetch 0xffffffff81000400 2

case wrmsr (the active base: 0xffffffff82002000) | model | code 0f30
in rax=0x111182002000 rcx=0xc0000101 rdx=0x2222ffffffff | -> next | out rip=0xffffffff81000402
access fetch 0xffffffff81000400 2

case wrmsr (the active base: 0xffffffffffffffff) | model | code 0f30
in rax=0x1111ffffffff rcx=0xc0000101 rdx=0x2222ffffffff | -> next | out rip=0xffffffff81000402 gs=0xffffffffffffffff
access fetch 0xffffffff81000400 2

case wrmsr (the active base: 0x8000000000000000) | model | code 0f30
in rax=0x111100000000 rcx=0xc0000101 rdx=0x222280000000 | -> forbidden 8 | access fetch 0xffffffff81000400 2

case wrmsr (the inactive base: 0x1000) | model | code 0f30 | in rax=0x1000 rcx=0xffffffffc0000102 rdx=0x0 | -> next
out rip=0xffffffff81000402 kgs=0x1000 | access fetch 0xffffffff81000400 2

# ReadCr3; WriteCr3 (0F 20 /3, 0F 22 /3)
case mov rax, cr3 | measured | code 0f20d8 | in rflags=0x8d7 | -> next | out rax=0x1000000 rip=0xffffffff81000403
access fetch 0xffffffff81000400 3

case mov r12, cr3 (the user's) | measured | code 410f20dc | in cr3=0x1001000 | -> next
out r12=0x1001000 rip=0xffffffff81000404 | access fetch 0xffffffff81000400 4

case mov rsp, cr3 (RSP) | measured | code 0f20dc | -> next | out rsp=0x1000000 rip=0xffffffff81000403
access fetch 0xffffffff81000400 3

case mov cr3, rdx (the user's) | model | code 0f22da | in rdx=0x1001000 rflags=0x8d7 | -> next
out rip=0xffffffff81000403 cr3=0x1001000 | access fetch 0xffffffff81000400 3

case mov cr3, r13 (the kernel's) | model | code 410f22dd | in r13=0x1000000 cr3=0x1001000 | -> next
out rip=0xffffffff81000404 cr3=0x1000000 | access fetch 0xffffffff81000400 4

case mov cr3, rdx (bit 63 isn't stored) | model | code 0f22da | in rdx=0x8000000001001000 | -> next
out rip=0xffffffff81000403 cr3=0x1001000 | access fetch 0xffffffff81000400 3

case mov cr3, rsp (bit 63, the kernel's) | model | code 0f22dc | in rsp=0x8000000001000000 cr3=0x1001000 | -> next
out rip=0xffffffff81000403 cr3=0x1000000 | access fetch 0xffffffff81000400 3

case mov cr3, rax (a third value: 0x1002000) | model | code 0f22d8 | in rax=0x1002000 | -> forbidden 6
access fetch 0xffffffff81000400 3

case mov cr3, rax (a third value: 0x8000000001002000) | model | code 0f22d8 | in rax=0x8000000001002000
-> forbidden 6 | access fetch 0xffffffff81000400 3

# ReadGs; WriteGs (F3 REX.W 0F AE)
case rdgsbase r8 | model | code f3490faec8 | in rflags=0x8d7 | -> next
out r8=0xffffffff82002000 rip=0xffffffff81000405 | access fetch 0xffffffff81000400 5

case rdgsbase rsp (RSP) | model | code f3480faecc | in gs=0x7000 | -> next | out rsp=0x7000 rip=0xffffffff81000405
access fetch 0xffffffff81000400 5

case wrgsbase rax (0x0) | model | code f3480faed8 | in r8=0x0 rflags=0x8d7 | -> next
out rip=0xffffffff81000405 gs=0x0 | access fetch 0xffffffff81000400 5

case wrgsbase r8 (0x7fffffffffff) | model | code f3490faed8 | in rax=0x7fffffffffff r8=0x7fffffffffff rflags=0x8d7
-> next | out rip=0xffffffff81000405 gs=0x7fffffffffff | access fetch 0xffffffff81000400 5

case wrgsbase rax (0x800000000000) | model | code f3480faed8 | in rax=0x800000000000 r8=0x800000000000 rflags=0x8d7
-> forbidden 8 | access fetch 0xffffffff81000400 5

case wrgsbase r8 (0xffff7fffffffffff) | model | code f3490faed8
in rax=0xffff7fffffffffff r8=0xffff7fffffffffff rflags=0x8d7 | -> forbidden 8 | access fetch 0xffffffff81000400 5

case wrgsbase rax (0xffff800000000000) | model | code f3480faed8
in rax=0xffff800000000000 r8=0xffff800000000000 rflags=0x8d7 | -> next
out rip=0xffffffff81000405 gs=0xffff800000000000 | access fetch 0xffffffff81000400 5

case wrgsbase rax (0xffffffff82002000) | model | code f3480faed8
in rax=0xffffffff82002000 r8=0xffffffff82002000 rflags=0x8d7 | -> next | out rip=0xffffffff81000405
access fetch 0xffffffff81000400 5

case wrgsbase r8 (0xffffffffffffffff) | model | code f3490faed8
in rax=0xffffffffffffffff r8=0xffffffffffffffff rflags=0x8d7 | -> next
out rip=0xffffffff81000405 gs=0xffffffffffffffff | access fetch 0xffffffff81000400 5

# accesses with a byte in a guard: stopped, and the list is whole
case mov rax, [rbx] (a read of a guard's last byte) | model | code 488b03 | in rbx=0xffffffff83001fff | -> stopped
access fetch 0xffffffff81000400 3; read 0xffffffff83001fff 8

case mov rax, [rbx] (a read that ends in a guard's first byte) | model | code 488b03 | in rbx=0xffffffff83000ff9
-> stopped | access fetch 0xffffffff81000400 3; read 0xffffffff83000ff9 8

case mov rax, [rbx] (a read that ends a byte before a guard) | measured | code 488b03 | in rbx=0xffffffff83000ff8
-> next | out rip=0xffffffff81000403 | access fetch 0xffffffff81000400 3; read 0xffffffff83000ff8 8

case mov rax, [rbx] (a read of the byte behind a guard) | measured | code 488b03 | in rbx=0xffffffff83002000
-> next | out rip=0xffffffff81000403 | access fetch 0xffffffff81000400 3; read 0xffffffff83002000 8

case test byte [rbx], 0x1 (one byte) | model | code f60301 | in rbx=0xffffffff83001000 | -> stopped
access fetch 0xffffffff81000400 3; read 0xffffffff83001000 1

case test byte [rbx], 0x1 (one byte before) | measured | code f60301 | in rbx=0xffffffff83000fff | -> next
out rip=0xffffffff81000403 rflags=0x46 | access fetch 0xffffffff81000400 3; read 0xffffffff83000fff 1

case mov [rbx], eax (a store) | model | code 8903 | in rbx=0xffffffff83000ffd | -> stopped
access fetch 0xffffffff81000400 2; write 0xffffffff83000ffd 4

case mov gs:[rbx], rax (a store by GS) | model | code 65488903 | in rbx=0x0 gs=0xffffffff83001000 | -> stopped
access fetch 0xffffffff81000400 4; write 0xffffffff83001000 8 gs

case add [rbx], rax (read and write of one place) | model | code 480103 | in rbx=0xffffffff83001000 rflags=0x8d7
-> stopped | access fetch 0xffffffff81000400 3; read 0xffffffff83001000 8; write 0xffffffff83001000 8

";

// The description of the sample on which the cases run.
fn description(alloc: Global) -> Result<Config, Fail> {
    let (image, description) = sample(alloc, Sample::S1)?;
    let image = read_image(alloc, image).ok().ok_or("the image is good")?;
    let config = read_config(alloc, &description, &image)
        .ok()
        .ok_or("the description is good")?;
    Ok(config)
}

#[test]
fn instructions_do_what_the_cases_say(rt: HostRuntime) -> Result<(), Fail> {
    let alloc = rt.alloc();
    let config = description(alloc)?;
    let mut case = ExecCase::new(alloc)?;
    for line in TABLE.lines() {
        if !line.is_empty() {
            case.read_parts(alloc, line)?;
        } else if case.is_whole() {
            let found = case.difference(alloc, &config)?;
            assert_eq!(rt; found.as_str(), "", "{}", case.name);
            case = ExecCase::new(alloc)?;
        }
    }
    Ok(())
}
