//! The decoder on bytes, and the texts of what it answers: by GNU as and by an independent model.

use crate::texts::has_text;
use kc_decode::{DecodeFault, decode};
use kc_insn::Insn;
use kc_tables::case_of;
use std::alloc::Global;
use std::test::Fail;

/// Where bytes stand for which no address matters.
const AT: u64 = 0xffff_ffff_8100_0000;

/// Bytes, their address, the number of those that are the instruction, and its text.
const ROWS: &str = "\
# 89 /r; 8B /r
89 c0 | 0xffffffff81000000 | 2 | mov eax, eax
48 89 c8 | 0xffffffff81000000 | 3 | mov rax, rcx
4c 89 c0 | 0xffffffff81000000 | 3 | mov rax, r8
45 89 03 | 0xffffffff81000000 | 3 | mov [r11], r8d
8b 00 | 0xffffffff81000000 | 2 | mov eax, [rax]
8b e8 00 7f 6c d8 f0 80 19 87 | 0xffffffffffffffe6 | 2 | mov ebp, eax
# C7 /0 id
c7 c0 ff ff ff ff | 0xffffffff81000000 | 6 | mov eax, 0xffffffff
48 c7 c0 ff ff ff ff | 0xffffffff81000000 | 7 | mov rax, -0x1
# B8+r id; REX.W B8+r iq
b8 ff ff ff ff | 0xffffffff81000000 | 5 | mov eax, 0xffffffff
41 b8 00 00 00 00 | 0xffffffff81000000 | 6 | mov r8d, 0x0
40 b8 01 00 00 00 | 0xffffffff81000000 | 6 | mov eax, 0x1
bc 2e 8d d8 bc 44 4c 25 25 c7 00 c0 44 c0 d1 | 0x6b0d62ca97cfc762 | 5 | mov esp, 0xbcd88d2e
48 b8 ff ff ff ff ff ff ff 7f | 0xffffffff81000000 | a | mov rax, 0x7fffffffffffffff
48 b8 00 00 00 00 00 00 00 80 | 0xffffffff81000000 | a | mov rax, -0x8000000000000000
49 bf 01 00 00 00 00 00 00 00 | 0xffffffff81000000 | a | mov r15, 0x1
# 8D /r
8d 00 | 0xffffffff81000000 | 2 | lea eax, [rax]
8d 5b cc | 0x400000 | 3 | lea ebx, [rbx-0x34]
# 87 /r
87 c8 | 0xffffffff81000000 | 2 | xchg eax, ecx
87 00 | 0xffffffff81000000 | 2 | xchg [rax], eax
# 50+r; 6A ib; 68 id; FF /6
50 | 0xffffffff81000000 | 1 | push rax
41 50 | 0xffffffff81000000 | 2 | push r8
40 50 | 0xffffffff81000000 | 2 | push rax
6a ff | 0xffffffff81000000 | 2 | push -0x1
6a 7f | 0xffffffff81000000 | 2 | push 0x7f
68 ff ff ff ff | 0xffffffff81000000 | 5 | push -0x1
68 ff ff ff 7f | 0xffffffff81000000 | 5 | push 0x7fffffff
ff f0 | 0xffffffff81000000 | 2 | push rax
ff 30 | 0xffffffff81000000 | 2 | push [rax]
# 58+r; 8F /0
58 | 0xffffffff81000000 | 1 | pop rax
8f 00 | 0xffffffff81000000 | 2 | pop [rax]
8f c0 | 0xffffffff81000000 | 2 | pop rax
41 8f 00 | 0xffffffff81000000 | 3 | pop [r8]
# 9C; 9D
9c | 0xffffffff81000000 | 1 | pushfq
9d | 0xffffffff81000000 | 1 | popfq
# 01, 09, 21, 29, 31, 39 /r
01 00 | 0xffffffff81000000 | 2 | add [rax], eax
48 01 d8 | 0xffffffff81000000 | 3 | add rax, rbx
09 00 80 ff 44 45 7f ff | 0xde3601a85dc59cae | 2 | or [rax], eax
21 a9 80 ff 44 05 fd d8 39 | 0x0 | 6 | and [rcx+0x544ff80], ebp
44 29 fb | 0x0 | 3 | sub ebx, r15d
31 9a 95 30 e1 de 6f dc a2 26 | 0x400000 | 6 | xor [rdx-0x211ecf6b], ebx
# 03, 0B, 23, 2B, 33, 3B /r
03 c3 | 0xffffffff81000000 | 2 | add eax, ebx
0b 5a 04 80 96 ff | 0x400000 | 3 | or ebx, [rdx+0x4]
2b c5 05 | 0x0 | 2 | sub eax, ebp
33 04 be 51 a8 7f b2 83 0a 1d | 0xfffffffffffffff8 | 3 | xor eax, [rsi+rdi*4]
3b 4b ba 6f 15 44 25 84 d8 43 ff 55 fa | 0xffffffffffffffe6 | 3 | cmp ecx, [rbx-0x46]
# 83 /n ib; 81 /n id
48 83 c4 08 | 0xffffffff81000000 | 4 | add rsp, 0x8
83 c9 00 | 0x400000 | 3 | or ecx, 0x0
41 83 ec 01 | 0xffffffffffffffdb | 4 | sub r12d, 0x1
83 f3 00 | 0x0 | 3 | xor ebx, 0x0
83 c0 ff | 0xffffffff81000000 | 3 | add eax, 0xffffffff
83 e0 f0 | 0xffffffff81000000 | 3 | and eax, 0xfffffff0
83 f8 80 | 0xffffffff81000000 | 3 | cmp eax, 0xffffff80
81 c0 ff ff ff ff | 0xffffffff81000000 | 6 | add eax, 0xffffffff
48 81 e0 ff ef ff ff | 0xffffffff81000000 | 7 | and rax, -0x1001
# 85 /r; F7 /0 id; A9 id
85 c0 | 0xffffffff81000000 | 2 | test eax, eax
48 85 c0 | 0xffffffff81000000 | 3 | test rax, rax
f7 c0 ff ff ff ff | 0xffffffff81000000 | 6 | test eax, 0xffffffff
48 f7 c0 ff ff ff ff | 0xffffffff81000000 | 7 | test rax, -0x1
48 a9 05 00 00 00 | 0xffffffff81000000 | 6 | test rax, 0x5
a9 ff ff ff ff | 0xffffffff81000000 | 5 | test eax, 0xffffffff
# F6 /0 ib; A8 ib
f6 c0 01 | 0xffffffff81000000 | 3 | test al, 0x1
40 f6 c4 01 | 0xffffffff81000000 | 4 | test spl, 0x1
41 f6 c4 01 | 0xffffffff81000000 | 4 | test r12b, 0x1
f6 c3 01 | 0xffffffff81000000 | 3 | test bl, 0x1
f6 04 25 10 00 00 00 03 | 0xffffffff81000000 | 8 | test byte [0x10], 0x3
a8 05 | 0xffffffff81000000 | 2 | test al, 0x5
# 0F BA /4, /5, /6 ib
0f ba e0 3f | 0xffffffff81000000 | 4 | bt eax, 0x3f
48 0f ba e2 ff | 0xffffffff81000000 | 5 | bt rdx, 0xff
48 0f ba ea 3f | 0xffffffff81000000 | 5 | bts rdx, 0x3f
0f ba f2 01 | 0xffffffff81000000 | 4 | btr edx, 0x1
# 70+c cb; 0F 80+c cd
70 00 | 0xffffffff81000000 | 2 | jo 0xffffffff81000002
70 7f | 0xffffffff81000000 | 2 | jo 0xffffffff81000081
70 80 | 0xffffffff81000000 | 2 | jo 0xffffffff80ffff82
7f fe | 0xffffffff81000000 | 2 | jg 0xffffffff81000000
76 87 5a d9 50 9f 9a 81 7e 54 ce 74 bb 25 e5 | 0xffffffff81000000 | 2 | jbe 0xffffffff80ffff89
70 7f | 0xffffffffffffff9b | 2 | jo 0x000000000000001c
70 80 | 0x5 | 2 | jo 0xffffffffffffff87
0f 80 00 00 00 00 | 0xffffffff81000000 | 6 | jo 0xffffffff81000006
0f 84 00 00 00 80 | 0x0 | 6 | jz 0xffffffff80000006
# EB cb; E9 cd; E8 cd; C3
eb fe | 0xffffffff81000000 | 2 | jmp 0xffffffff81000000
eb fe | 0xffffffffffffffff | 2 | jmp 0xffffffffffffffff
eb fe | 0xfffffffffffffffe | 2 | jmp 0xfffffffffffffffe
eb 00 | 0xfffffffffffffffe | 2 | jmp 0x0000000000000000
e9 fb ff ff ff | 0xffffffff81000000 | 5 | jmp 0xffffffff81000000
e9 ff ff ff ff | 0x2 | 5 | jmp 0x0000000000000006
e8 ca ff 7f 00 | 0xffffffff81000000 | 5 | call 0xffffffff817fffcf
e8 fb ff ff ff | 0xfffffffffffffffb | 5 | call 0xfffffffffffffffb
c3 | 0xffffffff81000000 | 1 | ret
# 0F 01 F8; 48 0F 07; 48 CF
0f 01 f8 | 0xffffffff81000000 | 3 | swapgs
48 0f 07 | 0xffffffff81000000 | 3 | sysretq
48 cf | 0xffffffff81000000 | 2 | iretq
# FA; FB; FC
fa | 0xffffffff81000000 | 1 | cli
fb | 0xffffffff81000000 | 1 | sti
fc | 0xffffffff81000000 | 1 | cld
# 0F 32; 0F 30
0f 32 | 0xffffffff81000000 | 2 | rdmsr
0f 30 | 0xffffffff81000000 | 2 | wrmsr
# 0F 20 /3; 0F 22 /3
0f 20 d8 | 0xffffffff81000000 | 3 | mov rax, cr3
41 0f 20 d8 | 0xffffffff81000000 | 4 | mov r8, cr3
40 0f 20 d8 | 0xffffffff81000000 | 4 | mov rax, cr3
0f 22 d8 | 0xffffffff81000000 | 3 | mov cr3, rax
41 0f 22 df | 0xffffffff81000000 | 4 | mov cr3, r15
# 0F 01 CA; 0F 01 CB
0f 01 ca | 0xffffffff81000000 | 3 | clac
0f 01 cb | 0xffffffff81000000 | 3 | stac
# F3 REX.W 0F AE /1; /3
f3 48 0f ae c8 | 0xffffffff81000000 | 5 | rdgsbase rax
f3 49 0f ae c8 | 0xffffffff81000000 | 5 | rdgsbase r8
f3 49 0f ae d8 | 0xffffffff81000000 | 5 | wrgsbase r8
# 0F AE E8; F3 0F 1E FA; 0F 0B
0f ae e8 | 0xffffffff81000000 | 3 | lfence
f3 0f 1e fa | 0xffffffff81000000 | 4 | endbr64
0f 0b | 0xffffffff81000000 | 2 | ud2
# 90; 66 90; 0F 1F /0
90 | 0xffffffff81000000 | 1 | nop
66 90 | 0xffffffff81000000 | 2 | nop
0f 1f c0 | 0xffffffff81000000 | 3 | nop
2e 0f 1f 00 | 0xffffffff81000000 | 4 | nop
40 0f 1f 00 | 0xffffffff81000000 | 4 | nop
41 0f 1f 00 | 0xffffffff81000000 | 4 | nop
42 0f 1f 04 00 | 0xffffffff81000000 | 5 | nop
66 0f 1f 44 00 00 | 0xffffffff81000000 | 6 | nop
66 2e 0f 1f 84 00 00 00 00 00 | 0xffffffff81000000 | a | nop
# mod 0, a base register
65 89 00 db 6f c0 e8 32 44 24 | 0xfffffffffffffff1 | 3 | mov gs:[rax], eax
65 ff 30 | 0xffffffff81000000 | 3 | push gs:[rax]
65 87 00 | 0xffffffff81000000 | 3 | xchg gs:[rax], eax
65 48 03 00 | 0xffffffff81000000 | 4 | add rax, gs:[rax]
65 0f ba 20 00 | 0xffffffff81000000 | 5 | bt dword gs:[rax], 0x0
# mod 0, rm 5: RIP, with and without REX.B
48 8d 05 00 00 00 00 | 0xffffffff81000000 | 7 | lea rax, [rip]
48 8b 05 f0 ff ff ff | 0xffffffff81000000 | 7 | mov rax, [rip-0x10]
49 8b 05 f0 ff ff ff | 0xffffffff81000000 | 7 | mov rax, [rip-0x10]
65 8b 05 00 00 00 00 | 0xffffffff81000000 | 7 | mov eax, gs:[rip]
41 01 05 07 43 a4 25 | 0xfffffffffffffff2 | 7 | add [rip+0x25a44307], eax
48 21 25 d8 a5 68 f8 e8 0a 04 7f | 0x6a11359b4db0fd17 | 7 | and [rip-0x7975a28], rsp
f6 05 25 ff ff 84 47 24 | 0x0 | 7 | test byte [rip-0x7b0000db], 0x47
65 48 87 25 80 cf 64 da 44 ba b7 e1 04 0c | 0x235013fb79b6a7fc | 8 | xchg gs:[rip-0x259b3080], rsp
# mod 1, a signed displacement of 8 bits
0f ba 76 00 3c cb 44 24 04 73 a3 ff | 0xffffffffffffffde | 5 | btr dword [rsi], 0x3c
# mod 2, one of 32 bits
8b b2 cc 13 6d 2d 44 94 2f | 0xffffffffffffffe2 | 6 | mov esi, [rdx+0x2d6d13cc]
03 83 44 ba 84 80 84 fa ef | 0x400000 | 6 | add eax, [rbx-0x7f7b45bc]
4d 03 a5 7f e8 14 44 c0 17 08 7c | 0xffffffffffffffdf | 7 | add r12, [r13+0x4414e87f]
4d 31 80 32 e8 04 6c c0 42 ff 80 00 | 0x0 | 7 | xor [r8+0x6c04e832], r8
# SIB: base and index
42 89 04 08 | 0xffffffff81000000 | 4 | mov [rax+r9], eax
4f 89 04 08 | 0xffffffff81000000 | 4 | mov [r8+r9], r8
42 8d 04 00 | 0xffffffff81000000 | 4 | lea eax, [rax+r8]
42 89 04 24 | 0xffffffff81000000 | 4 | mov [rsp+r12], eax
42 89 04 64 00 | 0xffffffff81000000 | 4 | mov [rsp+r12*2], eax
44 21 24 df fa ff d6 97 25 c0 ff 24 | 0x3c7cf07ceed5e256 | 4 | and [rdi+rbx*8], r12d
0b 44 fa 84 96 fc 96 aa 80 fb d8 | 0xffffffffffffffe7 | 4 | or eax, [rdx+rdi*8-0x7c]
65 46 29 6c 0d 3a | 0x0 | 6 | sub gs:[rbp+r9+0x3a], r13d
4a 81 7c 1f c9 ff ef ff ff | 0x27c263c4353ea23e | 9 | cmp qword [rdi+r11-0x37], -0x1001
# SIB: index 4 is none, whatever the scale
48 8d 24 63 bc fa d8 c0 c0 04 c1 44 84 | 0x0 | 4 | lea rsp, [rbx]
89 04 64 00 00 | 0xffffffff81000000 | 3 | mov [rsp], eax
89 04 a4 | 0xffffffff81000000 | 3 | mov [rsp], eax
48 83 7c 24 08 ff | 0xffffffff81000000 | 6 | cmp qword [rsp+0x8], -0x1
# SIB: base 5 with mod 0 is none, with and without REX.B
ff 34 25 00 08 00 00 | 0xffffffff81000000 | 7 | push [0x800]
65 ff 34 25 00 08 00 00 | 0xffffffff81000000 | 8 | push gs:[0x800]
65 48 8b 04 25 08 00 00 00 | 0xffffffff81000000 | 9 | mov rax, gs:[0x8]
65 f6 04 25 08 00 00 00 01 | 0xffffffff81000000 | 9 | test byte gs:[0x8], 0x1
89 04 25 ff ff ff ff | 0xffffffff81000000 | 7 | mov [-0x1], eax
89 04 e5 00 00 00 00 | 0xffffffff81000000 | 7 | mov [0x0], eax
41 89 04 25 05 00 00 00 00 | 0xffffffff81000000 | 8 | mov [0x5], eax
43 8b 04 25 10 00 00 00 00 | 0xffffffff81000000 | 8 | mov eax, [r12+0x10]
46 0b 14 b5 9b ff ff ff | 0x400000 | 8 | or r10d, [r14*4-0x65]
# Each condition: 0F 80+c id, from address 0xa
0f 80 00 00 00 00 | 0xa | 6 | jo 0x0000000000000010
0f 81 00 00 00 00 | 0xa | 6 | jno 0x0000000000000010
0f 82 00 00 00 00 | 0xa | 6 | jb 0x0000000000000010
0f 87 00 00 00 00 | 0xa | 6 | ja 0x0000000000000010
0f 88 00 00 00 00 | 0xa | 6 | js 0x0000000000000010
0f 8a 00 00 00 00 | 0xa | 6 | jp 0x0000000000000010
0f 8b 00 00 00 00 | 0xa | 6 | jnp 0x0000000000000010
0f 8c 00 00 00 00 | 0xa | 6 | jl 0x0000000000000010
0f 8e 00 00 00 00 | 0xa | 6 | jle 0x0000000000000010
# An index by 1 without a base
4c 8b 14 0d 00 00 00 00 | 0xffffffff81000000 | 8 | mov r10, [rcx]
f6 04 0d 00 00 00 00 ff | 0xffffffff81000000 | 8 | test byte [rcx], 0xff
";

/// Bytes and the fault that they meet.
const REFUSED: &str = "\
# No opcode yet
- | Short
65 | Short
66 | Short
2e | Short
f3 | Short
40 | Short
65 41 | Short
66 40 | Short
66 42 | Short
66 2e | Short
f3 48 | Short
# The opcode's second or third byte is missing
0f | Short
48 0f | Short
65 0f | Short
f3 0f | Short
f3 0f 1e | Short
# A ModRM byte, a SIB byte or a displacement is missing
65 89 | Short
2b 0d | Short
65 f6 04 05 01 00 00 00 | Short
# An immediate or a distance is missing
a9 05 00 00 | Short
83 c8 | Short
81 f8 00 00 00 | Short
0f 80 | Short
e8 | Short
eb | Short
# No row has the opcode
fd | Unknown
f4 | Unknown
cd 80 | Unknown
0f 05 | Unknown
0f 0f | Unknown
f2 | Unknown
0f 01 c8 | Unknown
48 91 | Unknown
13 c0 | Unknown
05 ff ff ff ff | Unknown
# The row has another ModRM byte
0f 1f c8 | Unknown
f3 0f 1e fb | Unknown
f3 48 0f ae e8 | Unknown
0f ae e9 | Unknown
0f 20 c0 | Unknown
0f 20 18 | Unknown
0f 22 d0 | Unknown
ff 38 | Unknown
c7 c8 | Unknown
8d c0 | Unknown
83 d0 01 | Unknown
f7 c8 | Unknown
0f ba f8 | Unknown
# Another REX byte than SYSRETQ and IRETQ have
0f 07 | Unknown
49 0f 07 | Unknown
cf | Unknown
49 cf | Unknown
# REX.W where the row has no width by it
48 0f 1f 00 | Unknown
48 0f 20 d8 | Unknown
48 f6 c0 01 | Unknown
48 68 ff ff ff ff | Unknown
48 6a ff | Unknown
48 50 | Unknown
48 ff 30 | Unknown
48 8f 00 | Unknown
48 9c | Unknown
48 0f 80 00 00 00 00 | Unknown
48 e8 00 00 00 00 | Unknown
48 c3 | Unknown
# REX.R, REX.X or REX.B without the field that it extends
42 0f 1f 00 | Unknown
44 0f 1f 00 | Unknown
41 90 | Unknown
44 0f 20 d8 | Unknown
f3 4a 0f ae c8 | Unknown
41 a9 05 00 00 00 | Unknown
42 50 | Unknown
4a 89 c0 | Unknown
42 b8 | Unknown
44 f7 c0 | Unknown
44 0f ba e0 00 | Unknown
44 0f | Unknown
44 42 | Unknown
# A REX byte with no bit in use where the row has no register
40 90 | Unknown
f3 40 0f ae c8 | Unknown
40 a8 05 | Unknown
40 70 | Unknown
# A register's byte that only a REX byte names
f6 c4 01 | Unknown
# 65 without a memory operand, before LEA and NOP, twice, or after REX
65 0f 01 f8 | Unknown
65 00 | Unknown
65 50 | Unknown
65 8d 00 | Unknown
65 0f 1f | Unknown
65 01 c0 | Unknown
65 0f ba e0 00 | Unknown
65 66 | Unknown
65 89 c0 | Unknown
48 65 48 89 | Unknown
65 65 48 8b 00 | Unknown
48 65 | Unknown
# 66 and 2E where only NOP has them, and 66 after 2E or REX.W or REX.R after 66
66 66 90 | Unknown
2e 90 | Unknown
66 2e 90 | Unknown
2e 66 0f 1f 00 | Unknown
66 2e 66 | Unknown
2e 2e | Unknown
66 48 | Unknown
66 44 | Unknown
66 39 c0 fa | Unknown
# F0 and F3 where no row has them
f3 90 | Unknown
f3 0f ae c8 | Unknown
f0 87 00 | Unknown
f3 4c | Unknown
";

/// How many bytes 66, the bytes after them, and the length of the NOP or the fault.
const PADDED: &str = "\
# Prefixes alone
2 | - | Short
b | - | Short
c | - | Short
d | - | TooLong
f | - | TooLong
14 | - | TooLong
# With a REX byte or 2E
b | 41 | Short
b | 42 | TooLong
a | 42 | Short
c | 40 | TooLong
b | 2e | Short
c | 2e | TooLong
# With an opcode's first bytes
c | 0f | Short
c | 0f 1f | Short
14 | 0f | TooLong
c | 90 | Unknown
c | 50 | Unknown
c | 0f 1f 08 | Unknown
14 | 90 | Unknown
# With a ModRM byte that asks for more
c | 0f 1f 40 | TooLong
c | 0f 1f 44 | TooLong
c | 0f 1f 04 | TooLong
b | 0f 1f 04 | Short
b | 0f 1f 04 25 | TooLong
b | 0f 1f 44 | TooLong
b | 0f 1f 05 | TooLong
a | 0f 1f 44 00 | Short
a | 0f 1f 80 | TooLong
a | 0f 1f 05 | TooLong
# With a whole spelling
c | 0f 1f 00 | f
b | 0f 1f 04 00 | f
b | 0f 1f 40 00 | f
a | 0f 1f 44 00 00 | f
7 | 0f 1f 84 00 00 00 00 00 | f
b | 41 0f 1f 00 | f
a | 42 0f 1f 04 00 | f
b | 2e 0f 1f 00 | f
a | 2e 41 0f 1f 00 | f
b | 42 0f 1f 04 00 | TooLong
9 | 0f 1f 80 00 00 00 00 | TooLong
14 | 0f 1f 00 | TooLong
";

/// What a column says of the decoder's answer: `Short`, `Unknown`, `TooLong`, or a NOP's length.
fn is_answer(found: Result<(Insn, u8), DecodeFault>, column: &str) -> bool {
    match found {
        Ok((Insn::Nop, len)) => Ok(len) == u8::from_str_radix(column, 16),
        Ok(_) => false,
        Err(DecodeFault::Short) => column == "Short",
        Err(DecodeFault::Unknown) => column == "Unknown",
        Err(DecodeFault::TooLong) => column == "TooLong",
    }
}

#[test]
fn bytes_have_the_lengths_and_texts_of_the_table(rt: HostRuntime) -> Result<(), Fail> {
    for line in ROWS.lines() {
        let Some(mut case) = case_of(line) else {
            continue
        };
        let bytes = case.bytes(rt.alloc())?;
        let at = case.number()?;
        let len = case.number()?;
        match decode(&bytes, at) {
            Ok((insn, found)) => {
                assert_eq!(rt; u64::from(found), len, "{line}");
                assert!(rt; has_text(rt.alloc(), &insn, case.text()), "{line}");
                assert!(rt; insn.encodable(), "{line}");
            }
            Err(fault) => assert_eq!(rt; Some(fault), None, "{line}"),
        }
    }
    Ok(())
}

#[test]
fn beginnings_are_short_and_other_bytes_unknown(rt: HostRuntime) -> Result<(), Fail> {
    for line in REFUSED.lines() {
        let Some(mut case) = case_of(line) else {
            continue
        };
        let bytes = case.bytes(rt.alloc())?;
        assert!(rt; is_answer(decode(&bytes, AT), case.text()), "{line}");
    }
    Ok(())
}

#[test]
fn a_nop_with_prefixes_has_at_most_fifteen_bytes(rt: HostRuntime) -> Result<(), Fail> {
    for line in PADDED.lines() {
        let Some(mut case) = case_of(line) else {
            continue
        };
        let prefixes = case.number()?;
        let mut bytes = Vec::new(rt.alloc());
        for _ in 0..prefixes {
            bytes.push(0x66)?;
        }
        bytes.extend_from_slice(&case.bytes(rt.alloc())?)?;
        assert!(rt; is_answer(decode(&bytes, AT), case.text()), "{line}");
    }
    Ok(())
}
