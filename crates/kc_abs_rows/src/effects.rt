//! What is known after each instruction, by outside cases.

use crate::table::{Kind, compare};
use std::test::Fail;

/// At least two cases of each instruction.
const EFFECTS: &str = "\
# moves
s1 | sysu/UK/U/-/- | ready rbx=e3:z0x7 | 0xffffffff81000031 4889d8 mov rax, rbx -> falls ; rax=e3:z0x7
s1 | sysu/UK/U/-/- | ready rbx=e3:z0x7 | 0xffffffff81000031 89d8 mov eax, ebx -> falls ; rax=plain:z0xffffffff00000007
s1 | sysu/UK/U/-/- | ready rbx=e3:z0x7 | 0xffffffff81000031 89db mov ebx, ebx -> falls ; rbx=plain:z0xffffffff00000007
s1 | sysu/UK/U/-/- | ready rax=ugs rbx==0xffffffff83005f00 | 0xffffffff81000031 4887d8 xchg rax, rbx -> falls ;
  rax==0xffffffff83005f00 rbx=ugs
s1 | sysu/UK/U/-/- | ready rax=ugs rbx==0xffffffff83005f00 | 0xffffffff81000031 87d8 xchg eax, ebx -> falls ;
  rax==0x83005f00 rbx=plain:z0xffffffff00000000
s1 | sysu/UK/U/-/- | ready rax=ugs rbx==0xffffffff83005f00 | 0xffffffff81000031 4887c0 xchg rax, rax -> falls ; -
s1 | 14k/KU/K/0/- | ready rax=b-0x8:s0x1 rbx=e17 rsp=b-0x28:s0x1 | 0xffffffff81000031 89c3 mov ebx, eax -> falls ;
  rbx=plain:z0xffffffff00000000
s1 | 14k/KU/K/0/- | ready rax=b-0x8:s0x1 rbx=e17 rsp=b-0x28:s0x1 | 0xffffffff81000031 4889e5 mov rbp, rsp -> falls ;
  rbp=b-0x28:s0x1

# stack
s1 | sysu/UK/U/-/- | ready rax=e0 | 0xffffffff81000031 50 push rax -> falls ; rsp==0xffffffff83005ef8 s136=e0
s1 | sysu/UK/U/-/- | ready rax=e0 | 0xffffffff81000031 54 push rsp -> falls ; rsp==0xffffffff83005ef8
  s136==0xffffffff83005f00
s1 | sysu/UK/U/-/- | ready rax=e0 | 0xffffffff81000031 6a2b push 0x2b -> falls ; rsp==0xffffffff83005ef8 s136==0x2b
s1 | sysu/UK/U/-/- | ready rax=e0 | 0xffffffff81000031 58 pop rax -> falls ; rax=top rsp==0xffffffff83005f08
s1 | sysu/UK/U/-/- | ready rax=e0 | 0xffffffff81000031 5c pop rsp -> falls ; rsp=top
s1 | sysu/UK/U/-/- | ready rax=e0 | 0xffffffff81000031 9c pushfq -> falls ; rsp==0xffffffff83005ef8
  s136=plain:z0xffffffffffdbf028:o0x2
s1 | sysu/UK/U/-/- | ready rax=e0 | 0xffffffff81000031 8f442408 pop [rsp+0x8] -> falls ; rsp==0xffffffff83005f08
s1 | sysu/UK/U/-/- | fixed rsp==0xffffffff83005fe0 flags=e17:z0xffffffffffdbf028:o0x202 s9=e9 s107=e4:s0x10000 |
  0xffffffff81000031 65ff342508080000 push gs:[0x808] -> falls ; rsp==0xffffffff83005fd8 s108=e9
s1 | sysu/UK/U/-/- | fixed rsp==0xffffffff83005fe0 flags=e17:z0xffffffffffdbf028:o0x202 s9=e9 s107=e4:s0x10000 |
  0xffffffff81000031 5c pop rsp -> falls ; rsp=e4:s0x10000
s1 | 14k/KU/K/0/- | ready rax=e0 rsp=b-0x28:s0x1 s43=e18 s44=e16 s45=e0 s104=e7 | 0xffffffff81000031 9c pushfq ->
  falls ; rsp=b-0x30:s0x1 s45=plain:z0xffffffffffdbf028:o0x2 s104=top
s1 | 14k/KU/K/0/- | ready rax=e0 rsp=b-0x28:s0x1 s43=e18 s44=e16 s45=e0 s104=e7 | 0xffffffff81000031 9d popfq -> falls
  ; rsp=b-0x20:s0x1
s1 | 14k/KU/K/0/- | ready rax=e0 rsp=b-0x28:s0x1 s43=e18 s44=e16 s45=e0 s104=e7 | 0xffffffff81000031 4883c408 add rsp,
  0x8 -> falls ; rsp=b-0x20:s0x1
s1 | 2k/KU/K/1/0xffffffff84006000 | ready rsp==0xffffffff84005fd8 f1=0xffffffff84001fd8 f3=0xffffffff84005fd8 s44=e16
  | 0xffffffff81000031 9c pushfq -> falls ; rsp==0xffffffff84005fd0 s45=plain:z0xffffffffffdbf028:o0x2
s1 | sysu/UK/U/-/- | ready rsp==0xffffffff83005ff8 s104=plain:z0xfffffffffffffdfd:o0x202 | 0xffffffff81000031 9d popfq
  -> falls ; rsp==0xffffffff83006000 flags==0x202
s1 | sysu/UK/U/-/- | ready rsp==0xffffffff83005ff8 s104==0xffffffffffffffff | 0xffffffff81000031 9d popfq -> falls ;
  rsp==0xffffffff83006000 flags==0x240fd7

# addresses and lea
s1 | 14k/KU/K/0/- | ready rax=e0 rcx=plain:z0xfffffffffffffff8 rbx==0x1000 rsp=b-0x28:s0x1 | 0xffffffff81000031
  488d442420 lea rax, [rsp+0x20] -> falls ; rax=b-0x8:s0x1
s1 | 14k/KU/K/0/- | ready rax=e0 rcx=plain:z0xfffffffffffffff8 rbx==0x1000 rsp=b-0x28:s0x1 | 0xffffffff81000031
  488d442430 lea rax, [rsp+0x30] -> falls ; rax=b+0x8
s1 | 14k/KU/K/0/- | ready rax=e0 rcx=plain:z0xfffffffffffffff8 rbx==0x1000 rsp=b-0x28:s0x1 | 0xffffffff81000031
  488d4424f8 lea rax, [rsp-0x8] -> falls ; rax=b-0x30
s1 | 14k/KU/K/0/- | ready rax=e0 rcx=plain:z0xfffffffffffffff8 rbx==0x1000 rsp=b-0x28:s0x1 | 0xffffffff81000031
  488d44dbf8 lea rax, [rbx+rbx*8-0x8] -> falls ; rax==0x8ff8
s1 | sysu/UK/U/-/- | fixed rcx=plain:z0xfffffffffffffff7 rbx==0x800 | 0xffffffff81000031 65488b040b mov rax,
  gs:[rbx+rcx] -> fails C7
s1 | sysu/UK/U/-/- | fixed rcx=plain:z0xfffffffffffffff7 rbx==0x800 | 0xffffffff81000031 488b04cb mov rax, [rbx+rcx*8]
  -> fails C7
s1 | sysu/UK/U/-/- | fixed rcx=plain:z0xfffffffffffffff7 rbx==0x800 | 0xffffffff81000031 65488b05f8ffffff mov rax,
  gs:[rip-0x8] -> fails C7
s1 | sysu/UK/U/-/- | ready rax==0xffffffff82002000 rbx==0x101 | 0xffffffff81000031 8b4c98fc mov ecx, [rax+rbx*4-0x4]
  -> falls ; rcx=plain:z0xffffffff00000000

# adding to a base
s1 | 14k/KU/K/0/- | ready rax=b-0x8:s0x1 rcx=e1 rbx==0x28 rsp=b-0x28:s0x1 | 0xffffffff81000031 4883c408 add rsp, 0x8
  -> falls ; rsp=b-0x20:s0x1
s1 | 14k/KU/K/0/- | ready rax=b-0x8:s0x1 rcx=e1 rbx==0x28 rsp=b-0x28:s0x1 | 0xffffffff81000031 4883ec08 sub rsp, 0x8
  -> falls ; rsp=b-0x30
s1 | 14k/KU/K/0/- | ready rax=b-0x8:s0x1 rcx=e1 rbx==0x28 rsp=b-0x28:s0x1 | 0xffffffff81000031 4801d8 add rax, rbx ->
  falls ; rax=b+0x20
s1 | 14k/KU/K/0/- | ready rax=b-0x8:s0x1 rcx=e1 rbx==0x28 rsp=b-0x28:s0x1 | 0xffffffff81000031 4881e800000080 sub rax,
  -0x80000000 -> falls ; rax=b+0x7ffffff8
s1 | 14k/KU/K/0/- | ready rax=b-0x8:s0x1 rcx=e1 rbx==0x28 rsp=b-0x28:s0x1 | 0xffffffff81000031 4831c0 xor rax, rax ->
  falls ; rax==0x0 flags=plain:z0xffffffffffdbf8a9:o0x46
s1 | 14k/KU/K/0/- | ready rax=b-0x8:s0x1 rcx=e1 rbx==0x28 rsp=b-0x28:s0x1 | 0xffffffff81000031 31c9 xor ecx, ecx ->
  falls ; rcx==0x0 flags=plain:z0xffffffffffdbf8a9:o0x46
s1 | 14k/KU/K/0/- | ready rax=b-0x20:s0x1 rsp=b-0x28:s0x1 s42==0x18 s43=b-0x8:s0x1 | 0xffffffff81000031 4883cc08 or
  rsp, 0x8 -> falls ; rsp=plain:o0x8 flags=plain:z0xffffffffffdbf869:o0x2

# arithmetic
s1 | sysu/UK/U/-/- | ready rax==0x5 rbx==0x7 | 0xffffffff81000031 4801d8 add rax, rbx -> falls ; rax==0xc
  flags=plain:z0xffffffffffdbf8f9:o0x6
s1 | sysu/UK/U/-/- | ready rax==0x5 rbx==0x7 | 0xffffffff81000031 4829d8 sub rax, rbx -> falls ;
  rax==0xfffffffffffffffe flags=plain:z0xffffffffffdbf86c:o0x93
s1 | sysu/UK/U/-/- | ready rax==0x5 rbx==0x7 | 0xffffffff81000031 4821d8 and rax, rbx -> falls ;
  flags=plain:z0xffffffffffdbf8e9:o0x6
s1 | sysu/UK/U/-/- | ready rax==0x5 rbx==0x7 | 0xffffffff81000031 4839d8 cmp rax, rbx -> falls ;
  flags=plain:z0xffffffffffdbf86c:o0x93
s1 | sysu/UK/U/-/- | ready rax==0x5 rbx==0x7 | 0xffffffff81000031 4885d8 test rax, rbx -> falls ;
  flags=plain:z0xffffffffffdbf8e9:o0x6
s1 | sysu/UK/U/-/- | ready rax==0x5 rbx==0x7 | 0xffffffff81000031 01d8 add eax, ebx -> falls ; rax==0xc
  flags=plain:z0xffffffffffdbf8f9:o0x6
s1 | sysu/UK/U/-/- | ready rax==0x5 rbx==0x7 | 0xffffffff81000031 f6c002 test al, 0x2 -> falls ;
  flags=plain:z0xffffffffffdbf8a9:o0x46
s1 | sysu/UK/U/-/- | ready rax==0xffffffffffffffff rbx==0x8000000000000000 | 0xffffffff81000031 4883c001 add rax, 0x1
  -> falls ; rax==0x0 flags=plain:z0xffffffffffdbf8a8:o0x57
s1 | sysu/UK/U/-/- | ready rax==0xffffffffffffffff rbx==0x8000000000000000 | 0xffffffff81000031 4883fb01 cmp rbx, 0x1
  -> falls ; flags=plain:z0xffffffffffdbf0e9:o0x816
s1 | sysu/UK/U/-/- | ready rax==0xffffffffffffffff rbx==0x8000000000000000 | 0xffffffff81000031 83f8ff cmp eax,
  0xffffffff -> falls ; flags=plain:z0xffffffffffdbf8b9:o0x46
s1 | sysu/UK/U/-/- | ready rax==0xffffffffffffffff rbx==0x8000000000000000 | 0xffffffff81000031 4883f0ff xor rax, -0x1
  -> falls ; rax==0x0 flags=plain:z0xffffffffffdbf8a9:o0x46
s1 | sysu/UK/U/-/- | ready rax==0xffffffffffffffff rbx==0x8000000000000000 | 0xffffffff81000031 4885db test rbx, rbx
  -> falls ; flags=plain:z0xffffffffffdbf869:o0x86
s1 | sysu/UK/U/-/- | ready rax==0xffffffffffffffff rbx==0x8000000000000000 | 0xffffffff81000031 83cb00 or ebx, 0x0 ->
  falls ; rbx==0x0 flags=plain:z0xffffffffffdbf8a9:o0x46
s1 | sysu/UK/U/-/- | ready rax=plain:z0xffffffff00000000 rbx=plain:z0xf:o0x10 | 0xffffffff81000031 4829d8 sub rax, rbx
  -> falls ; rax=top
s1 | sysu/UK/U/-/- | ready rax=plain:z0xffffffff00000000 rbx=plain:z0xf:o0x10 | 0xffffffff81000031 4881e0ff000000 and
  rax, 0xff -> falls ; rax=plain:z0xffffffffffffff00 flags=plain:z0xffffffffffdbf8a9:o0x2
s1 | sysu/UK/U/-/- | ready rax=plain:z0xffffffff00000000 rbx=plain:z0xf:o0x10 | 0xffffffff81000031 4883e3f0 and rbx,
  -0x10 -> falls ; flags=plain:z0xffffffffffdbf869:o0x2
s1 | sysu/UK/U/-/- | ready rdx=plain:o0x80000000 rbx=e3:o0x8000000000000000 flags==0x2 | 0xffffffff81000031 4829d3 sub
  rbx, rdx -> falls ; rbx=top flags=plain:z0xfffffffffffff728:o0x2
s1 | sysu/UK/U/-/- | ready rcx=e1 rbx=plain:z0xffffffff00000000:o0x1 flags=plain:o0xad5 | 0xffffffff81000031 31c9 xor
  ecx, ecx -> falls ; rcx==0x0 flags=plain:z0x881:o0x244
s1 | sysu/UK/U/-/- | fixed rax==0xff rcx=e1 | 0xffffffff81000031 654809042500080000 or gs:[0x800], rax -> falls ;
  flags=plain:z0xffffffffffdbf8e9:o0x6 s8==0xff

# bits
s1 | sysu/UK/U/-/- | ready rax==0x5 rcx=e1 rbx=plain:o0x4 flags=plain:z0xffffffffffdbf028:o0xad7 | 0xffffffff81000031
  480fbae000 bt rax, 0x0 -> falls ; flags=plain:z0xffffffffffdbf028:o0x243
s1 | sysu/UK/U/-/- | ready rax==0x5 rcx=e1 rbx=plain:o0x4 flags=plain:z0xffffffffffdbf028:o0xad7 | 0xffffffff81000031
  480fbae041 bt rax, 0x41 -> falls ; flags=plain:z0xffffffffffdbf029:o0x242
s1 | sysu/UK/U/-/- | ready rax==0x5 rcx=e1 rbx=plain:o0x4 flags=plain:z0xffffffffffdbf028:o0xad7 | 0xffffffff81000031
  480fbae83f bts rax, 0x3f -> falls ; rax==0x8000000000000005 flags=plain:z0xffffffffffdbf029:o0x242
s1 | sysu/UK/U/-/- | ready rax==0x5 rcx=e1 rbx=plain:o0x4 flags=plain:z0xffffffffffdbf028:o0xad7 | 0xffffffff81000031
  0fbaeb1f bts ebx, 0x1f -> falls ; rbx=plain:z0xffffffff00000000:o0x80000004 flags=plain:z0xffffffffffdbf028:o0x242
s1 | sysu/UK/U/-/- | ready rax==0x5 rcx=e1 rbx=plain:o0x4 flags=plain:z0xffffffffffdbf028:o0xad7 | 0xffffffff81000031
  0fbaf302 btr ebx, 0x2 -> falls ; rbx=plain:z0xffffffff00000004 flags=plain:z0xffffffffffdbf028:o0x243

# spaces
s1 | sysu/UK/U/-/- | ready | 0xffffffff81000031 0f01f8 swapgs -> falls ; gs=UK
s1 | sysu/UK/U/-/- | ready gs=UK | 0xffffffff81000031 0f01f8 swapgs -> falls ; gs=KU
s1 | sysu/UK/U/-/- | ready gs=KK | 0xffffffff81000031 0f01f8 swapgs -> falls ; -
s1 | sysu/UK/U/-/- | ready rcx==0xc0000101 | 0xffffffff81000031 f3480faecc rdgsbase rsp -> falls ;
  rsp==0xffffffff82002000
s1 | sysu/UK/U/-/- | ready rcx==0xc0000102 | 0xffffffff81000031 0f32 rdmsr -> falls ; rax=plain:z0xffffffff00000000
  rdx=plain:z0xffffffffffff8000
s1 | sysu/UK/U/-/- | ready rcx==0xc0000101 gs=UK | 0xffffffff81000031 0f32 rdmsr -> falls ;
  rax=plain:z0xffffffff00000000 rdx=plain:z0xffffffffffff8000
x1 | sysu/UK/U/-/- | ready rcx==0xc0000101 gs=UK | 0xffffffff81000031 f3480faecb rdgsbase rbx -> falls ; rbx=ugs
x1 | sysu/UK/U/-/- | ready rcx==0xc0000102 gs=UK | 0xffffffff81000031 0f32 rdmsr -> falls ; rax==0x82002000
  rdx==0xffffffff
s1 | sysu/UK/U/-/- | ready rax=e0 rcx==0x17a | 0xffffffff81000031 0f32 rdmsr -> falls ; rax==0x0 rdx==0x0
s1 | sysu/UK/U/-/- | ready rax==0x82002000 rcx==0xc0000101 rdx==0xffffffff | 0xffffffff81000031 0f30 wrmsr -> falls ;
  -
s1 | sysu/UK/U/-/- | ready rax==0xffffffff82002000 rcx==0xc0000101 rdx==0xffffffffffffffff | 0xffffffff81000031 0f30
  wrmsr -> falls ; -
s1 | sysu/UK/U/-/- | ready rax=e0 rcx==0xc0000101 rdx==0x7000 | 0xffffffff81000031 0f30 wrmsr -> falls ; gs=AU
s1 | sysu/UK/U/-/- | ready rax=ugs rcx==0xc0000101 rdx=plain:z0xffff8000 | 0xffffffff81000031 0f30 wrmsr -> falls ;
  gs=AU
s1 | sysu/UK/U/-/- | ready rax==0xffffffff82002000 rcx=e1:z0xffff800000000000 rdx==0x7000 rbx=ugs | 0xffffffff81000031
  f3480faed8 wrgsbase rax -> falls ; -
s1 | sysu/UK/U/-/- | ready rax==0xffffffff82002000 rcx=e1:z0xffff800000000000 rdx==0x7000 rbx=ugs | 0xffffffff81000031
  f3480faedb wrgsbase rbx -> falls ; gs=UU
s1 | sysu/UK/U/-/- | ready rax==0xffffffff82002000 rcx=e1:z0xffff800000000000 rdx==0x7000 rbx=ugs | 0xffffffff81000031
  f3480faed9 wrgsbase rcx -> falls ; gs=AU
s1 | sysu/UK/U/-/- | ready rsp==0xffffffff84001f00 map=U | 0xffffffff81000031 0f20d8 mov rax, cr3 -> falls ;
  rax==0x1001000
s1 | sysu/UK/U/-/- | ready rsp==0xffffffff84001f00 map=U | 0xffffffff81000031 0f20dc mov rsp, cr3 -> falls ;
  rsp==0x1001000
s1 | sysu/UK/U/-/- | ready | 0xffffffff81000031 0f20d8 mov rax, cr3 -> falls ; rax==0x1000000
s1 | sysu/UK/U/-/- | ready rax==0x1000000 rcx==0x8000000001001000 rdx==0x8000000001000000 rbx==0x1001000 |
  0xffffffff81000031 0f22d9 mov cr3, rcx -> falls ; map=U
s1 | sysu/UK/U/-/- | ready rax==0x1000000 rsp=e4:s0x10000 map=U | 0xffffffff81000031 58 pop rax -> fails C7

# flags and gaps
s1 | sysu/UK/U/-/- | ready flags=plain:z0x200 | 0xffffffff81000031 fb sti -> falls ; flags=plain:o0x200 latch=NYN
s1 | sysu/UK/U/-/- | ready flags=plain:z0x200 | 0xffffffff81000031 fa cli -> falls ; -
s1 | sysu/UK/U/-/- | ready flags=plain:o0x200 latch=NYN | 0xffffffff81000031 fb sti -> falls ; latch=NNN
s1 | sysu/UK/U/-/- | ready flags=plain:o0x2 latch=NAN | 0xffffffff81000031 fa cli -> falls ; flags=plain:z0x200:o0x2
  latch=NNN
s1 | sysu/UK/U/-/- | ready flags=e17:z0xffffffffffdbf028:o0x2 latch=NYY | 0xffffffff81000031 90 nop -> falls ;
  latch=NNY
s1 | sysu/UK/U/-/- | ready flags=e17:z0xffffffffffdbf028:o0x2 latch=NYY | 0xffffffff81000031 f30f1efa endbr64 -> falls
  ; latch=NNY
s1 | sysu/UK/U/-/- | ready flags=e17:z0xffffffffffdbf028:o0x2 latch=NYY | 0xffffffff81000031 0f01ca clac -> falls ;
  flags=plain:z0xffffffffffdff028:o0x2 latch=NNY
s1 | sysu/UK/U/-/- | ready flags=e17:z0xffffffffffdbf028:o0x2 latch=NYY | 0xffffffff81000031 0f01cb stac -> falls ;
  flags=plain:z0xffffffffffdbf028:o0x40002 latch=NNY
s1 | sysu/UK/U/-/- | ready flags=e17:z0xffffffffffdbf028:o0x2 latch=NYY | 0xffffffff81000031 9c pushfq -> falls ;
  rsp==0xffffffff83005ef8 latch=NNY s136=e17:z0xffffffffffdbf028:o0x2
s1 | sysu/UK/U/-/- | ready flags==0x202 | 0xffffffff81000031 0f01ca clac -> falls ; -
s1 | sysu/UK/U/-/- | ready flags==0x202 | 0xffffffff81000031 0f01cb stac -> falls ; flags==0x40202

# jumps
s1 | sysu/UK/U/-/- | ready flags=plain:z0x40 | 0xffffffff81000031 0f84c9000000 jz 0xffffffff81000100 -> falls ; -
s1 | sysu/UK/U/-/- | ready flags=plain:z0x40 | 0xffffffff81000031 0f85c9000000 jnz 0xffffffff81000100 -> jumps
  0xffffffff81000100 ; -
s1 | sysu/UK/U/-/- | ready flags=plain:z0x40 | 0xffffffff81000031 0f87c9000000 ja 0xffffffff81000100 -> branches
  0xffffffff81000100 ; -
s1 | sysu/UK/U/-/- | ready flags=plain:z0x40 | 0xffffffff81000031 e9ca000000 jmp 0xffffffff81000100 -> jumps
  0xffffffff81000100 ; -
s1 | sysu/UK/U/-/- | ready flags=plain:z0x40 | 0xffffffff81000031 e9caffff80 jmp 0xffffffff02000000 -> jumps
  0xffffffff02000000 ; -
s1 | sysu/UK/U/-/- | ready flags=plain:z0x800:o0x1 | 0xffffffff81000031 0f82c9000000 jb 0xffffffff81000100 -> jumps
  0xffffffff81000100 ; -
s1 | sysu/UK/U/-/- | ready flags=plain:z0x800:o0x1 | 0xffffffff81000031 0f86c9000000 jbe 0xffffffff81000100 -> jumps
  0xffffffff81000100 ; -
s1 | sysu/UK/U/-/- | ready flags=plain:z0x800:o0x1 | 0xffffffff81000031 0f80c9000000 jo 0xffffffff81000100 -> falls ;
  -
s1 | sysu/UK/U/-/- | ready flags=plain:z0x800:o0x1 | 0xffffffff81000031 0f81c9000000 jno 0xffffffff81000100 -> jumps
  0xffffffff81000100 ; -
s1 | sysu/UK/U/-/- | ready flags=plain:o0x880 | 0xffffffff81000031 0f89c9000000 jns 0xffffffff81000100 -> falls ; -
s1 | sysu/UK/U/-/- | ready flags=plain:o0x880 | 0xffffffff81000031 0f8cc9000000 jl 0xffffffff81000100 -> falls ; -
s1 | sysu/UK/U/-/- | ready flags=plain:o0x880 | 0xffffffff81000031 0f8dc9000000 jge 0xffffffff81000100 -> jumps
  0xffffffff81000100 ; -
s1 | sysu/UK/U/-/- | ready flags=plain:z0x844:o0x80 | 0xffffffff81000031 0f8cc9000000 jl 0xffffffff81000100 -> jumps
  0xffffffff81000100 ; -
s1 | sysu/UK/U/-/- | ready flags=plain:z0x844:o0x80 | 0xffffffff81000031 0f8dc9000000 jge 0xffffffff81000100 -> falls
  ; -
s1 | sysu/UK/U/-/- | ready flags=plain:z0x844:o0x80 | 0xffffffff81000031 0f8ec9000000 jle 0xffffffff81000100 -> jumps
  0xffffffff81000100 ; -
s1 | sysu/UK/U/-/- | ready flags=plain:z0x844:o0x80 | 0xffffffff81000031 0f8bc9000000 jnp 0xffffffff81000100 -> jumps
  0xffffffff81000100 ; -
s1 | sysu/UK/U/-/- | ready | 0xffffffff81000031 0f84fcffffff jz 0xffffffff81000033 -> branches 0xffffffff81000033 ; -
s1 | sysu/UK/U/-/- | ready | 0xffffffff81000031 e8ca000000 call 0xffffffff81000100 -> jumps 0xffffffff81000100 ;
  rsp==0xffffffff83005ef8 s136==0xffffffff81000036
s1 | sysu/UK/U/-/- | ready | 0xffffffff81000031 e800000000 call 0xffffffff81000036 -> jumps 0xffffffff81000036 ;
  rsp==0xffffffff83005ef8 s136==0xffffffff81000036
s1 | sysu/UK/U/-/- | ready | 0xffffffff81000031 c3 ret -> fails C7
s1 | sysu/UK/U/-/- | ready rsp==0xffffffff83005ff8 s104=e16:z0xffff800000000000 | 0xffffffff81000031 c3 ret -> fails
  C7

# more of each instruction
s2 | 14k/KU/K/0/- | entered rax=ugs rdx==0xffffffff83005ff0 rsp==0xffffffff83005fe8 r11=b-0x8:s0x1
  r12==0xffffffffffffffff latch=ANA f4=base s9=plain:z0xffffffffc8010662 s105=b-0x8:s0x1 s106=b-0x8:s0x1
  s108==0x400000 s110==0x8 | 0xffffffff81000031 0fba35d117000103 btr dword [rip+0x10017d1], 0x3 -> falls ; -
x1 | 14k/KU/K/0/- | ready rax==0xffffffff82002800 rbx=plain:z0xfffffffffffffc00:o0x3fe rsp=b-0xc0:s0x1 rsi=plain:z0xff
  r12==0xffffffff83005f90 latch=YAN f4=base s0=b-0x40:s0x1 s59==0x8 s61==0xffffffffffffffff s65==0x8
  s66=plain:z0xffff800000000000 | 0xffffffff81000031 fb sti -> falls ; flags=plain:z0xffffffffffdbf028:o0x202
s1 | 32k/KU/U/1/- | ready rax==0x400000 rsp=b-0x40:s0x2 r8==0xffffffff84001fe0 r11==0x1001000
  r12=e16:z0xffff800000000000 flags==0x46 map=U latch=NYN f0=0xffffffff83006000 f2=0xffffffff84004000
  f3=0xffffffff84006000 f4=0xffffffff84008000 s0=b-0x8:s0x2 s46=b-0x40:s0x2 s51==0x8 s52==0xffffffff82002800 |
  0xffffffff81000031 0f80c9000000 jo 0xffffffff81000100 -> falls ; latch=NNN
x1 | 14k/KU/K/0/- | ready rax=plain:z0x2c9672c9cb0144c0:o0xd3698d2634febb3f rbx==0xffffffff84001fe0
  rsp==0xffffffff83005e08 r8==0xffffffff82002000 r12==0x400000 flags=plain:z0x8c4:o0x1 latch=YYN s9=ugs
  s159==0x1000000 s163==0x1 s164==0xffffffff84001fe0 s165==0xffffffff83005e00 | 0xffffffff81000031 0f8ec9000000 jle
  0xffffffff81000100 -> falls ; latch=YNN
x1 | 14k/KU/K/0/- | ready rcx==0xffffffff82002000 rdx==0xffffffff83005e70 rsp=b-0x28:s0x1 rsi==0x1001000
  r12=b-0x8:s0x1 latch=AAA s0=plain:z0x8000000000000000:o0x3fffffffffffffff s42=b-0x8:s0x1
  s43=plain:z0xc3840439118e3599:o0x3c40fbc4ae008a62 s44=b-0x8:s0x1 s50==0xffffffff82002000 | 0xffffffff81000031 fa cli
  -> falls ; flags=plain:z0xffffffffffdbf228:o0x2 latch=ANA
x1 | sysu/UK/U/-/- | fixed rcx==0xffffffff82002808 rdx=b-0x28 rsp==0xffffffff83005f88 r12=b s0==0xffffffffffffffff
  s111=plain:z0x337827da27d7c007:o0xcc07d825d8283ff8 s115==0x0 s117==0xffffffff84001fe0 s122==0xffffffff82002800 |
  0xffffffff81000031 0fba350018000120 btr dword [rip+0x1001800], 0x20 -> falls ; -
x1 | 14k/UK/K/0/0xffffffff83005f00 | entered rdx=plain:o0xffff800000000000 rbx=plain:o0xffff800000000000
  rsp==0xffffffff83005e40 rsi=e16:z0xffff800000000000 r12==0x1001000 flags=plain:z0x8c4:o0x1 latch=NYA f2=base
  s8=b-0x28 s60==0xffffffff84001fe0 s69=plain:z0xffffffff2e242040 s154==0x1 | 0xffffffff81000031 fc cld -> falls ;
  flags=plain:z0xcc4:o0x1 latch=NNA
x1 | 14k/UK/K/0/0xffffffff83005f00 | ready rax==0xffffffff82002000 rcx==0xffffffff82002800 rsp==0xffffffff83005ff0
  rsi=b-0x40 r8==0x400000 flags==0x202 f3=base s9==0xffffffff82002000 s106==0xffffffff83005fe8
  s109==0xffffffff84001fe0 s110==0xffffffff82002800 s111=plain:z0xffffffffffffc000:o0x3ffe | 0xffffffff81000031 fc cld
  -> falls ; -
s1 | 14k/KU/K/0/- | fixed rbx=b:s0x1 rsp=b-0x40:s0x1 rsi=plain:z0x8000000000000000 r8=e16:z0xffff800000000000
  r12==0x1001000 flags=plain:z0x8c4:o0x1 gs=UK latch=AAA f1=0x0 s9==0x1 s41==0x8 s46==0xffffffff82002000
  s51==0xffffffff84001fe0 s54==0xffffffff83005f90 | 0xffffffff81000031 fc cld -> falls ; flags=plain:z0xcc4:o0x1
  latch=ANA

# each condition code: taken, not taken, open
s1 | sysu/UK/U/-/- | ready flags=plain:o0x83 | 0xffffffff81000031 0f80c9ffefff jo 0xffffffff80f00000 -> branches
  0xffffffff80f00000 ; -
s1 | sysu/UK/U/-/- | ready flags=plain:z0x800:o0x43 | 0xffffffff81000031 0f80c9ffefff jo 0xffffffff80f00000 -> falls ;
  -
s1 | sysu/UK/U/-/- | ready flags=plain:z0x4:o0x842 | 0xffffffff81000031 0f80c9ffefff jo 0xffffffff80f00000 -> jumps
  0xffffffff80f00000 ; -
s1 | sysu/UK/U/-/- | ready flags=plain:z0x1:o0x42 | 0xffffffff81000031 0f81c9000000 jno 0xffffffff81000100 -> branches
  0xffffffff81000100 ; -
s1 | sysu/UK/U/-/- | ready flags=plain:z0x804:o0xc3 | 0xffffffff81000031 0f81c9000000 jno 0xffffffff81000100 -> jumps
  0xffffffff81000100 ; -
s1 | sysu/UK/U/-/- | ready flags=plain:z0x44:o0x883 | 0xffffffff81000031 0f81c9000000 jno 0xffffffff81000100 -> falls
  ; -
s1 | sysu/UK/U/-/- | ready flags=plain:z0x1:o0x806 | 0xffffffff81000031 0f82c9000000 jb 0xffffffff81000100 -> falls ;
  -
s1 | sysu/UK/U/-/- | ready flags=plain:o0x86 | 0xffffffff81000031 0f82c9000000 jb 0xffffffff81000100 -> branches
  0xffffffff81000100 ; -
s1 | sysu/UK/U/-/- | ready flags=plain:z0x44:o0x3 | 0xffffffff81000031 0f82c9000000 jb 0xffffffff81000100 -> jumps
  0xffffffff81000100 ; -
s1 | sysu/UK/U/-/- | ready flags=plain:z0x40:o0x7 | 0xffffffff81000031 0f83c9ffefff jae 0xffffffff80f00000 -> falls ;
  -
s1 | sysu/UK/U/-/- | ready flags=plain:z0x800:o0xc6 | 0xffffffff81000031 0f83c9ffefff jae 0xffffffff80f00000 ->
  branches 0xffffffff80f00000 ; -
s1 | sysu/UK/U/-/- | ready flags=plain:z0x41:o0x802 | 0xffffffff81000031 0f83c9ffefff jae 0xffffffff80f00000 -> jumps
  0xffffffff80f00000 ; -
s1 | sysu/UK/U/-/- | ready flags=plain:z0x40:o0x803 | 0xffffffff81000031 0f84c9000000 jz 0xffffffff81000100 -> falls ;
  -
s1 | sysu/UK/U/-/- | ready flags=plain:z0x800:o0xc6 | 0xffffffff81000031 0f84c9000000 jz 0xffffffff81000100 -> jumps
  0xffffffff81000100 ; -
s1 | sysu/UK/U/-/- | ready flags=plain:z0x5:o0x802 | 0xffffffff81000031 0f84c9000000 jz 0xffffffff81000100 -> branches
  0xffffffff81000100 ; -
s1 | sysu/UK/U/-/- | ready flags=plain:z0x880:o0x7 | 0xffffffff81000031 0f85c9000000 jnz 0xffffffff81000100 ->
  branches 0xffffffff81000100 ; -
s1 | sysu/UK/U/-/- | ready flags=plain:z0x44:o0x83 | 0xffffffff81000031 0f85c9000000 jnz 0xffffffff81000100 -> jumps
  0xffffffff81000100 ; -
s1 | sysu/UK/U/-/- | ready flags=plain:z0x5:o0x8c2 | 0xffffffff81000031 0f85c9000000 jnz 0xffffffff81000100 -> falls ;
  -
s1 | sysu/UK/U/-/- | ready flags=plain:z0x45:o0x882 | 0xffffffff81000031 0f86c9ffefff jbe 0xffffffff80f00000 -> falls
  ; -
s1 | sysu/UK/U/-/- | ready flags=plain:z0x801:o0x82 | 0xffffffff81000031 0f86c9ffefff jbe 0xffffffff80f00000 ->
  branches 0xffffffff80f00000 ; -
s1 | sysu/UK/U/-/- | ready flags=plain:z0x44:o0x883 | 0xffffffff81000031 0f86c9ffefff jbe 0xffffffff80f00000 -> jumps
  0xffffffff80f00000 ; -
s1 | sysu/UK/U/-/- | ready flags=plain:z0x804:o0xc2 | 0xffffffff81000031 0f87c9000000 ja 0xffffffff81000100 -> falls ;
  -
s1 | sysu/UK/U/-/- | ready flags=plain:z0xc0:o0x2 | 0xffffffff81000031 0f87c9000000 ja 0xffffffff81000100 -> branches
  0xffffffff81000100 ; -
s1 | sysu/UK/U/-/- | ready flags=plain:z0x845:o0x82 | 0xffffffff81000031 0f87c9000000 ja 0xffffffff81000100 -> jumps
  0xffffffff81000100 ; -
s1 | sysu/UK/U/-/- | ready flags=plain:z0x5:o0x8c2 | 0xffffffff81000031 0f88c9000000 js 0xffffffff81000100 -> jumps
  0xffffffff81000100 ; -
s1 | sysu/UK/U/-/- | ready flags=plain:z0x80:o0x46 | 0xffffffff81000031 0f88c9000000 js 0xffffffff81000100 -> falls ;
  -
s1 | sysu/UK/U/-/- | ready flags=plain:z0x4:o0x803 | 0xffffffff81000031 0f88c9000000 js 0xffffffff81000100 -> branches
  0xffffffff81000100 ; -
s1 | sysu/UK/U/-/- | ready flags=plain:z0x800:o0x82 | 0xffffffff81000031 0f89c9ffefff jns 0xffffffff80f00000 -> falls
  ; -
s1 | sysu/UK/U/-/- | ready flags=plain:z0x8c4:o0x3 | 0xffffffff81000031 0f89c9ffefff jns 0xffffffff80f00000 -> jumps
  0xffffffff80f00000 ; -
s1 | sysu/UK/U/-/- | ready flags=plain:z0x804:o0x2 | 0xffffffff81000031 0f89c9ffefff jns 0xffffffff80f00000 ->
  branches 0xffffffff80f00000 ; -
s1 | sysu/UK/U/-/- | ready flags=plain:z0x880:o0x2 | 0xffffffff81000031 0f8ac9000000 jp 0xffffffff81000100 -> branches
  0xffffffff81000100 ; -
s1 | sysu/UK/U/-/- | ready flags=plain:z0x5:o0x42 | 0xffffffff81000031 0f8ac9000000 jp 0xffffffff81000100 -> falls ; -
s1 | sysu/UK/U/-/- | ready flags=plain:z0x801:o0x46 | 0xffffffff81000031 0f8ac9000000 jp 0xffffffff81000100 -> jumps
  0xffffffff81000100 ; -
s1 | sysu/UK/U/-/- | ready flags=plain:z0x5:o0x42 | 0xffffffff81000031 0f8bc9000000 jnp 0xffffffff81000100 -> jumps
  0xffffffff81000100 ; -
s1 | sysu/UK/U/-/- | ready flags=plain:z0x1:o0x886 | 0xffffffff81000031 0f8bc9000000 jnp 0xffffffff81000100 -> falls ;
  -
s1 | sysu/UK/U/-/- | ready flags=plain:z0x841:o0x2 | 0xffffffff81000031 0f8bc9000000 jnp 0xffffffff81000100 ->
  branches 0xffffffff81000100 ; -
s1 | sysu/UK/U/-/- | ready flags=plain:z0x80:o0x47 | 0xffffffff81000031 0f8cc9ffefff jl 0xffffffff80f00000 -> branches
  0xffffffff80f00000 ; -
s1 | sysu/UK/U/-/- | ready flags=plain:z0x1:o0x8c6 | 0xffffffff81000031 0f8cc9ffefff jl 0xffffffff80f00000 -> falls ;
  -
s1 | sysu/UK/U/-/- | ready flags=plain:z0x85:o0x802 | 0xffffffff81000031 0f8cc9ffefff jl 0xffffffff80f00000 -> jumps
  0xffffffff80f00000 ; -
s1 | sysu/UK/U/-/- | ready flags=plain:z0x880:o0x42 | 0xffffffff81000031 0f8dc9000000 jge 0xffffffff81000100 -> jumps
  0xffffffff81000100 ; -
s1 | sysu/UK/U/-/- | ready flags=plain:z0x801:o0xc2 | 0xffffffff81000031 0f8dc9000000 jge 0xffffffff81000100 -> falls
  ; -
s1 | sysu/UK/U/-/- | ready flags=plain:z0x80:o0x3 | 0xffffffff81000031 0f8dc9000000 jge 0xffffffff81000100 -> branches
  0xffffffff81000100 ; -
s1 | sysu/UK/U/-/- | ready flags=plain:z0x5:o0x42 | 0xffffffff81000031 0f8ec9000000 jle 0xffffffff81000100 -> jumps
  0xffffffff81000100 ; -
s1 | sysu/UK/U/-/- | ready flags=plain:z0x44:o0x3 | 0xffffffff81000031 0f8ec9000000 jle 0xffffffff81000100 -> branches
  0xffffffff81000100 ; -
s1 | sysu/UK/U/-/- | ready flags=plain:z0x40:o0x887 | 0xffffffff81000031 0f8ec9000000 jle 0xffffffff81000100 -> falls
  ; -
s1 | sysu/UK/U/-/- | ready flags=plain:z0x1:o0x8c6 | 0xffffffff81000031 0f8fc9ffefff jg 0xffffffff80f00000 -> falls ;
  -
s1 | sysu/UK/U/-/- | ready flags=plain:z0x1:o0x886 | 0xffffffff81000031 0f8fc9ffefff jg 0xffffffff80f00000 -> branches
  0xffffffff80f00000 ; -
s1 | sysu/UK/U/-/- | ready flags=plain:z0x8c0:o0x3 | 0xffffffff81000031 0f8fc9ffefff jg 0xffffffff80f00000 -> jumps
  0xffffffff80f00000 ; -
";

/// Calls of handlers, and their ends.
const CALLS: &str = "\
# calls of handlers
s1 | sysu/UK/U/-/- | fixed rax=e0 rcx=e1 s120=e3 s135=e16 s136=e17 | 0xffffffff81000031 e8caff7f00 call
  0xffffffff81800000 -> calls 0 ; rsp==0xffffffff83005ef8 s136==0xffffffff81000036
s1 | sysu/UK/U/-/- | fixed rax=e0 rcx=e1 s120=e3 s135=e16 s136=e17 | 0xffffffff81000031 e8daff7f00 call
  0xffffffff81800010 -> calls 1 ; rsp==0xffffffff83005ef8 s136==0xffffffff81000036
x1 | sysu/UK/U/-/- | ready rsp==0xffffffff83005fe0 s104=e3 s107=e4 s108=e16 s109=e5 s111=e17 s112=e18 s113=e19 s120=e6
  | 0xffffffff81000031 e8faff7f00 call 0xffffffff81800030 -> calls 3 ; rsp==0xffffffff83005fd8
  s108==0xffffffff81000036 s109=top s111=top s112=top s113=top
x1 | sysu/UK/U/-/- | ready rsp==0xffffffff83005fe0 s104=e3 s107=e4 s108=e16 s109=e5 s111=e17 s112=e18 s113=e19 s120=e6
  | 0xffffffff81000031 e81a008000 call 0xffffffff81800050 -> calls 5 ; rsp==0xffffffff83005fd8
  s108==0xffffffff81000036 s109=top s111=top
s1 | 14k/KU/K/0/- | ready rsp=b-0x28:s0x1 f0=base s9==0x5 s40=e19 s44=e16 s45=e0 s46=e1 s103=e2 s104=e3 |
  0xffffffff81000031 e8eaff7f00 call 0xffffffff81800020 -> calls 2 ; rsp=b-0x30:s0x1 s45==0xffffffff81000036 s46=top
  s103=top s104=top
x1 | 14k/KU/K/0/- | ready rsp=b-0x28:s0x1 f0=base s40=e19 s44=e16 s45=e0 s46=e1 s53=e2 s54=e3 s104=e3 s168=e4 |
  0xffffffff81000031 e8daff7f00 call 0xffffffff81800010 -> calls 1 ; rsp=b-0x30:s0x1 s45==0xffffffff81000036 s104=top
x1 | 14k/KU/K/0/- | ready rsp=b-0x28:s0x1 f0=base s40=e19 s44=e16 s45=e0 s46=e1 s53=e2 s54=e3 s104=e3 s168=e4 |
  0xffffffff81000031 e81a008000 call 0xffffffff81800050 -> calls 5 ; rsp=b-0x30:s0x1 s45==0xffffffff81000036 s46=top
  s104=top
s1 | 14k/KU/K/0/- | ready s40=e19 s44=e16 s104=e3 | 0xffffffff81000031 e8caff7f00 call 0xffffffff81800000 -> calls 0 ;
  rsp==0xffffffff83005ef8 s40=top s44=top s136==0xffffffff81000036

# calls of handlers that may edit the saved user words
x4 | sysu/UK/U/-/- | fixed rcx=e16 rdx=e18 rbx=e4:s0x10000 rsp==0xffffffff83005fd8 r11=e17:z0x1 flags=e17:o0x2
  s8=e4:s0x10000 s9=e16 s104==0x2b s105=e4:s0x10000 s106=e17:z0xffffffffffdbf028:o0x202 s107==0x33
  s108=e16:z0xffff800000000000 | 0xffffffff81000031 e8caff7f00 call 0xffffffff81800000 -> calls 0 ; rcx=top
  rbx=plain:s0x10000 rsp==0xffffffff83005fd0 r11=plain:z0x1 flags=plain:o0x2 s8=plain:s0x10000 s9=top
  s109==0xffffffff81000036
x4 | sysu/UK/U/-/- | fixed rcx=e16 rdx=e18 rbx=e4:s0x10000 rsp==0xffffffff83005fd8 r11=e17:z0x1 flags=e17:o0x2
  s8=e4:s0x10000 s9=e16 s104==0x2b s105=e4:s0x10000 s106=e17:z0xffffffffffdbf028:o0x202 s107==0x33
  s108=e16:z0xffff800000000000 | 0xffffffff81000031 e8daff7f00 call 0xffffffff81800010 -> fails C10
x4 | sysu/UK/U/-/- | ready rcx=e4 rsp==0xffffffff83005fd4 s104=e0 s105=e4 s106=e17 s107==0x33 s108=e16 |
  0xffffffff81000031 e8caff7f00 call 0xffffffff81800000 -> calls 0 ; rcx=top rsp==0xffffffff83005fcc s105=top s106=top
  s107=top s108=top
x4 | sysu/UK/U/-/- | ready rsp==0xffffffff83005fe0 s105=e17 s107=e16 | 0xffffffff81000031 e82a008000 call
  0xffffffff81800060 -> calls 6 ; rsp==0xffffffff83005fd8 s108==0xffffffff81000036
x4 | sysu/UK/U/-/- | ready rcx=e16 rsp==0xffffffff83004f00 s104=e16 | 0xffffffff81000031 e80a008000 call
  0xffffffff81800040 -> calls 4 ; rcx=top rsp==0xffffffff83004ef8 s104=top
x4 | 2u/UK/U/-/0xffffffff84006000 | ready rsp==0xffffffff84005f60 r12=e4 s40=e19 s41=e4:s0x10000 s42=e17 s43=e18
  s44=e16 s45=e0 | 0xffffffff81000031 e8eaff7f00 call 0xffffffff81800020 -> fails C10
x4 | 2k/KU/K/1/0xffffffff84006000 | ready rcx=e16 rsp==0xffffffff84005f60 s40=e19 s41=e4 s42=e17 s43=e18 s44=e16 |
  0xffffffff81000031 e8daff7f00 call 0xffffffff81800010 -> calls 1 ; rsp==0xffffffff84005f58 s60==0xffffffff81000036

# the end of a handler
leave s1 | sysu/UK/U/-/- | fixed rax=e0 rcx=e1 rbx=e3 rbp=e5 r11=e17 r12=e16 r15==0x7
  flags=plain:z0xffffffffffdbf428:o0x202 s135=e16 | 0xffffffff81000031 e8caff7f00 call 0xffffffff81800000 -> yes ;
  rax=top rcx=top rsp==0xffffffff83005f08 r11=top flags=plain:z0xffffffffffdbf628:o0x2
leave s1 | sysu/UK/U/-/- | fixed rax=e0 rcx=e1 rbx=e3 rbp=e5 r11=e17 r12=e16 r15==0x7
  flags=plain:z0xffffffffffdbf428:o0x202 s135=e16 | 0xffffffff81000031 e82a008000 call 0xffffffff81800060 -> no
leave s1 | sysu/UK/U/-/- | fixed rax=e0 rcx=e1 rbx=e3 rbp=e5 r11=e17 r12=e16 r15==0x7
  flags=plain:z0xffffffffffdbf428:o0x202 s135=e16 | 0xffffffff81000031 e8ca000000 call 0xffffffff81000100 -> no
leave x1 | sysu/UK/U/-/- | ready rax=e0 rbx=e3 flags=plain:z0xffffffffffdbf428:o0x202 | 0xffffffff81000031 e8faff7f00
  call 0xffffffff81800030 -> yes ; rax=top rsp==0xffffffff83005f08
leave x1 | sysu/UK/U/-/- | ready rax=e0 rbx=e3 flags=plain:z0xffffffffffdbf428:o0x202 | 0xffffffff81000031 e81a008000
  call 0xffffffff81800050 -> yes ; rax=top rsp==0xffffffff83005f08
leave x1 | sysu/UK/U/-/- | ready rax=e0 r13=b flags=plain:z0xffffffffffdbf628:o0x2 latch=AYN | 0xffffffff81000031
  e8daff7f00 call 0xffffffff81800010 -> yes ; rax=top rsp==0xffffffff83005f08
leave x1 | 14k/KU/K/0/- | ready rsp=b-0x30:s0x1 rbp=b-0x28:s0x1 flags=plain:o0x2 | 0xffffffff81000031 e8daff7f00 call
  0xffffffff81800010 -> yes ; rsp=b-0x28:s0x1 flags=plain:z0xffffffffffdbf428:o0x2
leave x1 | 14k/KU/K/0/- | ready rsp=b-0x30:s0x1 rbp=b-0x28:s0x1 flags=plain:o0x2 | 0xffffffff81000031 e8caff7f00 call
  0xffffffff81800000 -> yes ; rsp=b-0x28:s0x1 flags=plain:z0xffffffffffdbf628:o0x2
leave s1 | 2k/KU/K/1/0xffffffff84006000 | ready rsp==0xffffffff84005fd0 gs=KK | 0xffffffff81000031 e80a008000 call
  0xffffffff81800040 -> yes ; rsp==0xffffffff84005fd8 flags=plain:z0xffffffffffdbf628:o0x2
";

#[test]
fn each_instruction_leaves_what_its_cases_say(rt: HostRuntime) -> Result<(), Fail> {
    compare(rt.alloc(), Kind::Transfer, EFFECTS)
}

#[test]
fn calls_and_ends_of_handlers_leave_what_their_cases_say(rt: HostRuntime) -> Result<(), Fail> {
    compare(rt.alloc(), Kind::Transfer, CALLS)
}
