//! The conditions C4 and C6 to C12, by outside cases: each failing alone, and kept.

use crate::table::{Kind, compare};
use std::test::Fail;

/// A case with more than one condition fails by the first.
const CONDITIONS: &str = "\
# C4 alone
s1 | sysu/UK/U/-/- | ready gs=AU | 0xffffffff81000031 90 nop -> fails C4
s1 | sysu/UK/U/-/- | ready gs=KA | 0xffffffff81000031 90 nop -> fails C4
s1 | sysu/UK/U/-/- | ready gs=KA | 0xffffffff81000031 65488b042508080000 mov rax, gs:[0x808] -> fails C4
s1 | sysu/UK/U/-/- | ready rsp=top | 0xffffffff81000031 90 nop -> fails C4
s1 | sysu/UK/U/-/- | ready rsp=top | 0xffffffff81000031 48c7c405000000 mov rsp, 0x5 -> fails C4
s1 | sysu/UK/U/-/- | ready rsp=ugs | 0xffffffff81000031 90 nop -> fails C4
s1 | 14k/KU/K/0/- | ready rsp=b-0x1008:s0x1 | 0xffffffff81000031 90 nop -> fails C4
s1 | 14k/KU/K/0/- | ready rsp=b-0x8:s0x3 | 0xffffffff81000031 90 nop -> fails C4
s1 | 14k/KU/K/0/- | ready rsp=b-0x8:s0x10001 | 0xffffffff81000031 90 nop -> fails C4
s1 | 14k/KU/K/0/- | ready rsp=b+0x8:s0x1 | 0xffffffff81000031 50 push rax -> fails C7 C8
s1 | 2k/KU/K/1/0xffffffff84006000 | ready rsp=b-0x2000:s0x3 | 0xffffffff81000031 90 nop -> falls ; -
s1 | 14k/KU/K/0/- | ready rsp=e4:s0x1 | 0xffffffff81000031 90 nop -> falls ; -

# C6
s1 | sysu/UK/U/-/- | ready gs=UK | 0xffffffff81000031 65488b042508080000 mov rax, gs:[0x808] -> fails C6 C7
s1 | sysu/UK/U/-/- | ready gs=UK | 0xffffffff81000031 654889042500080000 mov gs:[0x800], rax -> fails C6 C7 C8
s1 | sysu/UK/U/-/- | ready gs=UK | 0xffffffff81000031 65ff342508080000 push gs:[0x808] -> fails C6 C7
s1 | sysu/UK/U/-/- | ready gs=UK | 0xffffffff81000031 488d00 lea rax, [rax] -> falls ; -
s1 | sysu/UK/U/-/- | ready rax==0x5 gs=UU | 0xffffffff81000031 65480300 add rax, gs:[rax] -> fails C6 C7
s1 | sysu/UK/U/-/- | ready rax==0x5 gs=UU | 0xffffffff81000031 65480fba24250808000001 bt qword gs:[0x808], 0x1 ->
  fails C6 C7

# C7
s1 | sysu/UK/U/-/- | ready rax=e0 | 0xffffffff81000031 488b18 mov rbx, [rax] -> fails C7
s1 | sysu/UK/U/-/- | ready rax=e0 | 0xffffffff81000031 488918 mov [rax], rbx -> fails C7 C8
s1 | sysu/UK/U/-/- | ready rax=e0 | 0xffffffff81000031 48830001 add qword [rax], 0x1 -> fails C7 C8
s1 | sysu/UK/U/-/- | ready rax=e0 | 0xffffffff81000031 f60001 test byte [rax], 0x1 -> fails C7
s1 | sysu/UK/U/-/- | ready rax=e0 | 0xffffffff81000031 488718 xchg [rax], rbx -> fails C7 C8
s1 | sysu/UK/U/-/- | ready rax==0xffffffff83001ffc rcx==0x400000 rdx==0x0 rbx==0xffffffff81000000
  rsi==0xffffffff83001000 | 0xffffffff81000031 4c8b00 mov r8, [rax] -> fails C7
s1 | sysu/UK/U/-/- | ready rax==0xffffffff83001ffc rcx==0x400000 rdx==0x0 rbx==0xffffffff81000000
  rsi==0xffffffff83001000 | 0xffffffff81000031 4c8b01 mov r8, [rcx] -> falls ; -
s1 | sysu/UK/U/-/- | ready rax==0xffffffff83001ffc rcx==0x400000 rdx==0x0 rbx==0xffffffff81000000
  rsi==0xffffffff83001000 | 0xffffffff81000031 4c8901 mov [rcx], r8 -> falls ; -
s1 | sysu/UK/U/-/- | ready rax==0xffffffff83001ffc rcx==0x400000 rdx==0x0 rbx==0xffffffff81000000
  rsi==0xffffffff83001000 | 0xffffffff81000031 4c8b02 mov r8, [rdx] -> fails C7
s1 | sysu/UK/U/-/- | ready rax==0xffffffff83001ffc rcx==0x400000 rdx==0x0 rbx==0xffffffff81000000
  rsi==0xffffffff83001000 | 0xffffffff81000031 833a00 cmp dword [rdx], 0x0 -> fails C7
s1 | sysu/UK/U/-/- | ready map=U | 0xffffffff81000031 50 push rax -> fails C7
s1 | sysu/UK/U/-/- | ready map=U | 0xffffffff81000031 58 pop rax -> fails C7
s1 | sysu/UK/U/-/- | ready map=U | 0xffffffff81000031 c3 ret -> fails C7
s1 | sysu/UK/U/-/- | ready rsp==0xffffffff84001008 map=U | 0xffffffff81000031 50 push rax -> falls ;
  rsp==0xffffffff84001000
s1 | sysu/UK/U/-/- | ready rsp==0xffffffff84001008 map=U | 0xffffffff81000031 9c pushfq -> falls ;
  rsp==0xffffffff84001000
s1 | sysu/UK/U/-/- | ready rsp==0xffffffff84001000 map=U | 0xffffffff81000031 9c pushfq -> fails C7
s1 | sysu/UK/U/-/- | ready rsp==0xffffffff84001000 map=U | 0xffffffff81000031 e8ca000000 call 0xffffffff81000100 ->
  fails C7
s1 | sysu/UK/U/-/- | ready rsp==0xffffffff84001004 | 0xffffffff81000031 50 push rax -> fails C7
s1 | 14k/KU/K/0/- | ready rsp=b-0x4:s0x1 | 0xffffffff81000031 58 pop rax -> fails C7
s1 | 14k/KU/K/0/- | ready rsp=b-0x4:s0x1 | 0xffffffff81000031 8b0424 mov eax, [rsp] -> falls ;
  rax=plain:z0xffffffff00000000
s1 | 14k/KU/K/0/- | ready rsp=b-0x4:s0x1 | 0xffffffff81000031 50 push rax -> falls ; rsp=b-0xc:s0x1
s1 | 14k/KU/K/0/- | ready rsp=b-0xff8:s0x1 | 0xffffffff81000031 8b4424f4 mov eax, [rsp-0xc] -> fails C7
s1 | 14k/KU/K/0/- | ready rax=b-0x28 rsp=b-0x28:s0x1 | 0xffffffff81000031 488b18 mov rbx, [rax] -> falls ; -
s1 | 14k/KU/K/0/- | ready rax=b-0x28 rsp=b-0x28:s0x1 | 0xffffffff81000031 48895828 mov [rax+0x28], rbx -> fails C7 C8
x2 | 2k/UK/K/-/0xffffffff84006000 | entered rsp==0xffffffff84005fd8 gs=UK s40=e19 s41=e4 s42=e17 s43=e18 s44=e16 |
  0xffffffff81000031 48cf iretq -> returns

# C8
s1 | sysu/UK/U/-/- | ready rax==0xffffffff83005ef8 f0=0xffffffff83005f00 | 0xffffffff81000031 50 push rax -> falls ;
  rsp==0xffffffff83005ef8 s136==0xffffffff83005ef8
s1 | sysu/UK/U/-/- | ready rax==0xffffffff83005ef8 f0=0xffffffff83005f00 | 0xffffffff81000031 48890424 mov [rsp], rax
  -> fails C8
s1 | sysu/UK/U/-/- | ready rax==0xffffffff83005ef8 f0=0xffffffff83005f00 | 0xffffffff81000031 488900 mov [rax], rax ->
  falls ; s136==0xffffffff83005ef8
s1 | sysu/UK/U/-/- | ready rax==0xffffffff83005ef8 f0=0xffffffff83005f00 | 0xffffffff81000031 488b0424 mov rax, [rsp]
  -> falls ; rax=top
s1 | sysu/UK/U/-/- | ready rax==0xffffffff83005ef8 f0=0xffffffff83005f00 | 0xffffffff81000031 9c pushfq -> falls ;
  rsp==0xffffffff83005ef8 s136=plain:z0xffffffffffdbf028:o0x2
s1 | sysu/UK/U/-/- | ready rax==0xffffffff83005ef8 f0=0xffffffff83005f00 | 0xffffffff81000031 48870424 xchg [rsp], rax
  -> fails C8
s1 | sysu/UK/U/-/- | ready rax==0xffffffff83005ef8 f0=0xffffffff83005f00 | 0xffffffff81000031 e8caff7f00 call
  0xffffffff81800000 -> calls 0 ; rsp==0xffffffff83005ef8 s136==0xffffffff81000036
s1 | sysu/UK/U/-/- | ready rax==0xffffffff83005ef8 f0=0xffffffff83005f00 | 0xffffffff81000031 8f00 pop [rax] -> falls
  ; rsp==0xffffffff83005f08
s1 | sysu/UK/U/-/- | ready f0=0x0 | 0xffffffff81000031 50 push rax -> fails C8
s1 | sysu/UK/U/-/- | ready f0=base | 0xffffffff81000031 50 push rax -> fails C8
s1 | sysu/UK/U/-/- | ready f0=base | 0xffffffff81000031 488b0424 mov rax, [rsp] -> falls ; -
s1 | 14k/UK/K/0/0xffffffff83005f00 | ready rsp=b f0=base | 0xffffffff81000031 50 push rax -> falls ; rsp=b-0x8
s1 | 14k/UK/K/0/0xffffffff83005f00 | ready f0=base | 0xffffffff81000031 48890424 mov [rsp], rax -> fails C8
s1 | 14k/KU/K/0/- | ready rsp=b-0x28:s0x1 f0=0xffffffff83005f00 | 0xffffffff81000031 50 push rax -> fails C8
s1 | 14k/KU/K/0/- | ready rsp=b-0x28:s0x1 f0=0xffffffff83005f00 | 0xffffffff81000031 48890424 mov [rsp], rax -> fails
  C8
s1 | 14k/KU/K/0/- | ready rsp=b-0x28:s0x1 f0=base | 0xffffffff81000031 89442424 mov [rsp+0x24], eax -> falls ; -
s1 | 14k/KU/K/0/- | ready rsp=b-0x28:s0x1 | 0xffffffff81000031 50 push rax -> falls ; rsp=b-0x30:s0x1
s1 | 14k/KU/K/0/- | ready rsp=b-0x28:s0x1 f0=0xfffffffffffffffe | 0xffffffff81000031 50 push rax -> fails C8

# C9
s1 | sysu/UK/U/-/- | ready rax==0x1002000 rcx==0x9000000001000000 rdx=plain:z0x7ffffffffeffffff:o0x1000000 rbx=e3 |
  0xffffffff81000031 0f22d8 mov cr3, rax -> fails C9
s1 | sysu/UK/U/-/- | ready rax==0x1002000 rcx==0x9000000001000000 rdx=plain:z0x7ffffffffeffffff:o0x1000000 rbx=e3 |
  0xffffffff81000031 0f22db mov cr3, rbx -> fails C9
s1 | sysu/UK/U/-/- | ready rax==0x1002000 rcx==0x9000000001000000 rdx=plain:z0x7ffffffffeffffff:o0x1000000 rbx=e3 |
  0xffffffff81000031 0f22d9 mov cr3, rcx -> fails C9

# C10
s1 | sysu/UK/U/-/- | ready gs=UK | 0xffffffff81000031 e8caff7f00 call 0xffffffff81800000 -> fails C10
s1 | sysu/UK/U/-/- | ready rsp==0xffffffff84001f00 map=U | 0xffffffff81000031 e8daff7f00 call 0xffffffff81800010 ->
  fails C10
s1 | sysu/UK/U/-/- | ready rsp==0xffffffff82002900 | 0xffffffff81000031 e8caff7f00 call 0xffffffff81800000 -> fails
  C10
x2 | sysu/UK/U/-/- | ready rsp==0xffffffff83002008 | 0xffffffff81000031 e8caff7f00 call 0xffffffff81800000 -> calls 0
  ; rsp==0xffffffff83002000
x2 | sysu/UK/U/-/- | ready rsp==0xffffffff83002008 | 0xffffffff81000031 e8daff7f00 call 0xffffffff81800010 -> calls 1
  ; rsp==0xffffffff83002000
x1 | sysu/UK/U/-/- | ready rsp==0xffffffff83002010 | 0xffffffff81000031 e80a008000 call 0xffffffff81800040 -> calls 4
  ; rsp==0xffffffff83002008
x1 | 14k/KU/K/0/- | ready rsp=b-0x28:s0x1 | 0xffffffff81000031 e80a008000 call 0xffffffff81800040 -> fails C10
x1 | sysu/UK/U/-/- | ready rsp==0xffffffff83006008 f0=0xffffffff83005f00 | 0xffffffff81000031 e8daff7f00 call
  0xffffffff81800010 -> fails C10
x1 | sysu/UK/U/-/- | ready rsp==0xffffffff83006008 f0=0xffffffff83005f00 | 0xffffffff81000031 e8ca000000 call
  0xffffffff81000100 -> jumps 0xffffffff81000100 ; rsp==0xffffffff83006000

# C11
s1 | sysu/UK/U/-/- | ready rcx==0xc0000100 | 0xffffffff81000031 0f0b ud2 -> fails C11
s1 | sysu/UK/U/-/- | ready rcx==0xc0000100 | 0xffffffff81000031 0f32 rdmsr -> fails C11
s1 | sysu/UK/U/-/- | ready rcx==0xc0000100 | 0xffffffff81000031 0f30 wrmsr -> fails C11
s1 | sysu/UK/U/-/- | ready rax==0x0 rcx==0xc0000101 rdx==0x8000 | 0xffffffff81000031 0f30 wrmsr -> fails C11
s1 | sysu/UK/U/-/- | ready rax==0x0 rcx==0xc0000101 rdx==0x8000 | 0xffffffff81000031 0f32 rdmsr -> falls ;
  rax==0x82002000 rdx==0xffffffff
s1 | sysu/UK/U/-/- | ready rax==0x0 rcx==0xc0000102 | 0xffffffff81000031 0f30 wrmsr -> fails C11
s1 | sysu/UK/U/-/- | ready rax=e0 rcx=plain:o0xffff800000000000 rbx==0x800000000000 | 0xffffffff81000031 f3480faed8
  wrgsbase rax -> fails C11
s1 | sysu/UK/U/-/- | ready rax=e0 rcx=plain:o0xffff800000000000 rbx==0x800000000000 | 0xffffffff81000031 f3480faedb
  wrgsbase rbx -> fails C11
s1 | sysu/UK/U/-/- | ready rax=e0 rcx=plain:o0xffff800000000000 rbx==0x800000000000 | 0xffffffff81000031 f3480faed9
  wrgsbase rcx -> falls ; gs=AU

# C12
s1 | sysu/UK/U/-/- | ready rcx=e16:z0xffff800000000000 rsp=e4:s0x10000 r11=e17 gs=UK map=U | 0xffffffff81000031 480f07
  sysretq -> returns
s1 | sysu/UK/U/-/- | ready rcx=e16 rsp=e4:s0x10000 r11=e17 map=U | 0xffffffff81000031 480f07 sysretq -> fails C12
s1 | sysu/UK/U/-/- | ready rcx=e16 rsp=e4:s0x10000 r11=e17 gs=UK | 0xffffffff81000031 480f07 sysretq -> fails C12
s1 | sysu/UK/U/-/- | ready rcx=e16 r11=e17 gs=UK map=U | 0xffffffff81000031 480f07 sysretq -> fails C12
s1 | 2u/UK/U/-/0xffffffff84006000 | ready rsp==0xffffffff84005fd8 gs=UK map=U latch=YNN s40=e19 s41=e4:s0x10000
  s42=e17 s43=e18 s44=e16 | 0xffffffff81000031 48cf iretq -> returns
s1 | 2u/UK/U/-/0xffffffff84006000 | ready rsp==0xffffffff84005fd8 gs=UK map=U latch=YNN s40=e19 s41=e4:s0x10000
  s42=e17 s43=e18 s44=e16 | 0xffffffff81000031 480f07 sysretq -> fails C11 C12
x1 | 2u/UK/U/-/0xffffffff84006000 | ready rsp==0xffffffff84005fd8 gs=UK map=U s40==0x2b s41=e4 s42=e17 s43==0x33
  s44=e16 | 0xffffffff81000031 48cf iretq -> returns
x1 | 2u/UK/U/-/0xffffffff84006000 | ready rsp==0xffffffff84005fd8 gs=UK map=U s40==0x23 s41=e4 s42=e17 s43=e18 s44=e16
  | 0xffffffff81000031 48cf iretq -> fails C12
s1 | 2u/UK/U/-/0xffffffff84006000 | ready rsp==0xffffffff84005fd8 gs=UK map=U s40=e19 s41==0x7000 s42=e17 s43=e18
  s44=e16 | 0xffffffff81000031 48cf iretq -> fails C12
s1 | 2u/UK/U/-/0xffffffff84006000 | ready rsp=b-0x28 gs=UK map=U s40=e19 s41=e4 s42=e17 s43=e18 s44=e16 |
  0xffffffff81000031 48cf iretq -> returns
s1 | sysu/UK/U/-/- | ready rsp==0xffffffff84001fd8 gs=UK map=U | 0xffffffff81000031 48cf iretq -> fails C12
s1 | 2k/KU/K/1/0xffffffff84006000 | entered rsp==0xffffffff84005fd8 s40=e19 s41=e4 s42=e17 s43==0x10 s44=e16 |
  0xffffffff81000031 48cf iretq -> returns
s1 | 2k/KU/K/1/0xffffffff84006000 | entered rsp==0xffffffff84005fd8 s40==0x18 s41=e4 s42=e17 s43=e18 s44=e16 |
  0xffffffff81000031 48cf iretq -> fails C12
s1 | 2k/KU/K/1/0xffffffff84006000 | entered rsp==0xffffffff84005fd8 rdi=top s40=e19 s41=e4 s42=e17 s43=e18 s44=e16 |
  0xffffffff81000031 48cf iretq -> fails C12
s1 | 14k/KU/K/0/- | entered rsp=b-0x28:s0x1 s40=e19 s41=e4:s0x1 s42=e17 s43=e18:z0xffffffffffffffef:o0x10 s44=e16 |
  0xffffffff81000031 48cf iretq -> returns
s1 | 14k/KU/K/0/- | entered rsp=b-0x30:s0x1 s40=e19 s41=e4:s0x1 s42=e17 s43=e18 s44=e16 | 0xffffffff81000031 48cf
  iretq -> fails C12
s1 | 14k/KU/K/0/- | entered rsp=b-0x20:s0x1 s40=e19 s41=e4:s0x1 s42=e17 s43=e18 s44=e16 | 0xffffffff81000031 48cf
  iretq -> fails C7 C12
";

#[test]
fn each_condition_fails_as_its_cases_say(rt: HostRuntime) -> Result<(), Fail> {
    compare(rt.alloc(), Kind::Transfer, CONDITIONS)
}
