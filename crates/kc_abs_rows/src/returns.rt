//! Returns, by outside cases.

use crate::table::{Kind, compare};
use std::test::Fail;

/// What differs after an event from the state before it.
const AFTER: &str = "\
# after the return of an event
after s1 | sysu/UK/U/-/- | fixed rbx=e3 s104=e3 s137=e4 s138=e5 | 0xffffffff81000031 | stacks=0x0 words=0x0 latch=NNN
  -> -
after s1 | sysu/UK/U/-/- | fixed rbx=e3 s104=e3 s137=e4 s138=e5 | 0xffffffff81000031 | stacks=0x1 words=0x0 latch=YNN
  -> latch=YNN s137=top s138=top
after s1 | sysu/UK/U/-/- | fixed rbx=e3 s104=e3 s137=e4 s138=e5 | 0xffffffff81000031 | stacks=0x8 words=0xff latch=AAA
  -> latch=AAA s0=top s1=top s2=top s3=top s4=top s5=top s6=top s7=top
after s1 | 2k/KU/K/1/0xffffffff84006000 | fixed rsp==0xffffffff84005fd8 f3=0xffffffff84006000 s40=e19 s44=e16 s45=e5
  s104=e3 | 0xffffffff81000031 | stacks=0x0 words=0x0 latch=NNN -> -
after s1 | 2k/KU/K/1/0xffffffff84006000 | fixed rsp==0xffffffff84005fd8 f3=0xffffffff84006000 s40=e19 s44=e16 s45=e5
  s104=e3 | 0xffffffff81000031 | stacks=0x1 words=0x0 latch=YNN -> latch=YNN s104=top
after s1 | 2k/KU/K/1/0xffffffff84006000 | fixed rsp==0xffffffff84005fd8 f3=0xffffffff84006000 s40=e19 s44=e16 s45=e5
  s104=e3 | 0xffffffff81000031 | stacks=0x8 words=0xff latch=AAA -> latch=AAA s0=top s1=top s2=top s3=top s4=top
  s5=top s6=top s7=top s45=top
after s1 | 14k/KU/K/0/- | fixed rsp=b-0x28:s0x1 s40=e19 s44=e16 s45=e0 s104=e3 | 0xffffffff81000031 | stacks=0x0
  words=0x0 latch=NNN -> -
after s1 | 14k/KU/K/0/- | fixed rsp=b-0x28:s0x1 s40=e19 s44=e16 s45=e0 s104=e3 | 0xffffffff81000031 | stacks=0x1
  words=0x0 latch=YNN -> latch=YNN s45=top s104=top
after s1 | 14k/KU/K/0/- | fixed rsp=b-0x28:s0x1 s40=e19 s44=e16 s45=e0 s104=e3 | 0xffffffff81000031 | stacks=0x8
  words=0xff latch=AAA -> latch=AAA s0=top s1=top s2=top s3=top s4=top s5=top s6=top s7=top
after s1 | 14k/KU/K/0/- | fixed s40=e19 s44=e16 s135=e0 s136=e3 | 0xffffffff81000031 | stacks=0x0 words=0x0 latch=NNN
  -> -
after s1 | 14k/KU/K/0/- | fixed s40=e19 s44=e16 s135=e0 s136=e3 | 0xffffffff81000031 | stacks=0x1 words=0x0 latch=YNN
  -> latch=YNN s40=top s44=top s136=top
after s1 | 14k/KU/K/0/- | fixed s40=e19 s44=e16 s135=e0 s136=e3 | 0xffffffff81000031 | stacks=0x8 words=0xff latch=AAA
  -> latch=AAA s0=top s1=top s2=top s3=top s4=top s5=top s6=top s7=top
after s1 | 14k/UK/K/0/0xffffffff83005f00 | fixed rsp=b-0x28 s40=e19 s44=e16 s45=e0 s104=e3 s125=e4 |
  0xffffffff81000031 | stacks=0x0 words=0x0 latch=NNN -> -
after s1 | 14k/UK/K/0/0xffffffff83005f00 | fixed rsp=b-0x28 s40=e19 s44=e16 s45=e0 s104=e3 s125=e4 |
  0xffffffff81000031 | stacks=0x1 words=0x0 latch=YNN -> latch=YNN s45=top
after s1 | 14k/UK/K/0/0xffffffff83005f00 | fixed rsp=b-0x28 s40=e19 s44=e16 s45=e0 s104=e3 s125=e4 |
  0xffffffff81000031 | stacks=0x8 words=0xff latch=AAA -> latch=AAA s0=top s1=top s2=top s3=top s4=top s5=top s6=top
  s7=top
after s1 | 14k/KU/K/0/0xffffffff83006000 | fixed rsp==0xffffffff83005fd8 s40=e19 s44=e16 s45=e0 s104=e3 s109=e5 |
  0xffffffff81000031 body | stacks=0x0 words=0x0 latch=NNN -> -
after s1 | 14k/KU/K/0/0xffffffff83006000 | fixed rsp==0xffffffff83005fd8 s40=e19 s44=e16 s45=e0 s104=e3 s109=e5 |
  0xffffffff81000031 body | stacks=0x1 words=0x0 latch=YNN -> latch=YNN s45=top s109=top
after s1 | 14k/KU/K/0/0xffffffff83006000 | fixed rsp==0xffffffff83005fd8 s40=e19 s44=e16 s45=e0 s104=e3 s109=e5 |
  0xffffffff81000031 body | stacks=0x8 words=0xff latch=AAA -> latch=AAA s0=top s1=top s2=top s3=top s4=top s5=top
  s6=top s7=top
after x1 | 32k/KU/U/1/- | fixed rsp=b-0x30:s0x2 s44=e16 s45=e5 s46=e6 s104=e5 s168=e3 s232=e4 | 0xffffffff81000031
  body | stacks=0x0 words=0x0 latch=NNN -> -
after x1 | 32k/KU/U/1/- | fixed rsp=b-0x30:s0x2 s44=e16 s45=e5 s46=e6 s104=e5 s168=e3 s232=e4 | 0xffffffff81000031
  body | stacks=0x1 words=0x0 latch=YNN -> latch=YNN s104=top
after x1 | 32k/KU/U/1/- | fixed rsp=b-0x30:s0x2 s44=e16 s45=e5 s46=e6 s104=e5 s168=e3 s232=e4 | 0xffffffff81000031
  body | stacks=0x8 words=0xff latch=AAA -> latch=AAA s0=top s1=top s2=top s3=top s4=top s5=top s6=top s7=top s232=top
after s1 | 2k/KU/U/-/0xffffffff84006000 | fixed rsp==0xffffffff84005fd8 map=U latch=YNA s40=e19 s103=e3 |
  0xffffffff81001044 | stacks=0x0 words=0x0 latch=NNN -> latch=NNN
after s1 | 2k/KU/U/-/0xffffffff84006000 | fixed rsp==0xffffffff84005fd8 map=U latch=YNA s40=e19 s103=e3 |
  0xffffffff81001044 | stacks=0x1 words=0x0 latch=YNN -> latch=YNN
after s1 | 2k/KU/U/-/0xffffffff84006000 | fixed rsp==0xffffffff84005fd8 map=U latch=YNA s40=e19 s103=e3 |
  0xffffffff81001044 | stacks=0x8 words=0xff latch=AAA -> latch=AAA s0=top s1=top s2=top s3=top s4=top s5=top s6=top
  s7=top s103=top
after s1 | sysu/UK/U/-/- | fixed rsp=e4:s0x10000 gs=UK map=U s8=e5 s104=e3 | 0xffffffff81000031 | stacks=0x0 words=0x0
  latch=NNN -> -
after s1 | sysu/UK/U/-/- | fixed rsp=e4:s0x10000 gs=UK map=U s8=e5 s104=e3 | 0xffffffff81000031 | stacks=0x1 words=0x0
  latch=YNN -> latch=YNN s104=top
after s1 | sysu/UK/U/-/- | fixed rsp=e4:s0x10000 gs=UK map=U s8=e5 s104=e3 | 0xffffffff81000031 | stacks=0x8
  words=0xff latch=AAA -> latch=AAA s0=top s1=top s2=top s3=top s4=top s5=top s6=top s7=top
after s2 | 2u/UK/U/-/0xffffffff84006000 | fixed rsp==0xffffffff84009fa0 s40=e19 s44=e16 s104=e6 s168=e3 s179=e4
  s180=e5 | 0xffffffff81001044 body | stacks=0x0 words=0x0 latch=NNN -> -
after s2 | 2u/UK/U/-/0xffffffff84006000 | fixed rsp==0xffffffff84009fa0 s40=e19 s44=e16 s104=e6 s168=e3 s179=e4
  s180=e5 | 0xffffffff81001044 body | stacks=0x1 words=0x0 latch=YNN -> latch=YNN s104=top
after s2 | 2u/UK/U/-/0xffffffff84006000 | fixed rsp==0xffffffff84009fa0 s40=e19 s44=e16 s104=e6 s168=e3 s179=e4
  s180=e5 | 0xffffffff81001044 body | stacks=0x8 words=0xff latch=AAA -> latch=AAA s0=top s1=top s2=top s3=top s4=top
  s5=top s6=top s7=top s40=top s44=top
after x1 | 14u/UK/U/-/0xffffffff84002000 | ready rdx=plain:z0x921308c1e1000011:o0x20e0c10010462348
  rsp==0xffffffff84001f10 rbp==0xc6 r8=plain:z0x921308c1e1000011:o0x20e0c10010462348 r11==0xffffffff82002800
  flags=plain:z0x201:o0x80 f2=0xffffffff84001f10 f4=base s9=b-0x28 s66==0xffffffff82002000 s68=ugs s193==0xc6
  s198==0x1 | 0xffffffff81000031 | stacks=0x1 words=0x55 latch=NAA -> latch=NAA
after s2 | 32k/KU/U/1/- | ready rcx==0xc0000101 rsp=b-0x58:s0x2 rbp==0x1 r11==0xffffffff84001ff0 r12=b-0x8:s0x2 map=U
  latch=NYN f4=base s0==0xffffffffffffffff s43=b-0x28:s0x2 s47=plain:z0x49d229d5e1509110:o0x860dd4021ea446ce
  s49=b-0x40:s0x2 s54==0x0 | 0xffffffff81000031 body | stacks=0xffff words=0x55 latch=ANY -> latch=ANY s0=top s54=top
after s2 | 2k/KU/K/1/0xffffffff84006000 | entered rax=b-0x8 rcx==0x400000 rdx==0xffffffff82002800 rsp=b-0x48
  r12==0xffffffff82002000 map=U latch=NNY f1=0xffffffff84005f00 f3=base s9==0xffffffff84005f08 s42=b
  s43==0x8000000000000000 s47==0xffffffff82002800 s51==0xe373323010414606 | 0xffffffff81000031 body | stacks=0x1
  words=0x7ff latch=ANN -> latch=ANN s9=top
";

/// The test of a return, each of its clauses failing alone.
const RETURNS: &str = "\
# the return test
return s1 | sysu/UK/U/-/- | ready rcx=e16:z0xffff800000000000 rsp=e4:s0x10000 r11=e17 gs=UK map=U | 480f07 sysretq ->
  yes
return s1 | sysu/UK/U/-/- | ready rcx=e16 rsp=e4:s0x10000 r11=e17 map=U | 480f07 sysretq -> no
return s1 | sysu/UK/U/-/- | ready rcx=e16 rsp=e4:s0x10000 r11=e17 gs=UK | 480f07 sysretq -> no
return s1 | sysu/UK/U/-/- | ready rcx=e1 rsp=e4:s0x10000 r11=e17 gs=UK map=U | 480f07 sysretq -> no
return s1 | sysu/UK/U/-/- | ready rcx=e16 rsp=e4:s0x10000 r11=e11 gs=UK map=U | 480f07 sysretq -> no
return s1 | sysu/UK/U/-/- | ready rcx=e16 r11=e17 gs=UK map=U | 480f07 sysretq -> no
return s1 | 2u/UK/U/-/0xffffffff84006000 | ready rsp==0xffffffff84005fd8 gs=UK map=U latch=YNN s40=e19 s41=e4:s0x10000
  s42=e17 s43=e18 s44=e16 | 48cf iretq -> yes
return s1 | 2u/UK/U/-/0xffffffff84006000 | ready rsp==0xffffffff84005fd8 gs=UK map=U latch=YNN s40=e19 s41=e4:s0x10000
  s42=e17 s43=e18 s44=e16 | 90 nop -> yes
return s1 | 2u/UK/U/-/0xffffffff84006000 | ready rsp==0xffffffff84005fd8 gs=UK map=U s40==0x2b s41=e4 s42=e17 s43=e18
  s44=e16 | 90 nop -> yes
return s1 | 2u/UK/U/-/0xffffffff84006000 | ready rsp==0xffffffff84005fd8 gs=UK map=U s40=e19 s41=e4 s42=e17 s43==0x33
  s44=e16 | 90 nop -> yes
return x1 | 2u/UK/U/-/0xffffffff84006000 | ready rsp==0xffffffff84005fd8 gs=UK map=U s40==0x2b s41=e4 s42=e17
  s43==0x33 s44=e16 | 90 nop -> yes
return x1 | 2u/UK/U/-/0xffffffff84006000 | ready rsp==0xffffffff84005fd8 gs=UK map=U s40==0x23 s41=e4 s42=e17 s43=e18
  s44=e16 | 90 nop -> yes
return s1 | 2u/UK/U/-/0xffffffff84006000 | ready rsp==0xffffffff84005fd8 gs=UK map=U s40=e19 s41==0x7000 s42=e17
  s43=e18 s44=e16 | 90 nop -> yes
return s1 | 2u/UK/U/-/0xffffffff84006000 | ready rsp==0xffffffff84005fd8 gs=UK map=U s40=e19 s41=e4 s42=e17 s43=e18
  s44=e1 | 90 nop -> yes
return s1 | 2u/UK/U/-/0xffffffff84006000 | ready rsp==0xffffffff84005fe0 gs=UK map=U s40=e19 s41=e4 s42=e17 s43=e18
  s44=e16 | 90 nop -> yes
return s1 | 2u/UK/U/-/0xffffffff84006000 | ready rsp=b-0x28 gs=UK map=U s40=e19 s41=e4 s42=e17 s43=e18 s44=e16 | 90
  nop -> yes
return s1 | sysu/UK/U/-/- | ready rsp==0xffffffff84001fd8 gs=UK map=U | 90 nop -> yes
return x1 | sysu/UK/U/-/- | ready rsp==0xffffffff84001fd8 gs=UK map=U s168==0x2b s169=e4 s170=e17 s171==0x33 s172=e16
  | 90 nop -> yes
return s1 | 2k/KU/K/1/0xffffffff84006000 | entered rsp==0xffffffff84005fd8 s40=e19 s41=e4 s42=e17 s43=e18 s44=e16 | 90
  nop -> yes
return s1 | 2k/KU/K/1/0xffffffff84006000 | entered rsp==0xffffffff84005fd8 s40=e19 s41=e4 s42=e17 s43==0x10 s44=e16 |
  90 nop -> yes
return s1 | 2k/KU/K/1/0xffffffff84006000 | entered rsp==0xffffffff84005fd8 s40==0x18 s41=e4 s42=e17 s43=e18 s44=e16 |
  90 nop -> yes
return s1 | 2k/KU/K/1/0xffffffff84006000 | entered rsp==0xffffffff84005fd8 rdi=top s40=e19 s41=e4 s42=e17 s43=e18
  s44=e16 | 90 nop -> yes
return s1 | 2k/KU/K/1/0xffffffff84006000 | entered rsp==0xffffffff84005fd8 rsi=e7 rdi=e6 s40=e19 s41=e4 s42=e17
  s43=e18 s44=e16 | 90 nop -> yes
return s1 | 2k/UU/K/1/0xffffffff84006000 | entered rsp==0xffffffff84005fd8 s40=e19 s41=e4 s42=e17 s43=e18 s44=e16 | 90
  nop -> yes
return s1 | 14k/KU/K/0/- | entered rsp=b-0x28:s0x1 s40=e19 s41=e4:s0x1 s42=e17 s43=e18:z0xffffffffffffffef:o0x10
  s44=e16 | 90 nop -> yes
return s1 | 14k/KU/K/0/- | entered rsp=b-0x30:s0x1 s40=e19 s41=e4:s0x1 s42=e17 s43=e18 s44=e16 | 90 nop -> yes
return s1 | 14k/KU/K/0/- | entered rsp=b-0x20:s0x1 s40=e19 s41=e4:s0x1 s42=e17 s43=e18 s44=e16 | 90 nop -> yes
";

#[test]
fn what_holds_after_an_event_is_as_the_cases_say(rt: HostRuntime) -> Result<(), Fail> {
    compare(rt.alloc(), Kind::Event, AFTER)
}

#[test]
fn a_return_is_tested_as_the_cases_say(rt: HostRuntime) -> Result<(), Fail> {
    compare(rt.alloc(), Kind::Event, RETURNS)
}
