//! Which events may come, by outside cases.

use crate::table::{Kind, compare};
use std::test::Fail;

/// At sites of code, inside handlers, and while the user runs.
const EVENTS: &str = "\
# at a site of code and inside handlers
events s1 | sysu/UK/U/-/- | ready | 0xffffffff81000031 | 90 nop -> 32 2 1 18
events s1 | sysu/UK/U/-/- | ready flags=plain:o0x202 | 0xffffffff81000031 | 90 nop -> 32 2 1 18
events s1 | sysu/UK/U/-/- | ready flags=plain:z0x200 | 0xffffffff81000031 | 90 nop -> 2 1 18
events s1 | sysu/UK/U/-/- | ready latch=NYN | 0xffffffff81000031 | 90 nop -> 2 1 18
events s1 | sysu/UK/U/-/- | ready latch=NAN | 0xffffffff81000031 | 90 nop -> 32 2 1 18
events s1 | sysu/UK/U/-/- | ready flags=plain:z0x200 latch=YNY | 0xffffffff81000031 | 90 nop -> 1
events s1 | sysu/UK/U/-/- | ready latch=ANA | 0xffffffff81000031 | 90 nop -> 32 2 1 18
events x1 | sysu/UK/U/-/- | ready flags=plain:o0x200 | 0xffffffff81000031 | 90 nop -> 32 33 34 40 2 1 18
events x1 | sysu/UK/U/-/- | ready rax=e0 flags=plain:z0x200 | 0xffffffff81000031 | 488b18 mov rbx, [rax] -> 2 1 18 14
events s1 | sysu/UK/U/-/- | ready rax=e0 flags=plain:z0x200 | 0xffffffff81000031 | 488b18 mov rbx, [rax] -> 2 1 18 14
events x1 | sysu/UK/U/-/- | ready rax==0x400000 flags=plain:z0x200 | 0xffffffff81000031 | 488b18 mov rbx, [rax] -> 2 1
  18 14
events x1 | sysu/UK/U/-/- | ready rax==0x400000 flags=plain:z0x200 | 0xffffffff81000031 | 8918 mov [rax], ebx -> 2 1
  18 14
events x1 | sysu/UK/U/-/- | ready rax==0x400000 flags=plain:z0x200 | 0xffffffff81000031 | 488d18 lea rbx, [rax] -> 2 1
  18
events x1 | sysu/UK/U/-/- | ready rax==0x400000 flags=plain:z0x200 | 0xffffffff81000031 | ff30 push [rax] -> 2 1 18 14
events x1 | sysu/UK/U/-/- | ready rax==0x400000 flags=plain:z0x200 | 0xffffffff81000031 | 833800 cmp dword [rax], 0x0
  -> 2 1 18 14
events x1 | sysu/UK/U/-/- | ready rax==0xffff flags=plain:z0x200 | 0xffffffff81000031 | 488b18 mov rbx, [rax] -> 2 1
  18 14
events x1 | sysu/UK/U/-/- | ready rax==0xffff flags=plain:z0x200 | 0xffffffff81000031 | f60001 test byte [rax], 0x1 ->
  2 1 18
events x1 | sysu/UK/U/-/- | ready rsp==0xffffffff84001f00 flags=plain:z0x200 map=U | 0xffffffff81000031 | 50 push rax
  -> 2 1 18 14
events x1 | sysu/UK/U/-/- | ready rsp==0xffffffff84001f00 flags=plain:z0x200 map=U | 0xffffffff81000031 | 5b pop rbx
  -> 2 1 18 14
events x1 | sysu/UK/U/-/- | ready rsp==0xffffffff84001f00 flags=plain:z0x200 map=U | 0xffffffff81000031 | 48cf iretq
  -> 2 1 18
events x1 | sysu/UK/U/-/- | ready rsp==0xffffffff84001f00 flags=plain:z0x200 map=U | 0xffffffff81000031 | c3 ret -> 2
  1 18 14
events x1 | sysu/UK/U/-/- | ready rsp==0xffffffff84001f00 flags=plain:z0x200 map=U | 0xffffffff81000031 | e8ca000000
  call 0xffffffff81000100 -> 2 1 18 14
events x1 | sysu/UK/U/-/- | ready rsp==0xffffffff84000ffc flags=plain:z0x200 | 0xffffffff81000031 | 5b pop rbx -> 2 1
  18 14
events x1 | 32k/KU/U/1/- | ready rsp=b-0x28:s0x2 flags=plain:z0x200 map=U | 0xffffffff81000031 | 50 push rax -> 2 1 18
  14
events x1 | 32k/KU/U/1/- | ready rsp=b-0x28:s0x2 flags=plain:z0x200 map=U | 0xffffffff81000031 | 90 nop -> 2 1 18
events x1 | 32k/KU/U/1/- | ready rsp=b-0x28:s0x2 flags=plain:z0x200 map=U | 0xffffffff81000031 | 48cf iretq -> 2 1 18
events x1 | 32k/KU/U/1/- | ready rsp=b-0x28:s0x2 flags=plain:z0x200 map=U | 0xffffffff81000031 | 488b0424 mov rax,
  [rsp] -> 2 1 18 14
events s1 | 14k/KU/K/0/- | ready rsp=b-0x28:s0x1 flags=plain:z0x200 | 0xffffffff81000031 | 50 push rax -> 2 1 18
events x2 | 2k/KU/K/1/0xffffffff84006000 | ready rsp==0xffffffff84005fd8 flags=plain:z0x200 gs=UK | 0xffffffff81000031
  | 50 push rax -> 2 1 18 14
events x2 | 2k/KU/K/1/0xffffffff84006000 | ready rsp==0xffffffff84005fd8 flags=plain:z0x200 gs=UK | 0xffffffff81000031
  | 65488b042500080000 mov rax, gs:[0x800] -> 2 1 18 14
events x2 | 2k/KU/K/1/0xffffffff84006000 | ready rsp==0xffffffff84005fd8 flags=plain:z0x200 gs=UK | 0xffffffff81000031
  | 9c pushfq -> 2 1 18 14
events s1 | sysu/UK/U/-/- | ready rsp==0xffffffff83005ed0 flags=plain:z0x200 | 0xffffffff81000031 body | e8caff7f00
  call 0xffffffff81800000 -> 32 2 18 14
events s1 | sysu/UK/U/-/- | ready rsp==0xffffffff83005ed0 flags=plain:z0x200 | 0xffffffff81000031 body | e8daff7f00
  call 0xffffffff81800010 -> 2 18
events s1 | sysu/UK/U/-/- | ready rsp==0xffffffff83005ed0 flags=plain:z0x200 | 0xffffffff81000031 body | e8ca000000
  call 0xffffffff81000100 -> 2 18
events s1 | sysu/UK/U/-/- | ready rsp==0xffffffff83005ed0 flags=plain:o0x200 latch=YNY | 0xffffffff81000031 body |
  e8daff7f00 call 0xffffffff81800010 -> 32
events s1 | sysu/UK/U/-/- | ready rsp==0xffffffff83005ed0 flags=plain:o0x200 latch=YNY | 0xffffffff81000031 body |
  e8caff7f00 call 0xffffffff81800000 -> 32 14
events s1 | sysu/UK/U/-/- | ready rsp==0xffffffff83005ed0 latch=NYN | 0xffffffff81000031 body | e8caff7f00 call
  0xffffffff81800000 -> 2 18 14
events x1 | sysu/UK/U/-/- | ready rsp==0xffffffff83005ed0 flags=plain:z0x200 | 0xffffffff81000031 body | e8faff7f00
  call 0xffffffff81800030 -> 2 1 18 14
events x1 | sysu/UK/U/-/- | ready rsp==0xffffffff83005ed0 flags=plain:z0x200 | 0xffffffff81000031 body | e81a008000
  call 0xffffffff81800050 -> 32 33 34 40 2 1 18 14
events x1 | sysu/UK/U/-/- | ready rsp==0xffffffff83005ed0 flags=plain:z0x200 | 0xffffffff81000031 body | e8daff7f00
  call 0xffffffff81800010 -> 32 33 34 40 2 18
events x1 | 14k/KU/K/0/- | ready rsp=b-0x30:s0x1 latch=AAA | 0xffffffff81000031 body | e81a008000 call
  0xffffffff81800050 -> 32 33 34 40 2 1 18 14
events x1 | 14k/KU/K/0/- | ready rsp=b-0x30:s0x1 latch=AAA | 0xffffffff81000031 body | e8eaff7f00 call
  0xffffffff81800020 -> 32 33 34 40 2 18
events s1 | sysu/UK/U/-/- | ready | 0xffffffff82000000 | 90 nop -> 32 2 1 18
events s1 | sysu/UK/U/-/- | ready | 0xffffffff85000000 | 90 nop -> 32 2 18
events s1 | sysu/UK/U/-/- | ready | 0xffffffff81000fff | 90 nop -> 32 2 1 18
events s1 | sysu/UK/U/-/- | ready | 0xffffffff81001000 | 90 nop -> 32 2 18

# from user mode
uevents s1 | fixed -> 32 2 1 18 14 syscall
uevents s1 | fixed nmi=Y mcip=A -> 32 1 18 14 syscall
uevents s1 | fixed s0=top -> 32 2 1 18 14 syscall
uevents s1 | fixed s2=top s3=plain:z0x1 -> 32 2 1 18 14 syscall
uevents s1 | fixed s0==0xffffffff84001ff8 s1==0xffffffff84003001 s2==0xffffffff84005028 s3==0xffffffff84007020 -> 32 2
  1 18 14 syscall
uevents s1 | fixed s0==0xffffffff83006000 s1==0x400000 s2==0x0 s3==0xffffffff8400802f s8==0x7 s9=top -> 32 2 1 18 14
  syscall
uevents x1 | fixed -> 32 33 34 40 2 1 18 14 3 13 17 128 syscall
uevents x1 | fixed nmi=A mcip=Y s10=top -> 32 33 34 40 2 1 14 3 13 17 128 syscall
uevents x2 | fixed -> 32 2 1 18 14 syscall
uevents x3 | fixed -> 32 2 1 18 14 syscall
uevents s2 | fixed mcip=A s9==0x5 -> 32 2 1 18 14 syscall
";

#[test]
fn the_events_of_each_case_may_come(rt: HostRuntime) -> Result<(), Fail> {
    compare(rt.alloc(), Kind::Event, EVENTS)
}
