//! Deliveries, by outside cases.

use crate::table::{Kind, compare};
use std::test::Fail;

/// No frame is permitted.
const REFUSED: &str = "\
# from kernel code
deliver s1 | 2u/UK/U/-/0xffffffff84006000 | fixed rsp==0xffffffff84005f00 f3=0xffffffff84005fd8 | 0xffffffff81001044 |
  90 nop | 2 -> no
deliver s1 | 2u/UK/U/-/0xffffffff84006000 | fixed rsp==0xffffffff84005f00 f3=0xffffffff84006000 | 0xffffffff81000031 |
  90 nop | 2 -> no
deliver s1 | sysu/UK/U/-/- | fixed rcx=e16:z0xffff800000000000 rsp=e4:s0x10000 flags=plain:z0xffffffffffd98728:o0x2
  gs=UK map=U latch=NNA | 0xffffffff81000031 | 0f01f8 swapgs | 14 -> no
deliver s1 | sysu/UK/U/-/- | fixed rsp=e4:s0x10000 | 0xffffffff81000031 | 90 nop | 32 -> no
deliver s1 | sysu/UK/U/-/- | fixed rsp==0xffffffff82002900 | 0xffffffff81001044 | 90 nop | 14 -> no
deliver s1 | sysu/UK/U/-/- | fixed rsp==0xffffffff83002028 | 0xffffffff81000031 | 90 nop | 32 -> no
deliver s1 | sysu/UK/U/-/- | fixed rsp==0xffffffff83002020 | 0xffffffff81000031 | 90 nop | 32 -> no
deliver s1 | sysu/UK/U/-/- | fixed rsp==0xffffffff83005f08 f0=0xffffffff83005ef8 | 0xffffffff81000031 | 90 nop | 14 ->
  no
deliver s1 | 14k/UK/K/0/0xffffffff83005f00 | fixed rsp=b+0x10 f0=base | 0xffffffff81000031 | 90 nop | 32 -> no
deliver s1 | 2k/KU/K/1/0xffffffff84006000 | fixed rsp==0xffffffff84005fd8 f1=0xffffffff84001f00 f3=0xffffffff84006000
  s8=e5 s9=ugs s40=e19 s41=e4 s104=e3 | 0xffffffff81000031 | 90 nop | 2 -> no
deliver s1 | 2k/KU/K/1/0xffffffff84006000 | fixed rsp==0xffffffff84005fd8 | 0xffffffff81000031 | 90 nop | 2 -> no
deliver s1 | 14k/KU/K/0/- | fixed rsp=b-0x28:s0x1 f0=0xffffffff83006000 | 0xffffffff81000031 | 90 nop | 14 -> no
deliver s1 | 14k/KU/K/0/- | fixed rsp=b+0x8:s0x1 f0=base | 0xffffffff81000031 | 90 nop | 14 -> no
deliver s1 | 14k/KU/K/0/- | fixed rsp=b-0x28:s0x1 gs=UK map=U | 0xffffffff81000031 | 90 nop | 14 -> no
deliver s1 | 14k/KU/K/0/- | fixed rsp=b-0x28 | 0xffffffff81001044 | 90 nop | 2 -> no
deliver s1 | 14k/KU/K/0/- | fixed f0=base | 0xffffffff81000031 | 90 nop | 14 -> no
deliver s1 | sysu/UK/U/-/- | fixed gs=AU | 0xffffffff81000031 | 90 nop | 2 -> no
deliver s1 | sysu/UK/U/-/- | fixed map=A | 0xffffffff81001044 | 90 nop | 2 -> no
deliver s1 | sysu/UK/U/-/- | fixed s2=top | 0xffffffff81000031 | 90 nop | 2 -> no
deliver s1 | sysu/UK/U/-/- | fixed s2=e4:s0x10000 s3=plain:z0x1 | 0xffffffff81000031 | 90 nop | 2 -> no
deliver s1 | sysu/UK/U/-/- | fixed s2=e4:s0x10000 s3=plain:z0x1 | 0xffffffff81000031 | 90 nop | 18 -> no
deliver s1 | sysu/UK/U/-/- | fixed s1==0xffffffff84003ff0 s2==0xffffffff84005030 s3==0xffffffff84007020 |
  0xffffffff81001044 | 90 nop | 18 -> no
deliver s1 | sysu/UK/U/-/- | fixed f0=0xffffffff83006000 s1==0xffffffff82002900 s2==0x0 s3==0xffffffff83006000 |
  0xffffffff81000031 | 90 nop | 1 -> no
deliver s1 | sysu/UK/U/-/- | fixed f0=0xffffffff83006000 s1==0xffffffff82002900 s2==0x0 s3==0xffffffff83006000 |
  0xffffffff81000031 | 90 nop | 18 -> no
deliver x1 | sysu/UK/U/-/- | fixed s4==0xffffffff83005008 s5==0xffffffff84001018 | 0xffffffff81000031 | 90 nop | 34 ->
  no
deliver x1 | 14k/KU/K/0/- | fixed rsp=b-0x28:s0x1 flags=e17:z0x100 f0=base | 0xffffffff81000031 | 90 nop | 33 -> no
deliver x1 | 32k/KU/U/1/- | fixed rsp=b-0x28:s0x2 gs=UK map=U | 0xffffffff81001044 | 90 nop | 34 -> no
deliver x2 | sysu/UK/U/-/- | fixed rsp==0xffffffff84001f00 gs=UK map=U | 0xffffffff81000031 | 90 nop | 2 -> no
deliver x3 | 2u/UK/U/-/0xffffffff84006000 | fixed rsp==0xffffffff84005fd8 gs=UK map=U | 0xffffffff81001044 | 90 nop |
  18 -> no
deliver s2 | 2u/UK/U/-/0xffffffff84006000 | fixed rsp==0xffffffff84009fa0 f3=0xffffffff84005fd8 | 0xffffffff81001044 |
  90 nop | 2 -> no
deliver s1 | sysu/UK/U/-/- | fixed rsp==0xffffffff83005ed0 flags=plain:z0x200 f0=0xffffffff83005000 |
  0xffffffff81000031 body | e8caff7f00 call 0xffffffff81800000 | 14 -> no
deliver s1 | sysu/UK/U/-/- | fixed rsp==0xffffffff83005ed0 flags=plain:z0x200 f0=0xffffffff83005000 |
  0xffffffff81000031 body | e8caff7f00 call 0xffffffff81800000 | 32 -> no
deliver s1 | sysu/UK/U/-/- | fixed rsp==0xffffffff83005ed0 | 0xffffffff81000031 body | e8ca000000 call
  0xffffffff81000100 | 2 -> no
deliver s1 | sysu/UK/U/-/- | fixed rsp==0xffffffff83005ed0 | 0xffffffff81000031 body | 90 nop | 2 -> no
deliver s1 | 2k/KU/K/1/0xffffffff84006000 | fixed rsp==0xffffffff84005fd0 f1=base f3=0xffffffff84006000 s44=e16
  s104=e2 | 0xffffffff81000031 body | e80a008000 call 0xffffffff81800040 | 2 -> no
deliver s1 | 2k/KU/K/1/0xffffffff84006000 | fixed rsp=b-0x30 f3=base | 0xffffffff81001044 body | e8f7ef7f00 call
  0xffffffff81800040 | 2 -> no

# from user mode
user s1 | fixed s0=top | 14 -> no
user s1 | fixed s2=top s3=plain:z0x1 | 18 -> no
user s1 | fixed s0==0xffffffff84001ff8 s1==0xffffffff84003001 s2==0xffffffff84005028 s3==0xffffffff84007020 | 2 -> no
user s1 | fixed s0==0xffffffff84001ff8 s1==0xffffffff84003001 s2==0xffffffff84005028 s3==0xffffffff84007020 | 18 -> no
user s1 | fixed s0==0xffffffff83006000 s1==0x400000 s2==0x0 s3==0xffffffff8400802f s8==0x7 s9=top | 1 -> no
user s1 | fixed s0==0xffffffff83006000 s1==0x400000 s2==0x0 s3==0xffffffff8400802f s8==0x7 s9=top | 14 -> no
user s1 | fixed s0==0xffffffff83006000 s1==0x400000 s2==0x0 s3==0xffffffff8400802f s8==0x7 s9=top | 32 -> no
user x2 | fixed | 2 -> no
user x2 | fixed | 18 -> no
user x3 | fixed | 14 -> no
";

/// The key that is entered, and what differs there from a state in which each register is its own.
const ENTERED: &str = "\
# from kernel code
deliver s1 | 2u/UK/U/-/0xffffffff84006000 | fixed rsp==0xffffffff84005f00 f3=0xffffffff84005fd8 | 0xffffffff81001044 |
  90 nop | 1 -> 1k/KU/K/3/0xffffffff84004000 ; rsp==0xffffffff84003fd8 flags=plain:z0xffffffffffdbf328:o0x2
  f3=0xffffffff84005f00 s0==0xffffffff84002000 s1==0xffffffff84004000 s2==0xffffffff84006000 s3==0xffffffff84008000
  s4==0x0 s5==0x0 s6==0x0 s7==0x0 s8==0x0 s9==0xffffffff83006000 s40=e19 s41=e4:z0x7bffa0ff:o0xffffffff84005f00:s0x8
  s42=e17:z0xffffffffffdbf028:o0x2 s43=e18:z0xffffffffffffffef:o0x10 s44=e16:z0x7effefbb:o0xffffffff81001044
deliver s1 | 2u/UK/U/-/0xffffffff84006000 | fixed rsp==0xffffffff84005f00 f3=0xffffffff84006000 | 0xffffffff81000031 |
  90 nop | 32 -> 32k/KU/K/3/0xffffffff84005f00 ; rsp==0xffffffff84005ed8 flags=plain:z0xffffffffffdbf328:o0x2
  f3=0xffffffff84005f00 s0==0xffffffff84002000 s1==0xffffffff84004000 s2==0xffffffff84006000 s3==0xffffffff84008000
  s4==0x0 s5==0x0 s6==0x0 s7==0x0 s8==0x0 s9==0xffffffff83006000 s40=e19 s41=e4:z0x7bffa0ff:o0xffffffff84005f00:s0x8
  s42=e17:z0xffffffffffdbf028:o0x2 s43=e18:z0xffffffffffffffef:o0x10 s44=e16:z0x7effffce:o0xffffffff81000031
deliver s1 | sysu/UK/U/-/- | fixed | 0xffffffff81000031 | 90 nop | 2 -> 2k/KU/K/0/0xffffffff84006000 ;
  rsp==0xffffffff84005fd8 flags=plain:z0xffffffffffdbf328:o0x2 latch=YNN f0=0xffffffff83005f00 s0==0xffffffff84002000
  s1==0xffffffff84004000 s2==0xffffffff84006000 s3==0xffffffff84008000 s4==0x0 s5==0x0 s6==0x0 s7==0x0 s8==0x0
  s9==0xffffffff83006000 s40=e19 s41=e4:z0x7cffa0ff:o0xffffffff83005f00:s0x1 s42=e17:z0xffffffffffdbf028:o0x2
  s43=e18:z0xffffffffffffffef:o0x10 s44=e16:z0x7effffce:o0xffffffff81000031
deliver s1 | sysu/UK/U/-/- | fixed | 0xffffffff81000031 | 90 nop | 32 -> 32k/KU/K/0/0xffffffff83005f00 ;
  rsp==0xffffffff83005ed8 flags=plain:z0xffffffffffdbf328:o0x2 f0=0xffffffff83005f00 s0==0xffffffff84002000
  s1==0xffffffff84004000 s2==0xffffffff84006000 s3==0xffffffff84008000 s4==0x0 s5==0x0 s6==0x0 s7==0x0 s8==0x0
  s9==0xffffffff83006000 s40=e19 s41=e4:z0x7cffa0ff:o0xffffffff83005f00:s0x1 s42=e17:z0xffffffffffdbf028:o0x2
  s43=e18:z0xffffffffffffffef:o0x10 s44=e16:z0x7effffce:o0xffffffff81000031
deliver s1 | sysu/UK/U/-/- | fixed rsp==0xffffffff84001f00 gs=UK map=U | 0xffffffff81001044 | 90 nop | 32 ->
  32k/UK/U/1/0xffffffff84001f00 ; rsp==0xffffffff84001ed8 flags=plain:z0xffffffffffdbf328:o0x2 gs=UK map=U
  f1=0xffffffff84001f00 s0==0xffffffff84002000 s1==0xffffffff84004000 s2==0xffffffff84006000 s3==0xffffffff84008000
  s4==0x0 s5==0x0 s6==0x0 s7==0x0 s8==0x0 s9==0xffffffff83006000 s40=e19 s41=e4:z0x7bffe0ff:o0xffffffff84001f00:s0x2
  s42=e17:z0xffffffffffdbf028:o0x2 s43=e18:z0xffffffffffffffef:o0x10 s44=e16:z0x7effefbb:o0xffffffff81001044
deliver s1 | sysu/UK/U/-/- | fixed rsp=e4:s0x10000 | 0xffffffff81000031 | 90 nop | 2 -> 2k/KU/K/-/0xffffffff84006000 ;
  rsp==0xffffffff84005fd8 flags=plain:z0xffffffffffdbf328:o0x2 latch=YNN s0==0xffffffff84002000 s1==0xffffffff84004000
  s2==0xffffffff84006000 s3==0xffffffff84008000 s4==0x0 s5==0x0 s6==0x0 s7==0x0 s8==0x0 s9==0xffffffff83006000 s40=e19
  s41=e4:s0x10000 s42=e17:z0xffffffffffdbf028:o0x2 s43=e18:z0xffffffffffffffef:o0x10
  s44=e16:z0x7effffce:o0xffffffff81000031
deliver s1 | sysu/UK/U/-/- | fixed rbx==0x7 rsp==0xffffffff83005f08 rsi=e3:s0x1 flags=e17:z0x1:o0x302
  f0=0xffffffff83005f80 | 0xffffffff81001044 | 90 nop | 2 -> 2k/KU/K/0/0xffffffff84006000 ;
  rbx=e3:z0xfffffffffffffff8:o0x7:s0x10000 rsp==0xffffffff84005fd8 rsi=e6:s0x1 flags=plain:z0x301:o0x2 latch=YNN
  f0=0xffffffff83005f08 s0==0xffffffff84002000 s1==0xffffffff84004000 s2==0xffffffff84006000 s3==0xffffffff84008000
  s4==0x0 s5==0x0 s6==0x0 s7==0x0 s8==0x0 s9==0xffffffff83006000 s40=e19 s41=e4:z0x7cffa0f7:o0xffffffff83005f08:s0x1
  s42=e17:z0x1:o0x302 s43=e18:z0xffffffffffffffef:o0x10 s44=e16:z0x7effefbb:o0xffffffff81001044
deliver s1 | sysu/UK/U/-/- | fixed rsp==0xffffffff83005f08 f0=0xffffffff83005ef8 | 0xffffffff81000031 | 90 nop | 2 ->
  2k/KU/K/0/0xffffffff84006000 ; rsp==0xffffffff84005fd8 flags=plain:z0xffffffffffdbf328:o0x2 latch=YNN
  f0=0xffffffff83005ef8 s0==0xffffffff84002000 s1==0xffffffff84004000 s2==0xffffffff84006000 s3==0xffffffff84008000
  s4==0x0 s5==0x0 s6==0x0 s7==0x0 s8==0x0 s9==0xffffffff83006000 s40=e19 s41=e4:z0x7cffa0f7:o0xffffffff83005f08:s0x1
  s42=e17:z0xffffffffffdbf028:o0x2 s43=e18:z0xffffffffffffffef:o0x10 s44=e16:z0x7effffce:o0xffffffff81000031
deliver s1 | 14k/UK/K/0/0xffffffff83005f00 | fixed rsp==0xffffffff83005ed8 gs=KK f0=base f1=base | 0xffffffff81000031
  | 90 nop | 2 -> 2k/KK/K/0/0xffffffff84006000 ; rsp==0xffffffff84005fd8 flags=plain:z0xffffffffffdbf328:o0x2 gs=KK
  latch=YNN f0=0xffffffff83005ed8 f1=0xffffffff83005f00 s0==0xffffffff84002000 s1==0xffffffff84004000
  s2==0xffffffff84006000 s3==0xffffffff84008000 s4==0x0 s5==0x0 s6==0x0 s7==0x0 s8==0x0 s9==0xffffffff83006000 s40=e19
  s41=e4:z0x7cffa127:o0xffffffff83005ed8:s0x1 s42=e17:z0xffffffffffdbf028:o0x2 s43=e18:z0xffffffffffffffef:o0x10
  s44=e16:z0x7effffce:o0xffffffff81000031
deliver s1 | 14k/UK/K/0/0xffffffff83005f00 | fixed rsp=b-0x28 f0=base | 0xffffffff81000031 | 90 nop | 14 ->
  14k/KU/K/0/0xffffffff83005ed0 ; rsp==0xffffffff83005ea0 flags=plain:z0xffffffffffdbf328:o0x2 f0=0xffffffff83005ed8
  s0==0xffffffff84002000 s1==0xffffffff84004000 s2==0xffffffff84006000 s3==0xffffffff84008000 s4==0x0 s5==0x0 s6==0x0
  s7==0x0 s8==0x0 s9==0xffffffff83006000 s40=e19 s41=e4 s42=e17:z0xffffffffffdbf028:o0x2
  s43=e18:z0xffffffffffffffef:o0x10 s44=e16:z0x7effffce:o0xffffffff81000031
deliver s1 | 14k/UK/K/0/0xffffffff83005f00 | fixed rsp=b f0=base | 0xffffffff81001044 | 90 nop | 32 ->
  32k/KU/K/0/0xffffffff83005f00 ; rsp==0xffffffff83005ed8 flags=plain:z0xffffffffffdbf328:o0x2 f0=0xffffffff83005f00
  s0==0xffffffff84002000 s1==0xffffffff84004000 s2==0xffffffff84006000 s3==0xffffffff84008000 s4==0x0 s5==0x0 s6==0x0
  s7==0x0 s8==0x0 s9==0xffffffff83006000 s40=e19 s41=e4 s42=e17:z0xffffffffffdbf028:o0x2
  s43=e18:z0xffffffffffffffef:o0x10 s44=e16:z0x7effefbb:o0xffffffff81001044
deliver s1 | 2k/KU/K/1/0xffffffff84006000 | fixed rsp==0xffffffff84005fd8 f1=0xffffffff84001f00 f3=0xffffffff84006000
  s8=e5 s9=ugs s40=e19 s41=e4 s104=e3 | 0xffffffff81000031 | 90 nop | 1 -> 1k/KU/K/3/0xffffffff84004000 ;
  rsp==0xffffffff84003fd8 flags=plain:z0xffffffffffdbf328:o0x2 f1=0xffffffff84001f00 f3=0xffffffff84005fd8
  s0==0xffffffff84002000 s1==0xffffffff84004000 s2==0xffffffff84006000 s3==0xffffffff84008000 s4==0x0 s5==0x0 s6==0x0
  s7==0x0 s40=e19 s41=e4:z0x7bffa027:o0xffffffff84005fd8:s0x8 s42=e17:z0xffffffffffdbf028:o0x2
  s43=e18:z0xffffffffffffffef:o0x10 s44=e16:z0x7effffce:o0xffffffff81000031
deliver s1 | 14k/KU/K/0/- | fixed rsp=b-0x28:s0x1 f0=base f1=0xffffffff84001f00 s40=e19 s44=e16 | 0xffffffff81000031 |
  90 nop | 1 -> 1k/KU/K/0/0xffffffff84004000 ; rsp==0xffffffff84003fd8 flags=plain:z0xffffffffffdbf328:o0x2 f0=0x0
  f1=0xffffffff84001f00 s0==0xffffffff84002000 s1==0xffffffff84004000 s2==0xffffffff84006000 s3==0xffffffff84008000
  s4==0x0 s5==0x0 s6==0x0 s7==0x0 s8==0x0 s9==0xffffffff83006000 s40=e19 s41=e4:z0x7cff8000:o0xffffffff83000000:s0x1
  s42=e17:z0xffffffffffdbf028:o0x2 s43=e18:z0xffffffffffffffef:o0x10 s44=e16:z0x7effffce:o0xffffffff81000031
deliver s1 | 14k/KU/K/0/- | fixed rsp=b-0x28:s0x1 f0=base f1=0xffffffff84001f00 s40=e19 s44=e16 | 0xffffffff81000031 |
  90 nop | 14 -> 14k/KU/K/0/- ; rsp=b-0x30:s0x1 flags=plain:z0xffffffffffdbf328:o0x2 f0=base f1=0xffffffff84001f00
  s0==0xffffffff84002000 s1==0xffffffff84004000 s2==0xffffffff84006000 s3==0xffffffff84008000 s4==0x0 s5==0x0 s6==0x0
  s7==0x0 s8==0x0 s9==0xffffffff83006000 s40=e19 s41=e4:z0x7cff8000:o0xffffffff83000000:s0x1
  s42=e17:z0xffffffffffdbf028:o0x2 s43=e18:z0xffffffffffffffef:o0x10 s44=e16:z0x7effffce:o0xffffffff81000031
deliver s1 | 14k/KU/K/0/- | fixed rsp=b-0x28:s0x1 f3=base | 0xffffffff81001044 | 90 nop | 14 -> 14k/KU/K/0/- ;
  rsp=b-0x30:s0x1 flags=plain:z0xffffffffffdbf328:o0x2 f0=base f3=0x0 s0==0xffffffff84002000 s1==0xffffffff84004000
  s2==0xffffffff84006000 s3==0xffffffff84008000 s4==0x0 s5==0x0 s6==0x0 s7==0x0 s8==0x0 s9==0xffffffff83006000 s40=e19
  s41=e4:z0x7cff8000:o0xffffffff83000000:s0x1 s42=e17:z0xffffffffffdbf028:o0x2 s43=e18:z0xffffffffffffffef:o0x10
  s44=e16:z0x7effefbb:o0xffffffff81001044
deliver s1 | 14k/KU/K/0/- | fixed rsp=b:s0x1 f0=base | 0xffffffff81001044 | 90 nop | 14 -> 14k/KU/K/0/- ;
  rsp=b-0x30:s0x1 flags=plain:z0xffffffffffdbf328:o0x2 f0=base s0==0xffffffff84002000 s1==0xffffffff84004000
  s2==0xffffffff84006000 s3==0xffffffff84008000 s4==0x0 s5==0x0 s6==0x0 s7==0x0 s8==0x0 s9==0xffffffff83006000 s40=e19
  s41=e4:z0x7cff8000:o0xffffffff83000000:s0x1 s42=e17:z0xffffffffffdbf028:o0x2 s43=e18:z0xffffffffffffffef:o0x10
  s44=e16:z0x7effefbb:o0xffffffff81001044
deliver s1 | 14k/KU/K/0/- | fixed rsp=b-0x28:s0x1 gs=UK map=U | 0xffffffff81000031 | 90 nop | 2 ->
  2k/UK/U/0/0xffffffff84006000 ; rsp==0xffffffff84005fd8 flags=plain:z0xffffffffffdbf328:o0x2 gs=UK map=U latch=YNN
  f0=0x0 s0==0xffffffff84002000 s1==0xffffffff84004000 s2==0xffffffff84006000 s3==0xffffffff84008000 s4==0x0 s5==0x0
  s6==0x0 s7==0x0 s8==0x0 s9==0xffffffff83006000 s40=e19 s41=e4:z0x7cff8000:o0xffffffff83000000:s0x1
  s42=e17:z0xffffffffffdbf028:o0x2 s43=e18:z0xffffffffffffffef:o0x10 s44=e16:z0x7effffce:o0xffffffff81000031
deliver s1 | sysu/UK/U/-/- | fixed s3==0xffffffff83005ef8 | 0xffffffff81000031 | 90 nop | 18 ->
  18k/KU/K/0/0xffffffff83005ef0 ; rsp==0xffffffff83005ec8 flags=plain:z0xffffffffffdbf328:o0x2 latch=NNY
  f0=0xffffffff83005f00 s0==0xffffffff84002000 s1==0xffffffff84004000 s2==0xffffffff84006000 s3==0xffffffff83005ef8
  s4==0x0 s5==0x0 s6==0x0 s7==0x0 s8==0x0 s9==0xffffffff83006000 s40=e19 s41=e4:z0x7cffa0ff:o0xffffffff83005f00:s0x1
  s42=e17:z0xffffffffffdbf028:o0x2 s43=e18:z0xffffffffffffffef:o0x10 s44=e16:z0x7effffce:o0xffffffff81000031
deliver x1 | sysu/UK/U/-/- | fixed s4==0xffffffff83005008 s5==0xffffffff84001018 | 0xffffffff81000031 | 90 nop | 3 ->
  3k/KU/K/0/0xffffffff83005f00 ; rsp==0xffffffff83005ed8 flags=plain:z0xffffffffffdbf128:o0x2 f0=0xffffffff83005f00
  s0==0xffffffff84002000 s1==0xffffffff84004000 s2==0xffffffff84006000 s3==0xffffffff84008000 s4==0xffffffff83005008
  s5==0xffffffff84001018 s6==0x0 s7==0x0 s8==0x0 s9==0xffffffff83006000 s40=e19
  s41=e4:z0x7cffa0ff:o0xffffffff83005f00:s0x1 s42=e17:z0xffffffffffdbf028:o0x2 s43=e18:z0xffffffffffffffef:o0x10
  s44=e16:z0x7effffce:o0xffffffff81000031
deliver x1 | sysu/UK/U/-/- | fixed s4==0xffffffff83005008 s5==0xffffffff84001018 | 0xffffffff81000031 | 90 nop | 40 ->
  40k/KU/K/0/0xffffffff83005f00 ; rsp==0xffffffff83005ed8 flags=plain:z0xffffffffffdbf128:o0x2 f0=0xffffffff83005f00
  s0==0xffffffff84002000 s1==0xffffffff84004000 s2==0xffffffff84006000 s3==0xffffffff84008000 s4==0xffffffff83005008
  s5==0xffffffff84001018 s6==0x0 s7==0x0 s8==0x0 s9==0xffffffff83006000 s40=e19
  s41=e4:z0x7cffa0ff:o0xffffffff83005f00:s0x1 s42=e17:z0xffffffffffdbf028:o0x2 s43=e18:z0xffffffffffffffef:o0x10
  s44=e16:z0x7effffce:o0xffffffff81000031
deliver x1 | 14k/KU/K/0/- | fixed rsp=b-0x28:s0x1 flags=e17:z0x100 f0=base | 0xffffffff81000031 | 90 nop | 3 ->
  3k/KU/K/0/- ; rsp=b-0x28:s0x1 flags=plain:z0x100 f0=base s0==0xffffffff84002000 s1==0xffffffff84004000
  s2==0xffffffff84006000 s3==0xffffffff84008000 s4==0x0 s5==0x0 s6==0x0 s7==0x0 s8==0x0 s9==0xffffffff83006000 s40=e19
  s41=e4:z0x7cff8000:o0xffffffff83000000:s0x1 s42=e17:z0x100 s43=e18:z0xffffffffffffffef:o0x10
  s44=e16:z0x7effffce:o0xffffffff81000031
deliver x1 | 14k/KU/K/0/- | fixed rsp=b-0x28:s0x1 flags=e17:z0x100 f0=base | 0xffffffff81000031 | 90 nop | 17 ->
  17k/KU/K/0/- ; rsp=b-0x30:s0x1 flags=plain:z0x300 f0=base s0==0xffffffff84002000 s1==0xffffffff84004000
  s2==0xffffffff84006000 s3==0xffffffff84008000 s4==0x0 s5==0x0 s6==0x0 s7==0x0 s8==0x0 s9==0xffffffff83006000 s40=e19
  s41=e4:z0x7cff8000:o0xffffffff83000000:s0x1 s42=e17:z0x100 s43=e18:z0xffffffffffffffef:o0x10
  s44=e16:z0x7effffce:o0xffffffff81000031
deliver x1 | 32k/KU/U/1/- | fixed rsp=b-0x28:s0x2 gs=UK map=U | 0xffffffff81001044 | 90 nop | 14 -> 14k/UK/U/1/- ;
  rsp=b-0x30:s0x2 flags=plain:z0xffffffffffdbf328:o0x2 gs=UK map=U f1=base s0==0xffffffff84002000
  s1==0xffffffff84004000 s2==0xffffffff84006000 s3==0xffffffff84008000 s4==0x0 s5==0x0 s6==0x0 s7==0x0 s8==0x0
  s9==0xffffffff83006000 s40=e19 s41=e4:z0x7bffe000:o0xffffffff84001000:s0x2 s42=e17:z0xffffffffffdbf028:o0x2
  s43=e18:z0xffffffffffffffef:o0x10 s44=e16:z0x7effefbb:o0xffffffff81001044
deliver x2 | sysu/UK/U/-/- | fixed | 0xffffffff81000031 | 90 nop | 32 -> 32k/KU/K/0/0xffffffff83005f00 ;
  rsp==0xffffffff83005ed8 flags=plain:z0xffffffffffdbf328:o0x2 f0=0xffffffff83005f00 s0==0xffffffff84002000
  s1==0xffffffff84004000 s2==0xffffffff84006000 s3==0xffffffff84008000 s4==0x0 s5==0x0 s6==0x0 s7==0x0 s8==0x0
  s9==0xffffffff83006000 s40=e19 s41=e4:z0x7cffa0ff:o0xffffffff83005f00:s0x1 s42=e17:z0xffffffffffdbf028:o0x2
  s43=e18:z0xfffffffffffff007:o0xff8 s44=e16:z0x7effffce:o0xffffffff81000031
deliver s2 | 2u/UK/U/-/0xffffffff84006000 | fixed rsp==0xffffffff84009fa0 f3=0xffffffff84006000 | 0xffffffff81000031 |
  90 nop | 2 -> 2k/KU/K/5/0xffffffff84006000 ; rsp==0xffffffff84005fd8 flags=plain:z0xffffffffffdbf328:o0x2 latch=YNN
  f3=0xffffffff84006000 f5=0xffffffff84009fa0 s0==0xffffffff84002000 s1==0xffffffff84004000 s2==0xffffffff84006000
  s3==0xffffffff84008000 s4==0x0 s5==0x0 s6==0x0 s7==0x0 s8==0x0 s9==0xffffffff83006000 s40=e19
  s41=e4:z0x7bff605f:o0xffffffff84009fa0:s0x20 s42=e17:z0xffffffffffdbf028:o0x2 s43=e18:z0xffffffffffffffef:o0x10
  s44=e16:z0x7effffce:o0xffffffff81000031
deliver s2 | 2u/UK/U/-/0xffffffff84006000 | fixed rsp==0xffffffff84009fa0 f3=0xffffffff84006000 | 0xffffffff81000031 |
  90 nop | 1 -> 1k/KU/K/5/0xffffffff84004000 ; rsp==0xffffffff84003fd8 flags=plain:z0xffffffffffdbf328:o0x2
  f3=0xffffffff84006000 f5=0xffffffff84009fa0 s0==0xffffffff84002000 s1==0xffffffff84004000 s2==0xffffffff84006000
  s3==0xffffffff84008000 s4==0x0 s5==0x0 s6==0x0 s7==0x0 s8==0x0 s9==0xffffffff83006000 s40=e19
  s41=e4:z0x7bff605f:o0xffffffff84009fa0:s0x20 s42=e17:z0xffffffffffdbf028:o0x2 s43=e18:z0xffffffffffffffef:o0x10
  s44=e16:z0x7effffce:o0xffffffff81000031
deliver s1 | sysu/UK/U/-/- | fixed rsp==0xffffffff83005ed0 flags=e17:o0x202 | 0xffffffff81000031 body | e8caff7f00
  call 0xffffffff81800000 | 2 -> 2k/KU/K/0/0xffffffff84006000 ; rsp==0xffffffff84005fd8
  flags=plain:z0xffffffffffdbf328:o0x2 latch=YNN f0=0xffffffff830056d0 s0==0xffffffff84002000 s1==0xffffffff84004000
  s2==0xffffffff84006000 s3==0xffffffff84008000 s4==0x0 s5==0x0 s6==0x0 s7==0x0 s8==0x0 s9==0xffffffff83006000 s40=e19
  s41=e4:z0x7cff8000:o0xffffffff83000000:s0x1 s42=e17:z0xffffffffffdbf028:o0x2 s43=e18:z0xffffffffffffffef:o0x10
  s44=e16
deliver s1 | sysu/UK/U/-/- | fixed rsp==0xffffffff83005ed0 flags=plain:z0x200 f0=0xffffffff83005ed0 |
  0xffffffff81001044 body | e8c7ef7f00 call 0xffffffff81800010 | 14 -> 14k/KU/K/0/- ; rsp=b-0x30:s0x1
  flags=plain:z0xffffffffffdbf328:o0x2 f0=base s0==0xffffffff84002000 s1==0xffffffff84004000 s2==0xffffffff84006000
  s3==0xffffffff84008000 s4==0x0 s5==0x0 s6==0x0 s7==0x0 s8==0x0 s9==0xffffffff83006000 s40=e19
  s41=e4:z0x7cff8000:o0xffffffff83000000:s0x1 s42=e17:z0xffffffffffdbf228:o0x2 s43=e18:z0xffffffffffffffef:o0x10
  s44=e16
deliver s1 | sysu/UK/U/-/- | fixed rsp==0xffffffff83002100 | 0xffffffff81000031 body | e8caff7f00 call
  0xffffffff81800000 | 14 -> 14k/KU/K/0/- ; rsp=b-0x30:s0x1 flags=plain:z0xffffffffffdbf328:o0x2 f0=base
  s0==0xffffffff84002000 s1==0xffffffff84004000 s2==0xffffffff84006000 s3==0xffffffff84008000 s4==0x0 s5==0x0 s6==0x0
  s7==0x0 s8==0x0 s9==0xffffffff83006000 s40=e19 s41=e4:z0x7cff8000:o0xffffffff83000000:s0x1
  s42=e17:z0xffffffffffdbf028:o0x2 s43=e18:z0xffffffffffffffef:o0x10 s44=e16
deliver s1 | 2k/KU/K/1/0xffffffff84006000 | fixed rsp==0xffffffff84005fd0 f1=base f3=0xffffffff84006000 s44=e16
  s104=e2 | 0xffffffff81000031 body | e80a008000 call 0xffffffff81800040 | 14 -> 14k/KU/K/3/- ; rsp=b-0x30:s0x8
  flags=plain:z0xffffffffffdbf328:o0x2 f1=0xffffffff84006000 f3=base s0==0xffffffff84002000 s1==0xffffffff84004000
  s2==0xffffffff84006000 s3==0xffffffff84008000 s4==0x0 s5==0x0 s6==0x0 s7==0x0 s8==0x0 s9==0xffffffff83006000 s40=e19
  s41=e4:z0x7bffa000:o0xffffffff84005000:s0x8 s42=e17:z0xffffffffffdbf028:o0x2 s43=e18:z0xffffffffffffffef:o0x10
  s44=e16

# from user mode
user s1 | fixed | 2 -> 2u/UK/U/-/0xffffffff84006000 ; rsp==0xffffffff84005fd8 flags=plain:z0xffffffffffdbf328:o0x2
  gs=UK map=U latch=YNN s0==0xffffffff84002000 s1==0xffffffff84004000 s2==0xffffffff84006000 s3==0xffffffff84008000
  s4==0x0 s5==0x0 s6==0x0 s7==0x0 s8==0x0 s9==0xffffffff83006000 s40=e19:z0xffffffffffffffd4:o0x2b s41=e4:s0x10000
  s42=e17:z0xffffffffffdbf028:o0x202 s43=e18:z0xffffffffffffffcc:o0x23 s44=e16:z0xffff800000000000
user s1 | fixed | 18 -> 18u/UK/U/-/0xffffffff84008000 ; rsp==0xffffffff84007fd8 flags=plain:z0xffffffffffdbf328:o0x2
  gs=UK map=U latch=NNY s0==0xffffffff84002000 s1==0xffffffff84004000 s2==0xffffffff84006000 s3==0xffffffff84008000
  s4==0x0 s5==0x0 s6==0x0 s7==0x0 s8==0x0 s9==0xffffffff83006000 s40=e19:z0xffffffffffffffd4:o0x2b s41=e4:s0x10000
  s42=e17:z0xffffffffffdbf028:o0x202 s43=e18:z0xffffffffffffffcc:o0x23 s44=e16:z0xffff800000000000
user s1 | fixed nmi=Y mcip=A | syscall -> sysu/UK/U/-/- ; rcx=e16:z0xffff800000000000 rsp=e4:s0x10000
  r11=e17:z0xffffffffffdbf028:o0x202 flags=plain:z0xffffffffffdff728:o0x2 gs=UK map=U latch=YNA s0==0xffffffff84002000
  s1==0xffffffff84004000 s2==0xffffffff84006000 s3==0xffffffff84008000 s4==0x0 s5==0x0 s6==0x0 s7==0x0 s8==0x0
  s9==0xffffffff83006000
user x1 | fixed | 1 -> 1u/UK/U/-/0xffffffff84004000 ; rsp==0xffffffff84003fd8 flags=plain:z0xffffffffffdbf328:o0x2
  gs=UK map=U s0==0xffffffff84002000 s1==0xffffffff84004000 s2==0xffffffff84006000 s3==0xffffffff84008000
  s4==0xffffffff83005008 s5==0xffffffff84001018 s6==0x0 s7==0x0 s8==0x0 s9==0xffffffff83006000 s10==0x5
  s40=e19:z0xffffffffffffffd4:o0x2b s41=e4:s0x10000 s42=e17:z0xffffffffffdbf028:o0x202
  s43=e18:z0xffffffffffffffcc:o0x33 s44=e16:z0xffff800000000000
user x1 | fixed | 18 -> 18u/UK/U/-/0xffffffff84008000 ; rsp==0xffffffff84007fd8 flags=plain:z0xffffffffffdbf328:o0x2
  gs=UK map=U latch=NNY s0==0xffffffff84002000 s1==0xffffffff84004000 s2==0xffffffff84006000 s3==0xffffffff84008000
  s4==0xffffffff83005008 s5==0xffffffff84001018 s6==0x0 s7==0x0 s8==0x0 s9==0xffffffff83006000 s10==0x5
  s40=e19:z0xffffffffffffffd4:o0x2b s41=e4:s0x10000 s42=e17:z0xffffffffffdbf028:o0x202
  s43=e18:z0xffffffffffffffcc:o0x33 s44=e16:z0xffff800000000000
user x1 | fixed | syscall -> sysu/UK/U/-/- ; rcx=e16:z0xffff800000000000 rsp=e4:s0x10000
  r11=e17:z0xffffffffffdbf028:o0x202 flags=plain:z0xffffffffffdff728:o0x2 gs=UK map=U s0==0xffffffff84002000
  s1==0xffffffff84004000 s2==0xffffffff84006000 s3==0xffffffff84008000 s4==0xffffffff83005008 s5==0xffffffff84001018
  s6==0x0 s7==0x0 s8==0x0 s9==0xffffffff83006000 s10==0x5
user x1 | fixed nmi=A mcip=Y s10=top | syscall -> sysu/UK/U/-/- ; rcx=e16:z0xffff800000000000 rsp=e4:s0x10000
  r11=e17:z0xffffffffffdbf028:o0x202 flags=plain:z0xffffffffffdff728:o0x2 gs=UK map=U latch=ANY s0==0xffffffff84002000
  s1==0xffffffff84004000 s2==0xffffffff84006000 s3==0xffffffff84008000 s4==0xffffffff83005008 s5==0xffffffff84001018
  s6==0x0 s7==0x0 s8==0x0 s9==0xffffffff83006000
user s2 | fixed mcip=A s9==0x5 | 2 -> 2u/UK/U/-/0xffffffff84006000 ; rsp==0xffffffff84005fd8
  flags=plain:z0xffffffffffdbf328:o0x2 gs=UK map=U latch=YNA s0==0xffffffff84002000 s1==0xffffffff84004000
  s2==0xffffffff84006000 s3==0xffffffff84008000 s4==0x0 s5==0x0 s6==0x0 s7==0x0 s8==0x0 s9==0x5
  s40=e19:z0xffffffffffffffd4:o0x2b s41=e4:s0x10000 s42=e17:z0xffffffffffdbf028:o0x202
  s43=e18:z0xffffffffffffffcc:o0x23 s44=e16:z0xffff800000000000
";

#[test]
fn no_frame_is_permitted_where_the_cases_say_so(rt: HostRuntime) -> Result<(), Fail> {
    compare(rt.alloc(), Kind::Event, REFUSED)
}

#[test]
fn each_delivery_enters_as_its_case_says(rt: HostRuntime) -> Result<(), Fail> {
    compare(rt.alloc(), Kind::Event, ENTERED)
}
