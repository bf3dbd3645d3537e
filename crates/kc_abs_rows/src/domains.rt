//! The domains and the places, by outside cases.

use crate::table::{Kind, compare};
use std::test::Fail;

/// Known bits, values, spaces, latches, floors, clobbers and states.
const DOMAINS: &str = "\
# bits
bits.and 0x7fffffffffffffff/0x0 0xfffffffffffffffe/0x1 -> 0xffffffffffffffff/0x0
bits.and 0x8d3802901000a2da/0x4043b902e5ed5d04 0x7f/0x0 -> 0x8d3802901000a2ff/0x0
bits.and 0x800a26185128b892/0x984c8e786534768 0x44050845201ad502/0x890a2010cd600830 ->
  0xc40f2e5d713afd92/0x900000084400020
bits.or 0x7fffffffffffffff/0x0 0xfffffffffffffffe/0x1 -> 0x7ffffffffffffffe/0x1
bits.or 0xf/0x0 0x1ae5c3991cd09874/0xe51a3c66e32f678b -> 0x4/0xe51a3c66e32f678b
bits.or 0xffffffffffffff00/0xcf 0xf98b0d0ee873905e/0x674f2f1138c6fa1 -> 0xf98b0d0ee8739000/0x674f2f1138c6fef
bits.xor 0x7fffffffffffffff/0x0 0xfffffffffffffffe/0x1 -> 0x7ffffffffffffffe/0x1
bits.xor 0x8000000000000000/0x0 0xf/0x0 -> 0x0/0x0
bits.xor 0xed2b5aeae503d1b2/0x2d4a5151afc2e4d 0x13b352a70f18847e/0xec4cad58f0e67b81 ->
  0x167f7b215e4aa33/0xee98084dea1a55cc
bits.add 0x7fffffffffffffff/0x0 0xfffffffffffffffe/0x1 -> 0x7ffffffffffffffe/0x1
bits.add 0x9121044082c97000/0x64064a3559060df0 0xffffffff84025264/0x0 -> 0x9121044000004000/0x64064a3500000000
bits.add 0x9c705d7768a0d311/0x638fa288974f2cee 0xffff800000000000/0x0 -> 0x9c60000000000000/0x6380000000000000
bits.sub 0x7fffffffffffffff/0x0 0xfffffffffffffffe/0x1 -> 0x0/0x7fffffffffffffff
bits.sub 0x0/0x8000000000000000 0x2b3194d916a36312/0xd4ce6b26e15c9ced -> 0x0/0x0
bits.sub 0xfac9f63d84d3c923/0x52609c27b2c36dc 0x9cc982331b020086/0x6106584824bdd879 ->
  0x580040002991809c/0xa00f8070162e1063
bits.leq 0xc2d0108420000000/0x3d2fef7bd8000000 0x4090000400000000/0x1100a20988000000 -> yes
bits.leq 0x0/0x8000000000000000 0x0/0x8000000000000000 -> yes
bits.leq 0xffffffffffffc000/0x3fcf 0xffffffffc911c090/0x0 -> no
bits.join 0x30c7860000000000/0xcf38780000000000 0x1894b7a49e000000/0xe76b485b61000000 ->
  0x1084860000000000/0xc728480000000000
bits.join 0xffffffffffff0000/0xfffe 0xffffffff88082001/0x0 -> 0xffffffff88080000/0x0
bits.join 0x7fffffffffffffff/0x8000000000000000 0x3e883255cae4b6fc/0x8000000000000000 ->
  0x3e883255cae4b6fc/0x8000000000000000
bits.single 0xffffffffffffffff/0x0 -> 0x0
bits.single 0x7ffffffffffffffa/0x5 -> none
bits.single 0xffffffff50704201/0x0 -> none
bits.of 0x0 -> 0xffffffffffffffff/0x0
bits.of 0xffffffffffffffff -> 0x0/0xffffffffffffffff
bits.of 0xffffffff83006000 -> 0x7cff9fff/0xffffffff83006000
bits.stands 0x702165f877b8e000/0x8fde9a0788470000 0x8fde9a0788470996 -> yes
bits.stands 0xfffffffffc000000/0x1ffffff 0x1ffffff -> yes
bits.stands 0x0/0x8000000000000000 0xa23e4e40206899f1 -> yes

# values
value.const s1 0x0 -> plain:z0xffffffffffffffff:s0x10000
value.const s1 0xffffffff83001ff8 -> plain:z0x7cffe007:o0xffffffff83001ff8:s0x10000
value.const s1 0x8000000000000000 -> plain:z0x7fffffffffffffff:o0x8000000000000000:s0x10000
value.const s1 0xffffffff84008fff -> plain:z0x7bff7000:o0xffffffff84008fff:s0x10000
value.const s2 0xffffffff84005fd8 -> plain:z0x7bffa027:o0xffffffff84005fd8:s0x8
value.const s2 0xffffffffffffffff -> plain:o0xffffffffffffffff:s0x10000
value.derived s1 0xffffffff0c511004/0x0 -> plain:z0xffffffff0c511004
value.derived s1 0x80a1f2e108235e3a/0x46120114e70ca081 -> plain:z0x80a1f2e108235e3a:o0x46120114e70ca081
value.derived s1 0x9e5d018d20c1da18/0x61a25c62561c25c7 -> plain:z0x9e5d018d20c1da18:o0x61a25c62561c25c7
value.derived s1 0x5282600010215504/0xa00000d80c980202 -> plain:z0x5282600010215504:o0xa00000d80c980202
value.derived s1 0x980092451100244/0xc00c20c0a000c083 -> plain:z0x980092451100244:o0xc00c20c0a000c083
value.derived s1 0xffffffffffffffff/0x0 -> plain:z0xffffffffffffffff:s0x10000
value.low s1 top -> plain:z0xffffffff00000000
value.low s1 e18:z0x2346be80bd45ae8a:o0xdcb9417f42aa5175 -> plain:z0xffffffffbd45ae8a:o0x42aa5175
value.low s1 =0xffffffff84005fd8 -> =0x84005fd8
value.low s1 plain:z0xfc00000000000000:o0x3ffffffffffffcf -> plain:z0xffffffff00000000:o0xffffffcf
value.low s1 e11:s0x1 -> plain:z0xffffffff00000000
value.low s1 b-0x30:s0x8 -> plain:z0xffffffff00000000
value.plain =0xffffffff84005fd8 -> =0xffffffff84005fd8
value.plain e19:s0x10000 -> plain:s0x10000
value.plain e18:s0x3 -> plain:s0x3
value.plain top -> top
value.plain plain:z0x7ffff -> plain:z0x7ffff
value.plain e18 -> top
value.prefix s1 0 -> 0x7cff8000/0xffffffff83000000
value.prefix s1 2 -> 0x7bffc000/0xffffffff84003000
value.prefix s1 4 -> 0x7bff8000/0xffffffff84007000
value.prefix s2 1 -> 0x7bffe000/0xffffffff84001000
value.prefix s2 3 -> 0x7bffa000/0xffffffff84005000
value.prefix s2 5 -> 0x7bff6000/0xffffffff84009000
value.leq b-0x30:s0x1 b-0x30:s0x3 -> yes
value.leq top plain:s0x1f -> no
value.leq plain:z0xffffffffffdbf028:o0x2 plain:z0xffffffffffdbf028:o0x2 -> yes
value.leq b+0x8 b-0x30 -> no
value.leq b-0x28 top -> yes
value.leq b+0x8:s0x8 plain:s0xa -> yes
value.join b-0x30:s0x1 b-0x30:s0x3 -> b-0x30:s0x3
value.join top top -> top
value.join =0x5 plain:z0xffffffff81181b20 -> plain:z0xffffffff81181b20
value.join =0x1 b:s0x1 -> plain:s0x10001
value.join ugs:z0xffff800000000000:s0x10000 top -> top
value.join plain:z0x4450800801250020:o0x23800b00de500341 plain:z0xd92b58cb20288520:o0x204001344d565add ->
  plain:z0x4000000800200020:o0x200001004c500241
value.stands s1 words=- base=0xffffffff83005f00 ugs=0x7000 | b-0x1000:s0x1 0xffffffff83004f00 -> yes
value.stands s1 words=- base=0xffffffff83005f00 ugs=0x7000 | top 0x2ed57772e3e88e5b -> yes
value.stands s1 words=- base=0xffffffff83005f00 ugs=0x7000 | b-0x1000 0xffffffff83004f00 -> yes
value.stands s1 words=- base=0xffffffff84006000 ugs=0x0 | =0x0 0x0 -> yes
value.stands s1 words=- base=0xffffffff83005f00 ugs=0x0 | plain:z0xffffffffd1022280 0x400000 -> yes
value.stands s1 words=- base=0xffffffff83005f00 ugs=0x0 | plain:z0x3953d4262839055b:o0x46ac2bd9d7c6faa4:s0x8
  0x46ac2bd9d7c6faa4 -> no

# spaces and latches
who.leq K K -> yes
who.leq U K -> no
who.leq A K -> no
who.join K K -> K
who.join U K -> A
who.join A K -> A
who.stands kernel=0xffffffff82002000 user=0x7000 | K 0xffffffff82002000 -> yes
who.stands kernel=0xffffffff82002000 user=0x7000 | U 0xffffffff82002000 -> no
who.stands kernel=0xffffffff82002000 user=0x7000 | A 0xffffffff82002000 -> yes
map.leq K K -> yes
map.leq U K -> no
map.leq A K -> no
map.join K K -> K
map.join U K -> A
map.join A K -> A
map.stands kernel=0xffffffff82002000 user=0x7000 | K 0xffffffff82002000 -> yes
map.stands kernel=0xffffffff82002000 user=0x7000 | U 0xffffffff82002000 -> no
map.stands kernel=0xffffffff82002000 user=0x7000 | A 0xffffffff82002000 -> yes
tri.leq N N -> yes
tri.leq Y N -> no
tri.leq A N -> no
tri.join N N -> N
tri.join Y N -> A
tri.join A N -> A
tri.stands N no -> yes
tri.stands Y no -> no
tri.stands A no -> yes
tri.top N -> no
tri.top Y -> no
tri.top A -> yes
gs.leq AU UU -> no
gs.leq AK KU -> no
gs.leq UK AA -> yes
gs.join AU UU -> AU
gs.join AK KU -> AA
gs.join UK AA -> AA
latches.leq YNY NNA -> no
latches.leq YYY NAA -> no
latches.leq AAN AYN -> no
latches.join YNY NNA -> ANA
latches.join YYY NAA -> AAA
latches.join AAN AYN -> AAN

# floors, clobbers, summaries, user states
floor.leq base base -> yes
floor.leq none none -> yes
floor.leq 0x0 0x0 -> yes
floor.leq 0xffffffff83005f00 0xffffffff83005f00 -> yes
floor.leq 0xffffffff83005f08 0xffffffff83005f08 -> yes
floor.leq 0xfffffffffffffffe base -> no
floor.join base base -> base
floor.join none none -> none
floor.join 0x0 0x0 -> 0x0
floor.join 0xffffffff83005f00 0xffffffff83005f00 -> 0xffffffff83005f00
floor.join 0xffffffff83005f08 0xffffffff83005f08 -> 0xffffffff83005f08
floor.join 0xfffffffffffffffe base -> 0x0
floor.top base -> no
floor.top none -> no
floor.top 0x0 -> yes
floor.top 0xffffffff83005f00 -> no
floor.top 0xffffffff83005f08 -> no
floor.top 0xfffffffffffffffe -> no
floor.stands base=0xffffffff83005f00 | base - -> yes
floor.stands base=0xffffffff83005f00 | none - -> yes
floor.stands base=0xffffffff83005f00 | 0x0 - -> yes
floor.stands base=0xffffffff83005f08 | 0xffffffff83005f00 0xffffffff83005f00 -> yes
floor.stands base=0xffffffff83005f08 | 0xffffffff83005f08 0xffffffff83005f00 -> no
floor.stands base=0xffffffff83005f08 | 0xfffffffffffffffe 0xffffffff83005f00 -> no
clobber.leq stacks=0xffff words=0x300 | stacks=0xffff words=0x8000000000 -> no
clobber.leq stacks=0x5 words=0xff | stacks=0x5 words=0x1 -> no
clobber.leq stacks=0x5 words=0xff | stacks=0x8000 words=0x300 -> no
clobber.leq stacks=0x1 words=0xff | stacks=0x8000 words=0x1 -> no
clobber.leq stacks=0xffff words=0x300 | stacks=0xffff words=0x8000000300 -> yes
clobber.leq stacks=0xffff words=0x8000000000 | stacks=0xffff words=0xffffffffff -> yes
clobber.join stacks=0xffff words=0x300 | stacks=0xffff words=0x8000000000 -> stacks=0xffff words=0x8000000300
clobber.join stacks=0x5 words=0xff | stacks=0x5 words=0x1 -> stacks=0x5 words=0xff
clobber.join stacks=0x5 words=0xff | stacks=0x8000 words=0x300 -> stacks=0x8005 words=0x3ff
clobber.join stacks=0x1 words=0xff | stacks=0x8000 words=0x1 -> stacks=0x8001 words=0xff
clobber.join stacks=0xffff words=0x300 | stacks=0xffff words=0x8000000300 -> stacks=0xffff words=0x8000000300
clobber.join stacks=0xffff words=0x8000000000 | stacks=0xffff words=0xffffffffff -> stacks=0xffff words=0xffffffffff
summary.leq stacks=0x5 words=0x300 latch=NNN | stacks=0x1 words=0x1 latch=NYA -> no
summary.leq stacks=0x1 words=0xff latch=NYN | stacks=0x0 words=0xffffffffff latch=NNN -> no
summary.leq stacks=0x5 words=0xff latch=YNA | stacks=0x3 words=0x0 latch=NYN -> no
summary.leq stacks=0x0 words=0x1 latch=AYN | stacks=0x3 words=0x1 latch=YYA -> no
summary.leq stacks=0x5 words=0x300 latch=NNN | stacks=0x5 words=0x301 latch=NAA -> yes
summary.leq stacks=0x1 words=0xff latch=NYN | stacks=0x1 words=0xffffffffff latch=NAN -> yes
summary.join stacks=0x5 words=0x300 latch=NNN | stacks=0x1 words=0x1 latch=NYA -> stacks=0x5 words=0x301 latch=NAA
summary.join stacks=0x1 words=0xff latch=NYN | stacks=0x0 words=0xffffffffff latch=NNN -> stacks=0x1
  words=0xffffffffff latch=NAN
summary.join stacks=0x5 words=0xff latch=YNA | stacks=0x3 words=0x0 latch=NYN -> stacks=0x7 words=0xff latch=AAA
summary.join stacks=0x0 words=0x1 latch=AYN | stacks=0x3 words=0x1 latch=YYA -> stacks=0x3 words=0x1 latch=AYA
summary.join stacks=0x5 words=0x300 latch=NNN | stacks=0x5 words=0x301 latch=NAA -> stacks=0x5 words=0x301 latch=NAA
summary.join stacks=0x1 words=0xff latch=NYN | stacks=0x1 words=0xffffffffff latch=NAN -> stacks=0x1
  words=0xffffffffff latch=NAN
user.leq nmi=Y mcip=Y s8==0x5 | nmi=N mcip=A -> no
user.leq nmi=Y mcip=A s0=plain:s0x1 s8=plain:z0x4088001852210a39:o0xb757dfc3a10421c6 | nmi=N mcip=Y -> no
user.leq nmi=A mcip=N s9=plain:z0x5e74399cd36b5f8f:o0xa18bc6432c94a070 | nmi=A mcip=Y
  s0=plain:z0x2ba0d4491cdfae9:o0xf945f2bb6e320516:s0x10000 -> no
user.leq nmi=Y mcip=A s8==0x1000000 s9==0x400000 | nmi=Y mcip=Y -> no
user.leq nmi=Y mcip=Y s8==0x5 | nmi=A mcip=A -> yes
user.leq nmi=Y mcip=A s0=plain:s0x1 s8=plain:z0x4088001852210a39:o0xb757dfc3a10421c6 | nmi=A mcip=A -> yes
user.join nmi=Y mcip=Y s8==0x5 | nmi=N mcip=A -> nmi=A mcip=A
user.join nmi=Y mcip=A s0=plain:s0x1 s8=plain:z0x4088001852210a39:o0xb757dfc3a10421c6 | nmi=N mcip=Y -> nmi=A mcip=A
user.join nmi=A mcip=N s9=plain:z0x5e74399cd36b5f8f:o0xa18bc6432c94a070 | nmi=A mcip=Y
  s0=plain:z0x2ba0d4491cdfae9:o0xf945f2bb6e320516:s0x10000 -> nmi=A mcip=A
user.join nmi=Y mcip=A s8==0x1000000 s9==0x400000 | nmi=Y mcip=Y -> nmi=Y mcip=A
user.join nmi=Y mcip=Y s8==0x5 | nmi=A mcip=A -> nmi=A mcip=A
user.join nmi=Y mcip=A s0=plain:s0x1 s8=plain:z0x4088001852210a39:o0xb757dfc3a10421c6 | nmi=A mcip=A -> nmi=A mcip=A

# states
state.leq ready r9==0xffffffffffffffff | ready r9==0xffffffffffffffff f0=0xffffffff83005f00 -> yes
state.leq entered gs=UA s295=e16:z0xfffffffffffff57a:o0xa85 | entered rbx=top gs=UA
  s295=e16:z0xfffffffffffff57a:o0xa85 -> yes
state.leq ready rdi=plain:z0xe325ff0e7575be95:o0x1cda00f08a8a416a:s0x10001 r13=e11:s0x10001 f4=base s44=e11:s0x8 |
  ready rdi=plain:z0xe325ff0e7575be95:o0x1cda00f08a8a416a:s0x10001 r13=e11:s0x10001 f0=0x0 f4=base s44=e11:s0x8 -> yes
state.leq fixed s9=plain:z0x41a80e8a44088424:o0x8c16814032200092 | fixed f0=0xfffffffffffffffe
  s9=plain:z0x41a80e8a44088424:o0x8c16814032200092 -> yes
state.leq ready f1=0xffffffff83005f00 s9=e17:s0x10001 | ready f0=base f1=0xffffffff83005f00 s9=e17:s0x10001 -> yes
state.join ready r9==0xffffffffffffffff | ready r9==0xffffffffffffffff f0=0xffffffff83005f00 -> ready
  r9==0xffffffffffffffff f0=0xffffffff83005f00
state.join entered gs=UA s295=e16:z0xfffffffffffff57a:o0xa85 | entered rbx=top gs=UA
  s295=e16:z0xfffffffffffff57a:o0xa85 -> entered rbx=top gs=UA s295=e16:z0xfffffffffffff57a:o0xa85
state.join fixed | ready gs=AU f1=0x0 -> fixed gs=AU f1=0x0 s0=top s1=top s2=top s3=top s4=top s5=top s6=top s7=top
  s8=top s9=top
state.join top r10=plain:z0x1116795b0011429:o0xa084984001fc4184 gs=KA | ready
  rsp=plain:z0x600600c808d888c0:o0x219821011004021:s0x10000 flags=ugs -> top gs=KA
state.join ready f1=0xffffffff83005f00 s9=e17:s0x10001 | ready f0=base f1=0xffffffff83005f00 s9=e17:s0x10001 -> ready
  f0=base f1=0xffffffff83005f00 s9=e17:s0x10001

# well-formed values
wellformed s1 | sysu/UK/U/-/- | b-0x8:s0x1 -> yes
wellformed s1 | sysu/UK/U/-/- | ugs:z0xffff800000000000:s0x10000 -> yes
wellformed s1 | sysu/UK/U/-/- | e4:z0x7cffa0ff:o0xffffffff83005f00:s0x1 -> no
wellformed s1 | sysu/UK/U/-/- | e5:z0xffffffffffff8fff:o0x7000:s0x10000 -> yes
wellformed s1 | sysu/UK/U/-/- | e4:z0x7 -> yes
wellformed s1 | 14k/KU/K/0/- | b-0x8:s0x1 -> yes
wellformed s1 | 14k/KU/K/0/- | ugs:z0xffff800000000000:s0x10000 -> yes
wellformed s1 | 14k/KU/K/0/- | e4:z0x7cffa0ff:o0xffffffff83005f00:s0x1 -> yes
wellformed s1 | 14k/KU/K/0/- | e5:z0xffffffffffff8fff:o0x7000:s0x10000 -> yes
wellformed s1 | 14k/KU/K/0/- | e4:z0x7 -> yes
wellformed s1 | 2k/KU/K/1/0xffffffff84006000 | b-0x8:s0x1 -> yes
wellformed s1 | 2k/KU/K/1/0xffffffff84006000 | ugs:z0xffff800000000000:s0x10000 -> yes
wellformed s1 | 2k/KU/K/1/0xffffffff84006000 | e4:z0x7cffa0ff:o0xffffffff83005f00:s0x1 -> no
wellformed s1 | 2k/KU/K/1/0xffffffff84006000 | e5:z0xffffffffffff8fff:o0x7000:s0x10000 -> yes
wellformed s1 | 2k/KU/K/1/0xffffffff84006000 | e4:z0x7 -> yes
";

/// Where values point, which bytes may be accessed, loads, stores and moves.
const PLACES: &str = "\
# places
loc 14k/KU/K/0/- | b:s0x1 -> rel 0x0
loc 14k/KU/K/0/- | b-0x1008:s0x1 -> rel -0x1008
loc 14k/KU/K/0/- | e4:s0x10000 -> unknown
loc 14k/KU/K/0/- | =0xffffffff83005f00 -> num 0xffffffff83005f00
loc 2k/KU/K/1/0xffffffff84006000 | b:s0x1 -> num 0xffffffff84006000
loc 2k/KU/K/1/0xffffffff84006000 | b-0x1008:s0x1 -> num 0xffffffff84004ff8
loc 2k/KU/K/1/0xffffffff84006000 | e4:s0x10000 -> unknown
loc 2k/KU/K/1/0xffffffff84006000 | =0xffffffff83005f00 -> num 0xffffffff83005f00
loc sysu/UK/U/-/- | b:s0x1 -> unknown
loc sysu/UK/U/-/- | b-0x1008:s0x1 -> unknown
loc sysu/UK/U/-/- | e4:s0x10000 -> unknown
loc sysu/UK/U/-/- | =0xffffffff83005f00 -> num 0xffffffff83005f00
loc 2k/KU/U/-/0xffffffff84006000 | b:s0x1 -> num 0xffffffff84006000
loc 2k/KU/U/-/0xffffffff84006000 | b-0x1008:s0x1 -> num 0xffffffff84004ff8
loc 2k/KU/U/-/0xffffffff84006000 | e4:s0x10000 -> unknown
loc 2k/KU/U/-/0xffffffff84006000 | =0xffffffff83005f00 -> num 0xffffffff83005f00
place s1 | 14k/KU/K/0/- | b:s0x1 -> 0
place s1 | 14k/KU/K/0/- | b-0x1000:s0x1 -> 0
place s1 | 14k/KU/K/0/- | b+0x7fffffffffffffff:s0x1 -> 0
place s1 | 14k/KU/K/0/- | e4:z0x7bffa027:o0xffffffff84005fd8:s0x8 -> 0
place s1 | 14k/KU/K/0/- | =0xffffffff83005f00 -> 0
place s1 | 14k/KU/K/0/- | =0x400000 -> -
place s1 | 2k/KU/K/1/0xffffffff84006000 | b-0x28:s0x1 -> 3
place s1 | 2k/KU/K/1/0xffffffff84006000 | b+0x8:s0x1 -> -
place s1 | 2k/KU/K/1/0xffffffff84006000 | e4:s0x10000 -> 1
place s1 | 2k/KU/K/1/0xffffffff84006000 | =0x0 -> -
place s1 | 2k/KU/K/1/0xffffffff84006000 | =0xffffffff82002000 -> -
place s1 | sysu/UK/U/-/- | b-0x8:s0x1 -> -
place s1 | sysu/UK/U/-/- | b-0x1008:s0x1 -> -
place s1 | sysu/UK/U/-/- | b-0x8000000000000000:s0x1 -> -
place s1 | sysu/UK/U/-/- | ugs -> -
place s1 | sysu/UK/U/-/- | =0xffffffff83001ff8 -> -
home s1 | sysu/UK/U/-/- -> -
home s1 | 14u/UK/U/-/0xffffffff84002000 -> 1
home s1 | 2u/UK/U/-/0xffffffff84006000 -> 3
home s1 | 14k/KU/K/0/- -> 0
home s1 | 32k/KU/U/1/- -> 1
home s1 | 14k/KU/K/0/0xffffffff83006000 -> 0
home s1 | 14k/UK/K/0/0xffffffff83005f00 -> 0
home s1 | 2k/KU/K/1/0xffffffff84006000 -> 3
home s1 | 2k/KU/U/-/0xffffffff84006000 -> 3
home s1 | 2k/KU/K/1/0xffffffff84005000 -> -
home s1 | 2k/KU/K/1/0xffffffff84005008 -> 3
home s1 | 2k/KU/K/1/0x0 -> -
home s1 | 2k/KU/K/1/0x1000 -> -

# may
may s1 | sysu/UK/U/-/- | K num 0xffffffff81001ff8 4 write -> no
may s1 | 14k/KU/K/0/- | K rel -0x10 4 read -> yes
may s1 | sysu/UK/U/-/- | U num 0xffffffff83002000 8 read -> no
may s1 | 32k/KU/U/1/- | U rel -0x8 8 write -> yes
may s1 | 14k/KU/K/0/- | A rel -0x8 8 write -> no
may x1 | sysu/UK/U/-/- | K num 0xffffffff84002000 4 write -> no
may x1 | 14k/KU/K/0/- | K rel 0x7ffffffffffffff8 4 read -> no
may x1 | sysu/UK/U/-/- | U num 0xffffffff84001000 16 read -> yes
may x1 | 32k/KU/U/1/- | U rel -0x8 4 read -> yes
may x1 | 14k/KU/K/0/- | A rel -0x8 8 write -> yes
may x2 | sysu/UK/U/-/- | K num 0xffffffff81000000 4 write -> no
may x2 | 14k/KU/K/0/- | K rel 0x0 8 write -> no
may x2 | sysu/UK/U/-/- | U num 0xffffffff82002800 8 write -> yes
may x2 | 14k/KU/K/0/- | U rel -0x10 8 write -> no
may x2 | sysu/UK/U/-/- | A num 0xffffffff83002000 1 read -> no
may x2 | 14k/KU/K/0/- | A rel 0x0 4 read -> no

# clear
clear s1 | sysu/UK/U/-/- | ready f0=0xffffffff83005f04 | num 0xffffffff83005ef8 8 -> yes
clear s1 | sysu/UK/U/-/- | ready f0=0xffffffff83005f00 f1=0xffffffff84005fd8 f2=0x0 f3=0xffffffff83005f00 | num
  0xffffffff84005fd0 0 -> no
clear s1 | 2k/KU/K/1/0xffffffff84006000 | ready f1=0xffffffff83005f04 f2=0xffffffff83005f00 f3=base | num
  0xffffffff84005fd0 8 -> yes
clear s1 | 14k/KU/K/0/- | ready f0=0xffffffff84005fd8 f2=0xffffffff83005f04 f3=0xffffffff83005f04 f4=base | rel -0x8 8
  -> no
clear s1 | 14k/KU/K/0/- | ready f0=0xffffffff84005fd8 f1=0xffffffff83005f04 f3=0xffffffff83005f04 | rel -0x1388 8 ->
  no
clear s1 | 32k/KU/U/1/- | ready f0=base f2=base f4=0x0 | num 0xffffffff83006000 0 -> yes
clear s1 | 14k/UK/K/0/0xffffffff83005f00 | ready f1=0xffffffff84005fd8 f3=0xffffffff83005f04 | num 0xffffffff83005f00
  0 -> yes
clear s1 | 14k/KU/K/0/0xffffffff83006000 | ready f2=0x0 | num 0xffffffff84005fd0 8 -> yes
clear x1 | sysu/UK/U/-/- | ready f2=0x0 f4=0xffffffff83005f00 | num 0xffffffff83005f04 0 -> yes
clear x1 | sysu/UK/U/-/- | ready f2=0xffffffff83005f00 f4=0xffffffff84005fd8 | num 0xffffffff83005efc 0 -> yes
clear x1 | 2k/KU/K/1/0xffffffff84006000 | ready f0=0xffffffff83005f04 f4=0xffffffff83005f04 | num 0xffffffff82002800 8
  -> yes
clear x1 | 14k/KU/K/0/- | ready f2=0xffffffff83005f04 f3=0xffffffff84005fd8 | rel -0x1000 8 -> yes
clear x1 | 32k/KU/U/1/- | ready f0=base f1=0xffffffff83005f00 | rel -0x8 8 -> no
clear x1 | 32k/KU/U/1/- | ready f1=0x0 f3=0xffffffff83005f00 | rel -0x4 0 -> no
clear x1 | 14k/UK/K/0/0xffffffff83005f00 | ready f0=0xffffffff83005f00 f2=0x0 | num 0xffffffff84005fd8 8 -> yes
clear x1 | 14k/KU/K/0/0xffffffff83006000 | ready f1=0x0 f3=0xffffffff83005f04 | num 0xffffffff83005efc 0 -> yes

# places
load s1 | sysu/UK/U/-/- | fixed s0==0x1000000 s1=plain:z0x4f00000000000000:o0xb000000000000000 s2=e19 s9=e11:s0x1f
  s135==0x5 | num 0xffffffff82002054 8 -> =0x0
load s1 | 14u/UK/U/-/0xffffffff84002000 | ready s1=e16:z0xfa40fdba4e79751b:o0x5bf0205b1868ae4 s8=ugs s9=e0:s0x2
  s41=b-0x28:s0x8 s105=ugs | num 0xffffffff82002020 8 -> top
load s1 | 2u/UK/U/-/0xffffffff84006000 | fixed s0=top s8=top s45=ugs:z0xffff800000000000:s0x10000 s136=ugs | num
  0xffffffff8200204d 4 -> =0x0
load s1 | 14k/KU/K/0/- | fixed s1=top s41=e17:z0x1248f09890210116:o0x8085030160806621 s44=e3:z0xffffffff40500480
  s167=plain:z0xc20000000000000:o0xf3c0000000000000 | num 0xffffffff82002025 8 -> top
load s1 | 32k/KU/U/1/- | ready s0=e0:s0x3 s9==0xffffffff83006000 s103=e3:z0x954e0de000000000:o0x6ab1f20000000000
  s135=e3:z0x3ffff s136=e18:s0x1f | num 0xffffffff83005efc 8 -> top
load s1 | 14k/KU/K/0/0xffffffff83006000 | fixed s0=b-0x28:s0x8 s1=ugs s40==0xffffffff82002000
  s105=e18:z0x5001923018526d20:o0x2818210883818207 s135=plain:z0xfffffffffffe0000:o0x1fffe | num 0xffffffff82002004 8
  -> b-0x28:s0x8
load s1 | 14k/UK/K/0/0xffffffff83005f00 | ready s8=plain:o0xffff800000000000
  s40=plain:z0x89408051840a4184:o0x14a8150638001040:s0x1f s103=ugs:z0xffff800000000000:s0x10000 | num
  0xffffffff83005d00 1 -> plain:z0xffffffffffffff00
load s1 | 2k/KU/U/-/0xffffffff84006000 | fixed s2=plain:z0xffffffffa0c01848
  s40=e16:z0xfffc000000000000:o0x1ffffffffffff s41=e18:z0xfffffffffffffd38:o0x2c7 s136=b-0x30:s0x8
  s167=ugs:z0xffff800000000000:s0x10000 | num 0xffffffff84005ff8 8 -> e16:z0xfffc000000000000:o0x1ffffffffffff
load x1 | sysu/UK/U/-/- | fixed s0=e3:z0x50c5c99424580304:o0x2a0806231a0448d0
  s1=plain:z0xfffc000000000000:o0x3ffffffffffcf:s0x1f s8=plain:z0xffffffff00111880 s135==0xffffffff83005f00 | num
  0xffffffff83005ff8 8 -> top
load x1 | 14u/UK/U/-/0xffffffff84002000 | fixed s0=e18:z0x68578de000000000:o0x97a8720000000000
  s1=plain:z0x215401284588d104:o0xdc8b76d2b2552c70:s0x1f s2=plain:z0x8000000000000000:s0x1 s103=e3:z0x8000000000000000
  s295=plain:z0xffffffff00080285:s0x3 | num 0xffffffff84005e07 8 -> top
load x1 | 2u/UK/U/-/0xffffffff84006000 | ready s41==0xffffffff83006000 s103==0x5
  s104=plain:z0x92808029407805:o0x5128024c56310020 s105==0xffffffff83006000 s168=ugs:z0xffff800000000000:s0x10000 |
  num 0xffffffff84005ff0 8 -> =0xffffffff83006000
load x1 | 14k/KU/K/0/- | ready s1==0x8000000000000000 s9==0x1000000
  s41=plain:z0xa731140000000000:o0x58cee80000000000:s0x1f s167=e18 s232=ugs:z0xffff800000000000:s0x10000 | num
  0xffffffff82002024 4 -> =0x0
load x1 | 32k/KU/U/1/- | ready s0=ugs s41=plain:z0x303b18803620050:o0x41004741488420e s42=e18:z0xffffffff0492a000
  s45=plain:z0xff s168==0xffffffff82002000 | num 0xffffffff82002004 1 -> plain:z0xffffffffffffff00
load x1 | 14k/KU/K/0/0xffffffff83006000 | ready s8=ugs:z0xffff800000000000:s0x10000 s9==0xffffffff82002000
  s40=b-0x8:s0x1 s41=b+0x4000000000000000:s0x1 s43=e18:s0x1 | num 0xffffffff83005fe0 8 -> e18:s0x1
load x1 | 2k/KU/K/1/0xffffffff84006000 | fixed s0=plain:z0xfffffffffffffffe:o0x1:s0x1 s9=e17:o0xffff800000000000
  s40=e17:o0x8000000000000000 s42=b+0x4000000000000000:s0x8 s103=ugs | num 0xffffffff8200204c 1 -> =0x0
load x1 | 2k/KU/U/-/0xffffffff84006000 | fixed s1=plain:z0x9801000018498c04:o0x204c4b2c06020318
  s2=plain:z0x624868da788910c8:o0x9db797258576ef37:s0x3 s8=b-0x1000:s0x8 s104=b-0x28 | num 0xffffffff82002000 1 ->
  plain:z0xffffffffffffff00
store s1 | sysu/UK/U/-/- | ready s9=b+0x8 s104=plain:z0x7fffffffffffffff:o0x8000000000000000:s0x2 s135==0x0
  s136=plain:z0x58878f0000000000:o0xa778708000000000 | num 0xffffffff83005ef4 4 plain:z0xffffffff00000000:o0xfffffffe
  -> -
store s1 | sysu/UK/U/-/- | fixed s8=ugs:z0xffff800000000000:s0x10000 s9=plain:z0xc7bb88000000000:o0xf384474000000000
  s104=b+0x8 s105=ugs s136==0xffffffff83005f00 | num 0xffffffff82002034 8 b+0x4000000000000000:s0x1 ->
  s3=b+0x4000000000000000:s0x1
store s1 | 2u/UK/U/-/0xffffffff84006000 | ready s44=plain:z0x5080026070626330:o0x8a1988100a0098c5
  s104=plain:z0xfffffffe00000000:o0x1ffffffcf s105==0xffffffff82002000 s136=plain:z0xfffffffffffffffe:o0x1:s0x1f | num
  0xffffffff83005ef4 4 e11:s0x1f -> -
store s1 | 14k/KU/K/0/- | ready s2=e3:z0x76977181fa000000:o0x89688e7e04000000 s45=b:s0x1 s105=ugs | num
  0xffffffff83005ff0 8 plain:z0xa880000000000000:o0x5700000000000000:s0x3 -> s45=top
  s105=plain:z0xa880000000000000:o0x5700000000000000:s0x3
store s1 | 32k/KU/U/1/- | fixed s0=plain:z0x6e2014050317cb40:o0x801d88fa7ce024b9:s0x2
  s1=e18:z0x563057c2b0e7eb18:o0xa9cfa83d4b1814e7 s40==0xffffffff83005f00 s104==0x400000 s135=e18 | num
  0xffffffff83005f00 4 top -> s135=top
store s1 | 14k/KU/K/0/0xffffffff83006000 | ready s44=plain:z0x4b394410140ae540:o0x80c2b1218021028a:s0x1f
  s135=plain:z0x704aadf20020100:o0xc8685020184da012:s0x8 s136=e19:s0x2 s167=e0:s0x2 | num 0xffffffff83005ef8 8
  plain:z0xff -> s72=plain:z0xff s136=plain:z0xff
store s1 | 14k/UK/K/0/0xffffffff83005f00 | fixed s0=plain:z0xfffffffffffffe00:o0x1cf:s0x8
  s8=e16:z0xfffffffc00000000:o0x1ffffffff s40=plain:z0xa6433aecd3000000:o0x59bcc5132c800000 s43=ugs
  s136=plain:z0xffffffffffffffff:s0x1 | num 0xffffffff83005eff 4 top -> s40=top s136=top
store s1 | 2k/KU/K/1/0xffffffff84006000 | fixed s0=plain:z0xe000000000000000:o0xfffffffffffffff:s0x2 s2=top
  s8=b-0x8:s0x8 s9=plain:z0xf785f155a337e018:o0x87a0eaa5cc81fe7:s0x8 s167=plain:z0xffffffff0a6809a0 | num
  0xffffffff8200280c 8 =0xffffffffffffffff -> s9=top
store s1 | 2k/KU/U/-/0xffffffff84006000 | ready s8=plain:z0xffffffff60400838 s40=ugs:z0xffff800000000000:s0x10000
  s45==0x1000000 s135=b+0x4000000000000000 | num 0xffffffff84005fd4 4 plain:z0xb356caf70c0276bd:o0x4ca93108f3fd8942 ->
  s45=top
store x1 | sysu/UK/U/-/- | fixed s1=plain:z0xffffffffffffe000:o0xfff:s0x10000 s9=e17:s0x1 s135=e11:s0x3
  s295=b-0x30:s0x1 | num 0xffffffff8200204d 4 plain:z0xffffffff20a13240 -> s6=top
store x1 | 14u/UK/U/-/0xffffffff84002000 | fixed s1==0x5 s8=top s43=e4:s0x10001 s105=plain:z0xffff | num
  0xffffffff83005ff0 8 =0xffffffffffffffff -> s105==0xffffffffffffffff
store x1 | 2u/UK/U/-/0xffffffff84006000 | ready s10=plain:o0x8000000000000000 s40==0x5
  s42=plain:z0x8a72aff53226f029:o0x758d5008cdd90fd6 s105=b-0x30:s0x1 | num 0xffffffff82002800 8
  plain:z0xffffffffbe1c0002 -> s8=plain:z0xffffffffbe1c0002
store x1 | 14k/KU/K/0/- | fixed s0=e3:z0xda2a91b8253e000:o0xf25d56e47dac1000 s45=e17:s0x3
  s136=ugs:z0xffff800000000000:s0x10000 s169=b-0x1000:s0x1 | num 0xffffffff8200202c 8 b-0x28:s0x1 -> s2=b-0x28:s0x1
store x1 | 32k/KU/U/1/- | ready s42==0x0 s45=ugs s103=ugs:z0xffff800000000000:s0x10000
  s232=plain:z0x9aec80a8e5f62036:o0x65137f571a09ddc9 | rel -0x18 8 e16:z0xfffffffffffffffe:o0x1 ->
  s42=e16:z0xfffffffffffffffe:o0x1
store x1 | 14k/UK/K/0/0xffffffff83005f00 | fixed s8=plain:o0x8000000000000000:s0x1 s42==0x1000000
  s103==0x8000000000000000 s167=e3:z0xffff800000000000 s168=plain:z0x25beac2100669483:o0x1000424098010810 | num
  0xffffffff82002054 8 e17:z0x8000000000000000 -> s7=e17:z0x8000000000000000
store x1 | 2k/KU/K/1/0xffffffff84006000 | fixed s2=e4:s0x10001 s8=b+0x4000000000000000:s0x1 s42=b-0x30:s0x8
  s43=ugs:z0xffff800000000000:s0x10000 s169=b+0x4000000000000000 | num 0xffffffff84005fe0 8 =0x1000000 ->
  s43==0x1000000 s235==0x1000000

# shift
shift s1 | 14k/KU/K/0/- | b-0x28:s0x1 0x28 -> b:s0x1
shift s1 | 14k/KU/K/0/- | b-0x8:s0x2 0x7fffffff -> b+0x7ffffff7
shift s1 | 14k/KU/K/0/- | b+0x7ffffffffffffff8:s0x2 0x28 -> top
shift s1 | 14k/KU/K/0/- | =0xffffffff83005ff8 0x28 -> =0xffffffff83006020
shift s1 | 2k/KU/K/1/0xffffffff84006000 | b-0x28:s0x1 0x0 -> b-0x28
shift s1 | 2k/KU/K/1/0xffffffff84006000 | b -0x8 -> b-0x8
shift s1 | 2k/KU/K/1/0xffffffff84006000 | b-0x8000000000000000:s0x1 0x8 -> b-0x7ffffffffffffff8
shift s1 | 2k/KU/K/1/0xffffffff84006000 | =0xffffffff83005ff8 0x8000000000000000 -> =0x7fffffff83005ff8
shift s1 | sysu/UK/U/-/- | b-0x28:s0x1 0x8000000000000000 -> b+0x7fffffffffffffd8
shift s1 | sysu/UK/U/-/- | b-0x8 0x9 -> b+0x1
shift s1 | sysu/UK/U/-/- | b+0x7ffffffffffffff8:s0x2 0x0 -> b+0x7ffffffffffffff8
shift s1 | sysu/UK/U/-/- | b-0x8000000000000000 -0x28 -> top
shift s1 | sysu/UK/U/-/- | top 0x7fffffff -> top
shift s1 | 32k/KU/U/1/- | b-0x8 0x8 -> b
shift s1 | 32k/KU/U/1/- | b+0x7ffffffffffffff8:s0x1 -0x28 -> b+0x7fffffffffffffd0
shift s1 | 32k/KU/U/1/- | b-0x8000000000000000 -0x8 -> top
";

#[test]
fn each_domain_answers_as_its_cases_say(rt: HostRuntime) -> Result<(), Fail> {
    compare(rt.alloc(), Kind::Domain, DOMAINS)
}

#[test]
fn places_loads_and_stores_are_as_the_cases_say(rt: HostRuntime) -> Result<(), Fail> {
    compare(rt.alloc(), Kind::Domain, PLACES)
}
