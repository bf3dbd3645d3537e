//! `explain` with a certificate, on changed certificates of S1: C1 to C17 with what is known where they fail, as an
//! independent model answers.

use crate::files::Edits;
use crate::first_sample::S1;
use kc_gen::Sample;
use kc_runs::each_holds;
use std::test::Fail;

/// The edits of the certificate; the exit code and the lines.
const EXPLAINED: &str = "\
- | 0 | accepted contexts=41 nodes=1385
put c 0000000000000000000000000000000000000000000000000000000000000000 | 1 | refused C1 / because the certificate is for another image or configuration
put 609 68 ; del 611 29c | 1 | refused C2 / because a key, a stack count or an entry node is missing
put 4d 01 | 1 | refused C3 / because the user state does not cover the start
del 75 17 ; put 4f 09 | 1 | refused C14 user event irq 32 / because an event has no permitted frame or no covering context
put f63 05 | 1 | refused C4 context 0 at 0xffffffff8100000f / instruction and rsp, -0x1001 / gs active any inactive user / map user / nmi open / rsp constant 0x0000000001001000 / because the GS pair, CR3 or RSP is not exact
put 609 6a ; dup 15b6 29c 493c ; put 4940 52 | 1 | refused C5 context 0 at 0xffffffff81000052 / instruction none / gs active kernel inactive user / map kernel / nmi open / rsp constant 0xffffffff83006000 / because the instruction is not decodable executable text under this map
put 609 6a ; dup 15b6 29c 493c ; put 4940 0001 ; put 4948 01 | 1 | refused C5 context 0 at 0xffffffff81000100 body / instruction test byte [rsp+0x8], 0x3 / gs active kernel inactive user / map kernel / nmi open / rsp constant 0xffffffff83006000 / because the instruction is not decodable executable text under this map
put 609 6a ; dup 14ebcb 313 14ebcb ; put 14ebcb 0300 | 1 | refused C6 context 39 at 0xffffffff81000003 / instruction mov gs:[0x800], rsp / gs active user inactive kernel / map user / nmi open / rsp constant 0xffffffff84001fd8 / because a GS access may use a base other than the kernel's
put 609 6a ; dup 66d7f 313 14ebcb ; put 14ebcb 2200 ; put 14ec2d ffa0ff7c ; put 14ec35 005f0083 ; put 14ec3d 01 ; put 14ed4a 00 ; put 14eeda 27 | 1 | refused C7 context 39 at 0xffffffff81000022 / instruction push 0x2b / gs active user inactive kernel / map user / nmi open / rsp constant 0xffffffff83005f00 / because an address is unknown, absent or not permitted
put 173d 0000000000000000 | 1 | refused C8 context 0 at 0xffffffff81000022 / instruction push 0x2b / gs active kernel inactive user / map kernel / nmi open / rsp constant 0xffffffff83006000 / because a write may reach live stack bytes
put 3ce9 000000000000000000000000 ; put 3cf9 ffff | 1 | refused C9 context 0 at 0xffffffff81000045 / instruction mov cr3, rdx / gs active kernel inactive user / map kernel / nmi open / rsp entry rsp / because CR3 may be loaded with a third value
put 609 6a ; dup 23b1 312 14ebcb ; put 14ed48 01 ; put 14eed9 27 | 1 | refused C10 context 39 at 0xffffffff81000031 / instruction call 0xffffffff81800000 / gs active user inactive kernel / map kernel / nmi open / rsp constant 0xffffffff83005fd8 / because a handler is called without kernel GS, kernel CR3 or a free stack
put 85d0 000000000000000000000000 ; put 85e0 ffff | 1 | refused C11 context 1 at 0xffffffff8100101c / instruction rdmsr / gs active user inactive kernel / map user / nmi open / rsp constant 0xffffffff84003f60 / because the instruction or register number is forbidden
del 4642 3 ; ins 4642 00000000 ; del 463b 2 | 1 | refused C12 context 0 at 0xffffffff81000050 / instruction sysretq / gs active user inactive kernel / map user / nmi open / rsp entry rsp / because the return does not restore the interrupted context
put 609 68 ; del 29ec 320 | 1 | refused C13 context 0 at 0xffffffff81000031 body / instruction call 0xffffffff81800000 / gs active kernel inactive user / map kernel / nmi open / rsp constant 0xffffffff83005fd0 / because a successor is not covered
put a6fb5 00 | 1 | refused C14 context 0 at 0xffffffff81000024 event nmi / instruction push gs:[0x800] / gs active kernel inactive user / map kernel / nmi open / rsp constant 0xffffffff83005ff8 / because an event has no permitted frame or no covering context
put 2fa 0202 | 1 | refused C15 context 0 at 0xffffffff81000024 event nmi / instruction push gs:[0x800] / gs active kernel inactive user / map kernel / nmi open / rsp constant 0xffffffff83005ff8 / because the state after an event's return is not covered
put 427 01 | 1 | refused C15 context 0 at 0xffffffff81000031 body event fault / instruction call 0xffffffff81800000 / gs active kernel inactive user / map kernel / nmi open / rsp constant 0xffffffff83005fd0 / because the state after an event's return is not covered
put 2ee 18 | 1 | refused C16 context 0 at 0xffffffff81000024 event nmi / instruction push gs:[0x800] / gs active kernel inactive user / map kernel / nmi open / rsp constant 0xffffffff83005ff8 / because the summary lacks a write or a latch
put 14f 00 | 1 | refused C16 context 0 / because the summary lacks a write or a latch
put 4e 00 | 1 | refused C17 context 0 / because the user state does not cover a return
";

#[test]
fn each_refusal_is_explained_by_what_is_known_at_its_place(rt: HostRuntime) -> Result<(), Fail> {
    let alloc = rt.alloc();
    let edits = Edits::of(alloc, Sample::S1, S1, "explain / i / c / l")?;
    each_holds(alloc, &edits, EXPLAINED)
}
