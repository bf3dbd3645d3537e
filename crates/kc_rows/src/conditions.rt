//! `check` on changed certificates of S0 and S1: each condition with its place and event, as an independent model answers.

use crate::files::{CHECK, Edits, TwoEdits, accepts, bytes_of, second_of};
use crate::first_sample::S1;
use kc_gen::Sample;
use kc_runs::{S0, each_holds};
use std::test::Fail;

/// The certificate; its edits; the exit code and the line.
const REFUSALS: &str = "\
# C1: the digest of the image, or of the description, is another
s1 | put c 0000000000000000000000000000000000000000000000000000000000000000 | 1 | refused C1
s0 | put 2c 0000000000000000000000000000000000000000000000000000000000000000 | 1 | refused C1
# C2: a context without its entry node; a floor for a stack that is not there
s1 | put 609 68 ; del 611 29c | 1 | refused C2
s0 | put 293 0c ; del 1f00 25e | 1 | refused C2
# C3: the user state with NMIs blocked; with another RSP0
s1 | put 4d 01 | 1 | refused C3
s0 | put 54 faffffffffffffff0500000000000000 | 1 | refused C3
# C14 of the user state: IST1 is not known; SYSCALL and a debug exception enter contexts that know too much
s1 | del 75 17 ; put 4f 09 | 1 | refused C14 user event irq 32
s0 | put 3da 40 | 1 | refused C14 user event syscall
s0 | put 6df 00 | 1 | refused C14 user event debug
# C4: the active GS base is not exact
s1 | put f63 05 | 1 | refused C4 context 0 at 0xffffffff8100000f
s0 | put 16fb 02 | 1 | refused C4 context 8 at 0xffffffff81000000
# C5: a node in the middle of SYSRETQ; the body of a handler where nothing is called
s1 | put 609 6a ; dup 15b6 29c 493c ; put 4940 52 | 1 | refused C5 context 0 at 0xffffffff81000052
s1 | put 609 6a ; dup 15b6 29c 493c ; put 4940 0001 ; put 4948 01 | 1 | refused C5 context 0 at 0xffffffff81000100 body
# C6 to C10: a store by the user's GS base; a push on a stack that the user's CR3 lacks; a push into live bytes; CR3 from any value; a handler with the user's GS base
s1 | put 609 6a ; dup 14ebcb 313 14ebcb ; put 14ebcb 0300 | 1 | refused C6 context 39 at 0xffffffff81000003
s1 | put 609 6a ; dup 66d7f 313 14ebcb ; put 14ebcb 2200 ; put 14ec2d ffa0ff7c ; put 14ec35 005f0083 ; put 14ec3d 01 ; put 14ed4a 00 ; put 14eeda 27 | 1 | refused C7 context 39 at 0xffffffff81000022
s1 | put 173d 0000000000000000 | 1 | refused C8 context 0 at 0xffffffff81000022
s1 | put 3ce9 000000000000000000000000 ; put 3cf9 ffff | 1 | refused C9 context 0 at 0xffffffff81000045
s1 | put 609 6a ; dup 23b1 312 14ebcb ; put 14ed48 01 ; put 14eed9 27 | 1 | refused C10 context 39 at 0xffffffff81000031
# C11, C12: RDMSR of any register; SYSRETQ to any address
s1 | put 85d0 000000000000000000000000 ; put 85e0 ffff | 1 | refused C11 context 1 at 0xffffffff8100101c
s1 | del 4642 3 ; ins 4642 00000000 ; del 463b 2 | 1 | refused C12 context 0 at 0xffffffff81000050
# C13: a handler's call without the node of its body, and its return without the node after it
s1 | put 609 68 ; del 26c3 329 | 1 | refused C13 context 0 at 0xffffffff81000031
s1 | put 609 68 ; del 29ec 320 | 1 | refused C13 context 0 at 0xffffffff81000031 body
# C14 of a node: an entry node with NMIs open; one whose floor says that no byte is live; a floor below the stack
s1 | put a6fb5 00 | 1 | refused C14 context 0 at 0xffffffff81000024 event nmi
s1 | del 159ff3 1 ; ins 159ff3 00ffffffffffffffff | 1 | refused C14 context 0 at 0xffffffff81000031 body event irq 32
s0 | put 677 0000000000000000 | 1 | refused C14 context 1 at 0xffffffff81000000 event nmi
# C15: the summary of an NMI leaves NMIs in any state, that of a page fault leaves the gap
s1 | put 2fa 0202 | 1 | refused C15 context 0 at 0xffffffff81000024 event nmi
s1 | put 427 01 | 1 | refused C15 context 0 at 0xffffffff81000031 body event fault
# C16: what an event may write; what the context itself may write, and its latches at a return
s1 | put 2ee 18 | 1 | refused C16 context 0 at 0xffffffff81000024 event nmi
s1 | put 14f 00 | 1 | refused C16 context 0
s1 | put 158 00 | 1 | refused C16 context 0
s0 | put 194 f7 | 1 | refused C16 context 4
# C17: the user state with MCIP clear
s1 | put 4e 00 | 1 | refused C17 context 0
# Of two refusals the first in the order.
s1 | del 8c 17 ; del 4f 18 ; ins 4f 08 | 1 | refused C14 user event irq 32
s1 | put 14f 00 ; put 85d0 000000000000000000000000 ; put 85e0 ffff | 1 | refused C16 context 0
s1 | del 178f 17 ; put 1769 09 ; put 173d 0000000000000000 | 1 | refused C8 context 0 at 0xffffffff81000022
# Changes that are no refusal: a summary that allows more, and one of a context that never returns.
s1 | put 258 1f ; put 25d 03 | 0 | accepted contexts=41 nodes=1385
s0 | put 1be 020102 | 0 | accepted contexts=13 nodes=13
";

#[test]
fn the_samples_are_accepted(rt: HostRuntime) -> Result<(), Fail> {
    let alloc = rt.alloc();
    let first = bytes_of(alloc, S1)?;
    let second = second_of(alloc, &first)?;
    let small = bytes_of(alloc, S0)?;
    assert!(rt; accepts(alloc, Sample::S0, &small, "accepted contexts=13 nodes=13\n")?);
    assert!(rt;
        accepts(
            alloc,
            Sample::S1,
            &first,
            "accepted contexts=41 nodes=1385\n"
        )?
    );
    assert!(rt;
        accepts(
            alloc,
            Sample::S2,
            &second,
            "accepted contexts=41 nodes=1232\n"
        )?
    );
    Ok(())
}

#[test]
fn each_condition_is_refused_at_its_place(rt: HostRuntime) -> Result<(), Fail> {
    let alloc = rt.alloc();
    let both = TwoEdits {
        small: Edits::of(alloc, Sample::S0, S0, CHECK)?,
        other: Edits::of(alloc, Sample::S1, S1, CHECK)?,
    };
    each_holds(alloc, &both, REFUSALS)
}
