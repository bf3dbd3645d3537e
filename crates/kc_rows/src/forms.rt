//! `check` on certificates that are out of their form: each fault at its offset, in both versions. All are of S0's files, as
//! an independent model answers.

use crate::files::{CHECK, Edits, Files, TwoEdits};
use kc_gen::Sample;
use kc_runs::{MIX, S0, S0_SHARED, each_holds};
use std::test::Fail;

/// The certificate in version 1; its edits; the exit code and the line.
const PLAIN: &str = "\
# BadMagic and Version.
s0 | put 0 00 | 5 | bad certificate 1 BadMagic at 0
s0 | put 4 00 | 5 | bad certificate 1 BadMagic at 4
s0 | cut 5 ; put 4 00 | 5 | bad certificate 1 BadMagic at 4
s0 | put 8 0300 ; cut 14 | 5 | bad certificate 2 Version at 8
s0 | put 8 00000000 | 5 | bad certificate 2 Version at 8
s0 | put 8 01010000 | 5 | bad certificate 2 Version at 8
# Short: at the end of the bytes, whatever field it is.
s0 | cut 0 | 5 | bad certificate 3 Short at 0
s0 | cut 9 | 5 | bad certificate 3 Short at 9
s0 | cut 4d | 5 | bad certificate 3 Short at 77
s0 | cut fd | 5 | bad certificate 3 Short at 253
s0 | cut 1b6 | 5 | bad certificate 3 Short at 438
s0 | cut 2cf | 5 | bad certificate 3 Short at 719
s0 | cut 125f | 5 | bad certificate 3 Short at 4703
s0 | put 10f 01 ; cut 10f | 5 | bad certificate 3 Short at 271
s0 | put 109 ff ; cut 10a | 5 | bad certificate 3 Short at 266
# Trailing.
s0 | add ffff | 5 | bad certificate 4 Trailing at 8542
mix | add 00 | 5 | bad certificate 4 Trailing at 3282
# Order: contexts, nodes and slots.
s0 | del 10d 1e ; ins 12b 0000000101ff000000000000000000ffff0000ffffffffff000000000000 | 5 | bad certificate 5 Order at 299
mix | put a2 0000000002ff000000000000000000 | 5 | bad certificate 5 Order at 162
s0 | put 4f6 0000000000000081ffffffff00 | 5 | bad certificate 5 Order at 1270
mix | put 4c3 0000000000000000 | 5 | bad certificate 5 Order at 1215
mix | put 977 00 | 5 | bad certificate 5 Order at 2411
s0 | put 96 0200 | 5 | bad certificate 5 Order at 150
s0 | put 4df 0600 | 5 | bad certificate 5 Order at 1247
# Range: the user state, a key, a summary, a node, and its state.
s0 | put 4d 03 | 5 | bad certificate 6 Range at 77
s0 | put 4e 03 | 5 | bad certificate 6 Range at 78
s0 | put 96 2800 | 5 | bad certificate 6 Range at 150
s0 | put 53 04 | 5 | bad certificate 6 Range at 83
s0 | put 7b 000000ff | 5 | bad certificate 6 Range at 123
s0 | put 10d ff | 5 | bad certificate 6 Range at 269
s0 | put 10f 01 | 5 | bad certificate 6 Range at 271
s0 | put 110 09 | 5 | bad certificate 6 Range at 272
s0 | put 111 03 | 5 | bad certificate 6 Range at 273
s0 | put 112 05 | 5 | bad certificate 6 Range at 274
s0 | put 113 01 | 5 | bad certificate 6 Range at 275
s0 | put 114 0100000000000000 | 5 | bad certificate 6 Range at 276
s0 | put 1e5 00 | 5 | bad certificate 6 Range at 486
s0 | put 11c 00000100 | 5 | bad certificate 6 Range at 284
s0 | put 120 00000000000000ff | 5 | bad certificate 6 Range at 288
s0 | put 129 04 | 5 | bad certificate 6 Range at 297
mix | put 11f 03 | 5 | bad certificate 6 Range at 287
s0 | put 297 0d000000 | 5 | bad certificate 6 Range at 663
s0 | put 502 02 | 5 | bad certificate 6 Range at 1282
s0 | put 2a4 04 | 5 | bad certificate 6 Range at 676
s0 | put 2ba ffffffffffffffffffffffffffffffff | 5 | bad certificate 6 Range at 697
s0 | put 64f 00000200 | 5 | bad certificate 6 Range at 1615
mix | put 1e9 14 | 5 | bad certificate 6 Range at 489
mix | put 4d5 01000000000000000100000000000000 | 5 | bad certificate 6 Range at 1228
s0 | put 40b 03 | 5 | bad certificate 6 Range at 1035
s0 | put 40d 03 | 5 | bad certificate 6 Range at 1037
s0 | put 668 09 | 5 | bad certificate 6 Range at 1640
s0 | put 40f 02 | 5 | bad certificate 6 Range at 1039
s0 | put 69c ffff | 5 | bad certificate 6 Range at 1692
s0 | put 441 00000000000000000000000000000000ffff0100 | 5 | bad certificate 6 Range at 1088
# TooMany: stacks, slots of the user, contexts, nodes, slots of a node.
s0 | put 4c 11 | 5 | bad certificate 7 TooMany at 76
s0 | put 4f 2901 | 5 | bad certificate 7 TooMany at 79
s0 | put 109 01040000 | 5 | bad certificate 7 TooMany at 265
s0 | put 293 01400000 | 5 | bad certificate 7 TooMany at 659
s0 | put 43c 2901 | 5 | bad certificate 7 TooMany at 1084
# Of two faults the first in the order of the fields.
s0 | put 4e 03 ; put 110 09 | 5 | bad certificate 6 Range at 78
s0 | put 8 05 ; put 4c 11 | 5 | bad certificate 2 Version at 8
mix | put 8a1 00 ; put 8a3 04 | 5 | bad certificate 5 Order at 2209
s0 | put 4f 29 ; put 51 2800 | 5 | bad certificate 6 Range at 81
s0 | add 00 ; put 2089 02 | 5 | bad certificate 6 Range at 8329
# Changes that are no fault of form.
mix | - | 1 | refused C1
mix | put 68 2700 | 1 | refused C1
s0 | put 6b ff | 0 | accepted contexts=13 nodes=13
s0 | put 1473 01 | 1 | refused C14 user event fault
";

/// Edits of S0's certificate in version 2; the exit code and the line.
const SHARED: &str = "\
# BadMagic, Version, Short and Trailing.
put 0 65 | 5 | bad certificate 1 BadMagic at 0
put 7 74 ; cut 8 | 5 | bad certificate 1 BadMagic at 7
put 3 78 ; cut 3 | 5 | bad certificate 3 Short at 3
put 8 01000000 | 5 | bad certificate 6 Range at 697
put 8 03000000 | 5 | bad certificate 2 Version at 8
put 8 03000000 ; cut b | 5 | bad certificate 3 Short at 11
put 293 0e000000 | 5 | bad certificate 3 Short at 7408
put 293 0c000000 | 5 | bad certificate 4 Trailing at 7391
# TooMany.
put 4c 11 | 5 | bad certificate 7 TooMany at 76
put 4f 2901 | 5 | bad certificate 7 TooMany at 79
put 109 01040000 | 5 | bad certificate 7 TooMany at 265
put 293 01400000 | 5 | bad certificate 7 TooMany at 659
# Range and Order of what version 1 has too.
put 4c 04 | 5 | bad certificate 6 Range at 424
put 68 2800 | 5 | bad certificate 6 Range at 104
put 68 0000 | 5 | bad certificate 5 Order at 104
put 10e 01 | 5 | bad certificate 6 Range at 270
put 12b 0000000101ff000000000000000000 | 5 | bad certificate 5 Order at 299
put 2a8 ff | 5 | bad certificate 6 Range at 680
put 4e3 2801 | 5 | bad certificate 6 Range at 1251
put 4fa 0000000000000081ffffffff00 | 5 | bad certificate 5 Order at 1274
put 507 00010000 | 5 | bad certificate 6 Range at 1287
# Shares: one that names no state yet, one that does, and one where another state is meant.
put 2a4 01000000 | 5 | bad certificate 6 Range at 676
put 2a4 01000000 ; cut 2a7 | 5 | bad certificate 3 Short at 679
put 2a3 02 ; put 2a4 ffffffff | 5 | bad certificate 6 Range at 675
put 10f1 02000000 | 1 | refused C14 context 0 at 0xffffffff81000000 event nmi
put 10f1 ffffffff | 5 | bad certificate 6 Range at 4337
put 1a8a 0c000000 | 5 | bad certificate 6 Range at 6794
put 1cec 01000000 | 1 | refused C14 context 0 at 0xffffffff81000000 event check
# A state that an earlier node wrote.
put 507 01000000 | 5 | bad certificate 5 Order at 1291
put 769 01000000 | 5 | bad certificate 5 Order at 1901
put 1a8a 0a000000 | 5 | bad certificate 5 Order at 6798
";

#[test]
fn each_fault_of_version_1_has_its_offset(rt: HostRuntime) -> Result<(), Fail> {
    let alloc = rt.alloc();
    let both = TwoEdits {
        small: Edits::of(alloc, Sample::S0, S0, CHECK)?,
        other: Edits::of(alloc, Sample::S0, MIX, CHECK)?,
    };
    each_holds(alloc, &both, PLAIN)
}

#[test]
fn each_fault_of_version_2_has_its_offset(rt: HostRuntime) -> Result<(), Fail> {
    let alloc = rt.alloc();
    let edits = Edits::of(alloc, Sample::S0, S0_SHARED, CHECK)?;
    each_holds(alloc, &edits, SHARED)
}

#[test]
fn a_file_of_letters_has_another_magic(rt: HostRuntime) -> Result<(), Fail> {
    let alloc = rt.alloc();
    let files = Files::of(alloc, Sample::S0)?;
    let end = files.run(alloc, CHECK, b"uukku")?;
    assert!(rt; end.is(5, "bad certificate 1 BadMagic at 0\n"));
    Ok(())
}
