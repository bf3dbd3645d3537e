//! Faults of files and of the sink in a replay, by their place in the order of work.

use crate::rows::{files, replayed};
use kc_gen::{Sample, sample};
use kc_runs::{ended, ends_so, is_told};
use kc_tables::case_of;
use std::alloc::Global;
use std::test::Fail;

/// The words; the read and the write that fail, by number; the exit code and what is written. The image `i` is read by
/// calls 0 and 1, the description `c` by 2 and 3, the trace `t` by 4 and 5.
const CASES: &str = "\
replay / i / c / t | 0 | - | 7 | read fault i
replay / i / c / t | 1 | - | 7 | read fault i
replay / i / c / t | 2 | - | 7 | read fault c
replay / i / c / t | 3 | - | 7 | read fault c
replay / i / c / t | 4 | - | 7 | read fault t
replay / i / c / t | 5 | - | 7 | read fault t
replay / i / c / t | 6 | - | 0 | turns 1
replay / x / c / t | - | - | 7 | read fault x
replay / i / x / t | - | - | 7 | read fault x
replay / i / c / x | - | - | 7 | read fault x
replay / c / x / x | - | - | 3 | bad image 1 BadMagic at 0
replay / i / i / x | - | - | 4 | bad config 1 Syntax -
replay / i / t / x | - | - | 4 | bad config 1 Syntax -
replay / i / c / c | - | - | 6 | bad trace 1 BadLine line 1
replay / i / c / t | - | 0 | 8 | -
";

/// Words that are no command.
const USAGES: &str = "\
replay
replay / i / c
replay / i / c / t / x
replay / i / c / -t
Replay / i / c / t
";

#[test]
fn each_fault_comes_at_its_place(rt: HostRuntime) -> Result<(), Fail> {
    let alloc = rt.alloc();
    let (image, config) = sample(alloc, Sample::S1).expect(&rt, "memory");
    let held = files(&image, &config, b"start\nsyscall");
    for line in CASES.lines() {
        if let Some(mut case) = case_of(line) {
            assert!(rt; ends_so(alloc, &mut case, &held)?, "{line}");
        }
    }
    for words in USAGES.lines() {
        let end = ended(alloc, words, &held, &[], &[]).expect(&rt, "memory");
        assert!(rt; end.code == 2, "{words}");
        assert!(rt; end.written.starts_with(b"usage: entrycert "), "{words}");
    }
    Ok(())
}

/// Sizes of a description and of a trace that are comments alone, and what comes of them.
const SIZES: &str = "\
100000 | 0 | 4 | bad config 2 Missing version
100001 | 0 | a | too large c
0 | 1000000 | 6 | bad trace 1 BadLine line 2
0 | 1000001 | a | too large t
";

/// So many bytes of comment, or the text where it is 0.
fn comment_or(alloc: Global, size: u64, text: &[u8]) -> Result<Vec<u8>, Fail> {
    if size == 0 {
        Ok(Vec::from_slice(alloc, text)?)
    } else {
        Ok(vec![in alloc; b'#'; size as usize]?)
    }
}

#[test]
fn a_file_over_its_limit_by_one_byte_is_too_large(rt: HostRuntime) -> Result<(), Fail> {
    let alloc = rt.alloc();
    let (image, text) = sample(alloc, Sample::S1).expect(&rt, "memory");
    for line in SIZES.lines() {
        if let Some(mut case) = case_of(line) {
            let config = comment_or(alloc, case.number()?, &text)?;
            let trace = comment_or(alloc, case.number()?, b"start")?;
            let end = replayed(alloc, &files(&image, &config, &trace))?;
            assert!(rt; is_told(alloc, &mut case, &end)?, "{line}");
        }
    }
    Ok(())
}
