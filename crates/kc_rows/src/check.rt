//! The words of the modes, the order in which the files are read, and their limits.

use crate::files::{CHECK, Files, bytes_of};
use kc_gen::Sample;
use kc_io::MemFiles;
use kc_plain::NoMemory;
use kc_runs::{S0_SHARED, Trial, each_holds, ended, ended_over, ends_so, is_told};
use kc_tables::{Case, Unread};
use std::alloc::{AllocError, Global};
use std::test::Fail;

/// Words that are no command.
const USAGES: &str = "\
-
--help
-h / i / c / l

check
check / i / c
check / i / c / l / x
check / i /  / l
check / i / -c / l
Check / i / c / l
upgrade
upgrade / l / x
upgrade / -l
find / i
find / i / c / l
explain / i
explain / i / c / l / x
gen / 7
gen / 7 / 200 / 1
gen / 7 / 0
gen / 7 / 6001
gen / 18446744073709551616 / 5
gen / 7 / -5
gen / +7 / 5
gen / 0x7 / 5
gen / 000000000000000000007 / 5
";

const USAGE: &str =
    "usage: entrycert check IMAGE CONFIG CERT, find IMAGE CONFIG, explain IMAGE CONFIG [CERT], replay IMAGE CONFIG TRACE, gen SEED SIZE, upgrade CERT\n";

#[test]
fn words_that_are_no_command_get_the_usage_line(rt: HostRuntime) -> Result<(), Fail> {
    for words in USAGES.lines() {
        let end = ended(rt.alloc(), words, &[], &[], &[]).expect(&rt, "memory");
        assert!(rt; end.is(2, USAGE), "{words}");
    }
    Ok(())
}

/// The words; the read and the write that fail; the exit code and the line. The image `i` is read by calls 0 and 1, the
/// description `c` by 2 and 3, the certificate `l` by 4 and 5.
const FAULTS: &str = "\
check / i / c / l | 0 | - | 7 | read fault i
check / i / c / l | 1 | - | 7 | read fault i
check / i / c / l | 2 | - | 7 | read fault c
check / i / c / l | 3 | - | 7 | read fault c
check / i / c / l | 4 | - | 7 | read fault l
check / i / c / l | 5 | - | 7 | read fault l
check / i / c / l | 6 | - | 0 | accepted contexts=13 nodes=13
check / x / c / l | - | - | 7 | read fault x
check / i / x / l | - | - | 7 | read fault x
check / i / c / a b | - | - | 7 | read fault a b
check / c / x / x | - | - | 3 | bad image 1 BadMagic at 0
check / i / i / x | - | - | 4 | bad config 1 Syntax -
check / i / c / i | - | - | 5 | bad certificate 1 BadMagic at 5
check / i / c / c | - | - | 5 | bad certificate 1 BadMagic at 0
check / i / c / l | - | 0 | 8 | -
check / i / c / c | - | 0 | 8 | -
find / i / c | 0 | - | 7 | read fault i
find / i / c | 2 | - | 7 | read fault c
find / i / x | - | - | 7 | read fault x
find / i / i | - | - | 4 | bad config 1 Syntax -
find / i / c | - | 0 | 8 | -
explain / i / c | 3 | - | 7 | read fault c
explain / i / c | - | 0 | 8 | -
explain / i / c / l | 4 | - | 7 | read fault l
explain / i / c / c | - | - | 5 | bad certificate 1 BadMagic at 0
explain / i / c / l | - | - | 0 | accepted contexts=13 nodes=13
explain / i / c / l | - | 0 | 8 | -
upgrade / x | - | - | 7 | read fault x
upgrade / c | - | - | 5 | bad certificate 1 BadMagic at 0
upgrade / l | - | 0 | 8 | -
";

/// The files of S0 with its certificate.
#[derive(Drop)]
struct Whole {
    files: Files,
    cert: Vec<u8>,
}

impl Trial for Whole {
    fn holds(&self, alloc: Global, case: &mut Case<'_>) -> Result<bool, Unread> {
        ends_so(alloc, case, &self.files.with(&self.cert))
    }
}

#[test]
fn faults_of_reading_and_writing_have_their_place(rt: HostRuntime) -> Result<(), Fail> {
    let alloc = rt.alloc();
    let whole = Whole {
        files: Files::of(alloc, Sample::S0)?,
        cert: bytes_of(alloc, S0_SHARED)?,
    };
    each_holds(alloc, &whole, FAULTS)
}

#[test]
fn an_image_with_a_byte_more_has_another_digest(rt: HostRuntime) -> Result<(), Fail> {
    let alloc = rt.alloc();
    let mut files = Files::of(alloc, Sample::S0)?;
    files.image.push(0x90)?;
    let cert = bytes_of(alloc, S0_SHARED)?;
    let end = files.run(alloc, CHECK, &cert)?;
    assert!(rt; end.is(1, "refused C1\n"));
    Ok(())
}

/// The words, the file's name and its size; what comes of it.
const SIZES: &str = "\
check / i / i / i | i | 4000000 | 3 | bad image 1 BadMagic at 0
check / i / i / i | i | 4000001 | a | too large i
upgrade / l | l | c000000 | 5 | bad certificate 1 BadMagic at 0
upgrade / l | l | c000001 | a | too large l
";

/// A file of so many bytes, each a letter.
fn large_file(alloc: Global, name: &str, len: usize) -> Result<MemFiles, AllocError> {
    let mut names = Vec::new(alloc);
    let mut bytes = Vec::new(alloc);
    names.push(String::from_str(alloc, name)?)?;
    bytes.push(vec![in alloc; b'u'; len]?)?;
    Ok(MemFiles::new(names, bytes, Vec::new(alloc)))
}

/// Runs over one file of a size.
struct Sizes;

impl Trial for Sizes {
    fn holds(&self, alloc: Global, case: &mut Case<'_>) -> Result<bool, Unread> {
        let words = case.text();
        let name = case.text();
        let mut files = large_file(alloc, name, case.number()? as usize)?;
        match ended_over(alloc, words, &mut files, &[]) {
            Ok(end) => is_told(alloc, case, &end),
            Err(NoMemory) => Err(Unread::NoMemory),
        }
    }
}

#[test]
fn a_file_over_its_limit_by_one_byte_is_too_large(rt: HostRuntime) -> Result<(), Fail> {
    each_holds(rt.alloc(), &Sizes, SIZES)
}
