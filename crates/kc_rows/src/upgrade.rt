//! Runs of `upgrade`. The bytes and digests are those of an independent model.

use crate::files::{CHECK, Edits, Files, accepts, bytes_of, second_of};
use crate::first_sample::S1;
use kc_gen::Sample;
use kc_plain::NoMemory;
use kc_runs::{Ending, Held, S0, S0_SHARED, Trial, each_holds, ended, is_told};
use kc_tables::{Case, Unread};
use sha2::{Digest, Sha256};
use std::alloc::Global;
use std::test::Fail;

const UPGRADE: &str = "upgrade / l";

/// `upgrade` on a certificate, where the read and the write of these numbers fail.
fn upgraded(alloc: Global, cert: &[u8], reads: &[u64], writes: &[u64]) -> Result<Ending, Unread> {
    let held = [Held {
        name: "l",
        bytes: cert,
    }];
    match ended(alloc, UPGRADE, &held, reads, writes) {
        Ok(end) => Ok(end),
        Err(NoMemory) => Err(Unread::NoMemory),
    }
}

/// Whether `upgrade` writes these bytes of a certificate.
fn writes(alloc: Global, cert: &[u8], shared: &[u8]) -> Result<bool, Unread> {
    let end = upgraded(alloc, cert, &[], &[])?;
    Ok(end.code == 0 && end.written.as_slice() == shared)
}

#[test]
fn the_table_by_hand_is_written_in_version_2(rt: HostRuntime) -> Result<(), Fail> {
    let alloc = rt.alloc();
    let shared = bytes_of(alloc, S0_SHARED)?;
    let small = bytes_of(alloc, S0)?;
    assert!(rt; writes(alloc, &small, &shared)?);
    assert!(rt; writes(alloc, &shared, &shared)?);
    assert!(rt;
        accepts(
            alloc,
            Sample::S0,
            &shared,
            "accepted contexts=13 nodes=13\n"
        )?
    );
    Ok(())
}

/// Lengths and SHA-256 of the samples' certificates in version 2, and what `check` says of them.
const SAMPLES: &str = "\
S1 | 14cca8 | f7 75 6d ce 91 52 f1 5b 33 93 20 f0 02 be 42 5d 64 b0 e7 17 e1 fb 07 46 07 64 d5 b2 d9 5f 82 5a | 0 | accepted contexts=41 nodes=1385
S2 | 118109 | ce 0e e3 e1 8a cd f2 36 d2 4a e9 9e ef ef 3f 93 25 d8 a4 3c 56 7d 62 1b a8 b0 4e a1 3d 5b 77 38 | 0 | accepted contexts=41 nodes=1232
";

/// The certificates of S1 and S2.
#[derive(Drop)]
struct Samples {
    first: Vec<u8>,
    second: Vec<u8>,
}

/// Whether bytes have the length and the SHA-256 that a case's next columns say.
fn have_digest(alloc: Global, case: &mut Case<'_>, bytes: &[u8]) -> Result<bool, Unread> {
    let is_long = bytes.len() as u64 == case.number()?;
    let digest = case.bytes(alloc)?;
    Ok(is_long && Sha256::digest(bytes).as_slice() == digest.as_slice())
}

impl Trial for Samples {
    fn holds(&self, alloc: Global, case: &mut Case<'_>) -> Result<bool, Unread> {
        let (which, cert) = if case.text() == "S1" {
            (Sample::S1, &self.first)
        } else {
            (Sample::S2, &self.second)
        };
        let shared = upgraded(alloc, cert, &[], &[])?.written;
        Ok(have_digest(alloc, case, &shared)? && is_checked(alloc, which, &shared, case)?)
    }
}

/// Whether `check` says of a sample's certificate what a case's next columns tell.
fn is_checked(
    alloc: Global,
    which: Sample,
    cert: &[u8],
    case: &mut Case<'_>,
) -> Result<bool, Unread> {
    let files = Files::of(alloc, which)?;
    let end = files.run(alloc, CHECK, cert)?;
    is_told(alloc, case, &end)
}

#[test]
fn the_samples_are_accepted_in_version_2(rt: HostRuntime) -> Result<(), Fail> {
    let alloc = rt.alloc();
    let first = bytes_of(alloc, S1)?;
    let second = second_of(alloc, &first)?;
    let samples = Samples { first, second };
    each_holds(alloc, &samples, SAMPLES)
}

/// Edits of S0's certificate in version 1; the exit code and the line.
const FAULTS: &str = "\
add 00 | 5 | bad certificate 4 Trailing at 8542
cut 215d | 5 | bad certificate 3 Short at 8541
put 8 03000000 | 5 | bad certificate 2 Version at 8
put 8 02000000 | 5 | bad certificate 6 Range at 1040
cut 0 ; add 75756b6b75 | 5 | bad certificate 1 BadMagic at 0
";

#[test]
fn what_has_no_form_is_not_written(rt: HostRuntime) -> Result<(), Fail> {
    let alloc = rt.alloc();
    let edits = Edits::of(alloc, Sample::S0, S0, UPGRADE)?;
    each_holds(alloc, &edits, FAULTS)
}

/// Whether the first bytes of a certificate are short at their end.
fn is_short(alloc: Global, cert: &[u8]) -> Result<bool, Unread> {
    let end = upgraded(alloc, cert, &[], &[])?;
    let line = format!(in alloc; "bad certificate 3 Short at {}\n", cert.len())?;
    Ok(end.is(5, line.as_str()))
}

/// Whether each proper prefix of a certificate is short at its end.
fn is_short_everywhere(alloc: Global, cert: &[u8]) -> Result<bool, Unread> {
    for n in 0..cert.len() {
        if !is_short(alloc, &cert[..n])? {
            return Ok(false);
        }
    }
    Ok(true)
}

#[test]
fn each_proper_prefix_is_short_at_its_end(rt: HostRuntime) -> Result<(), Fail> {
    let alloc = rt.alloc();
    let small = bytes_of(alloc, S0)?;
    assert!(rt; is_short_everywhere(alloc, &small)?);
    let shared = bytes_of(alloc, S0_SHARED)?;
    assert!(rt; is_short_everywhere(alloc, &shared)?);
    Ok(())
}

#[test]
fn a_failing_read_is_a_fault_of_the_file(rt: HostRuntime) -> Result<(), Fail> {
    let alloc = rt.alloc();
    let small = bytes_of(alloc, S0)?;
    for k in 0..2 {
        let end = upgraded(alloc, &small, &[k], &[])?;
        assert!(rt; end.is(7, "read fault l\n"));
    }
    assert!(rt; upgraded(alloc, &small, &[2], &[])?.code == 0);
    Ok(())
}

/// Whether the write of number `k` failed, and then a proper prefix of the bytes was written; nothing where another
/// text was.
fn failed_at(alloc: Global, cert: &[u8], shared: &[u8], k: u64) -> Result<Option<bool>, Unread> {
    let end = upgraded(alloc, cert, &[], &[k])?;
    let is_part = shared.starts_with(&end.written);
    match end.code {
        0 => Ok(is_part.then_some(false)),
        8 => Ok((is_part && end.written.len() < shared.len()).then_some(true)),
        _ => Ok(None),
    }
}

#[test]
fn after_a_failing_write_a_prefix_is_written(rt: HostRuntime) -> Result<(), Fail> {
    let alloc = rt.alloc();
    let (small, shared) = (bytes_of(alloc, S0)?, bytes_of(alloc, S0_SHARED)?);
    let mut failed = 0;
    for k in 0..1000 {
        let has_failed = failed_at(alloc, &small, &shared, k)?.ok_or("another text")?;
        if !has_failed {
            break;
        }
        failed = k + 1;
    }
    assert!(rt; 0 < failed);
    Ok(())
}
