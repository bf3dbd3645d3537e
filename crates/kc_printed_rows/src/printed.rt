//! What `print_checked` writes of S0's table made by hand, and of tables that differ from it in one place, as an
//! independent model answers. Each large value is made and let go in a function of its own.

use kc_cert::{Certificate, Digests};
use kc_certfmt::read_cert;
use kc_config::read_config;
use kc_gen::{Sample, sample};
use kc_image::{Image, read_image};
use kc_io::MemSink;
use kc_regions::Config;
use kc_runs::{Ending, S0, S0_SHARED, Trial, each_holds, edited, is_told, list_of, unpack};
use kc_state::Scratch;
use kc_tables::{Case, Unread};
use kc_top::{Status, print_checked};
use sha2::{Digest, Sha256};
use std::alloc::Global;
use std::test::Fail;

/// Edits of the table's bytes; the write that fails; the exit code and the line.
const REFUSED: &str = "\
# a bit of R14, and the GS bases, claimed of states in which they are not known
put 3da 40 | - | 1 | refused C14 user event syscall
put 16fb 02 | - | 1 | refused C4 context 8 at 0xffffffff81000000
# the digest of the description; the stack that user mode enters by; what a context may write
put 2c 0000000000000000000000000000000000000000000000000000000000000000 | - | 1 | refused C1
put 54 faffffffffffffff0500000000000000 | - | 1 | refused C3
put 194 f7 | - | 1 | refused C16 context 4
# a sink that refuses
put 3da 40 | 0 | 8 | -
- | 0 | 8 | -
";

/// No text that is written is longer.
const ROOM: usize = 10_000;

fn status_of(
    alloc: Global,
    image: &Image,
    config: &Config,
    digests: &Digests,
    cert: &Certificate,
    out: &mut MemSink,
) -> Result<Status, Unread> {
    let Ok(mut scratch) = Scratch::new(alloc) else {
        return Err(Unread::NoMemory);
    };
    Ok(print_checked(alloc, image, config, digests, cert, &mut scratch, out))
}

/// The same with the table that these bytes spell.
fn with_cert(
    alloc: Global,
    image: &Image,
    config: &Config,
    digests: &Digests,
    cert: &[u8],
    out: &mut MemSink,
) -> Result<Status, Unread> {
    match read_cert(alloc, cert) {
        Ok(cert) => status_of(alloc, image, config, digests, &cert, out),
        Err(_) => Err(Unread::Column),
    }
}

/// The same with the description that this text is.
fn with_config(
    alloc: Global,
    image: &Image,
    text: &[u8],
    digests: &Digests,
    cert: &[u8],
    out: &mut MemSink,
) -> Result<Status, Unread> {
    match read_config(alloc, text, image) {
        Ok(config) => with_cert(alloc, image, &config, digests, cert, out),
        Err(_) => Err(Unread::Column),
    }
}

/// The same with the image of this file.
fn with_image(
    alloc: Global,
    file: Vec<u8>,
    text: &[u8],
    cert: &[u8],
    out: &mut MemSink,
) -> Result<Status, Unread> {
    let digests = Digests {
        image: Sha256::digest(&file),
        config: Sha256::digest(text),
    };
    match read_image(alloc, file) {
        Ok(image) => with_config(alloc, &image, text, &digests, cert, out),
        Err(_) => Err(Unread::Column),
    }
}

/// How `print_checked` ends on a table of S0 with these bytes; the writes of these numbers fail.
fn ending(alloc: Global, cert: &[u8], writes: Vec<u64>) -> Result<Ending, Unread> {
    let Ok((file, text)) = sample(alloc, Sample::S0) else {
        return Err(Unread::NoMemory);
    };
    let Ok(mut out) = MemSink::new(alloc, ROOM, writes) else {
        return Err(Unread::NoMemory);
    };
    let status = with_image(alloc, file, &text, cert, &mut out)?;
    Ok(Ending {
        code: status.code(),
        written: Vec::from_slice(alloc, out.bytes())?,
    })
}

/// The bytes of S0's table in version 1.
fn table(alloc: Global) -> Result<Vec<u8>, Unread> {
    let mut bytes = Vec::new(alloc);
    unpack(alloc, &mut bytes, S0)?;
    Ok(bytes)
}

/// S0's table with edits of its bytes.
struct Tables;

impl Trial for Tables {
    fn holds(&self, alloc: Global, case: &mut Case<'_>) -> Result<bool, Unread> {
        let cert = edited(alloc, &table(alloc)?, case.text())?;
        let writes = list_of(alloc, case.number_or_none()?)?;
        let end = ending(alloc, &cert, writes)?;
        is_told(alloc, case, &end)
    }
}

#[test]
fn a_wrong_table_is_refused(rt: HostRuntime) -> Result<(), Fail> {
    each_holds(rt.alloc(), &Tables, REFUSED)
}

#[test]
fn a_right_table_is_written_in_version_2(rt: HostRuntime) -> Result<(), Fail> {
    let alloc = rt.alloc();
    let mut due = Vec::new(alloc);
    unpack(alloc, &mut due, S0_SHARED)?;
    let end = ending(alloc, &table(alloc)?, Vec::new(alloc))?;
    assert_eq!(rt; end.code, 0);
    assert!(rt; end.written.as_slice() == due.as_slice());
    Ok(())
}
