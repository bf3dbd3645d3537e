//! Reading a certificate from a file.

ghost use Rattle.std.specs.Prelude.{ℕ, List, ◌+◌, ◌-◌, ◌<◌, ◌≤◌, length};
ghost use Rattle.kc_io.specs.Files.{FilesKept};
ghost use Rattle.kc_certfmt.specs.Reading.{cert_at};
ghost use Rattle.kc_certfmt.specs.Fed.{HasRead};
ghost use Rattle.kc_certfmt.specs.File.{ReadsCert, IsFed, Feeds, Ends};

use crate::reader::CertReader;
use kc_cert::Certificate;
use kc_certfields::{CertFault, CertKind};
use kc_io::Files;
use std::alloc::{AllocError, Global};

/// Why a certificate wasn't read from a file.
#[derive(Clone, Copy, PartialEq, Eq, Debug)]
pub enum CertEnd {
    /// A read failed.
    Fault,
    /// One byte more than the limit was taken.
    TooLong,
    /// The file's bytes have this fault.
    Form(CertFault),
    /// Memory ran out.
    NoMemory,
}

impl From<AllocError> for CertEnd {
    ghost use Rattle.std.specs.Prelude.{◌≡◌};
    ghost use Rattle.kc_certfmt.specs.declared.file.CertEnd.TheVariants.{NoMemory as OutOfMemory};

    ghost from_gives = { λ _ e. e ≡ OutOfMemory };

    fn from(_: AllocError) -> CertEnd {
        CertEnd::NoMemory
    }
}

/// The bytes that are read at once.
const PIECE: usize = 65_536;

// The certificate, or the first fault of the bytes that the reader was fed.
fn finish(reader: CertReader) -> Result<Certificate, CertEnd>
    ensures ends { (fed : List ℕ) → HasRead fed reader → Ends result (cert_at fed) }
{
    match reader.finish() {
        Ok(cert) => Ok(cert),
        Err(fault) => {
            if fault.kind == CertKind::NoMemory {
                Err(CertEnd::NoMemory)
            } else {
                Err(CertEnd::Form(fault))
            }
        }
    }
}

// Reads a piece after the first `taken` bytes of the file, and feeds it. A fault of form is kept by the
// reader, so that the faults of reading come before it.
fn feed_piece<F: Files>(
    files: &mut F,
    name: &str,
    taken: u64,
    limit: u64,
    piece: &mut [u8],
    reader: &mut CertReader,
) -> Result<usize, CertEnd>
    requires below { taken ≤ limit }
    requires room { 0 < length piece.old }
    requires fits { taken + length piece.old ≤ limit + 1 }
    requires fed { IsFed (F.state files.old).held name.now taken reader.old }
    ensures feeds { Feeds (F.state files.old) (F.state files.new) name.now taken limit reader.new result }
    ensures at_most { (F.state files.new).taken ≤ (F.state files.old).taken + (limit + 1 - taken) }
    ensures kept { FilesKept (F.state files.old) (F.state files.new) }
{
    let Ok(count) = files.read_at(name, taken, piece) else {
        return Err(CertEnd::Fault);
    };
    if count as u64 > limit - taken {
        return Err(CertEnd::TooLong);
    }
    match reader.feed(&piece[..count]) {
        Err(fault) if fault.kind == CertKind::NoMemory => Err(CertEnd::NoMemory),
        _ => Ok(count),
    }
}

/// Reads a certificate from the named file, which has at most `limit` bytes, in pieces. A fault of
/// form comes at the file's end, so that the faults of reading come before it.
pub fn read_cert_file<F: Files>(
    alloc: Global,
    files: &mut F,
    name: &str,
    limit: u64,
) -> Result<Certificate, CertEnd>
    ensures reads { ReadsCert (F.state files.old) (F.state files.new) name.now limit result }
    ensures at_most { (F.state files.new).taken ≤ (F.state files.old).taken + limit + 1 }
    ensures kept { FilesKept (F.state files.old) (F.state files.new) }
{
    let mut reader = CertReader::new(alloc);
    let mut piece = vec![in alloc; 0; PIECE]?;
    let mut taken = 0;
    loop {
        let room = (limit - taken).saturating_add(1).min(PIECE as u64) as usize;
        let count = feed_piece(files, name, taken, limit, &mut piece[..room], &mut reader)?;
        if count == 0 {
            return finish(reader);
        }
        taken += count as u64;
    }
}
