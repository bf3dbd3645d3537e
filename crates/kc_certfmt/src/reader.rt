//! Reading a certificate in pieces.

ghost use Rattle.std.specs.Prelude.{◌≡◌, ℕ, List, [], ◌++◌, Err};
ghost use Rattle.kc_rules.specs.Rules.{Gives};
ghost use Rattle.kc_certfields.specs.declared.fault.CertFault.{CertFault as FaultValue};
ghost use Rattle.kc_certfields.specs.Fault.{no_memory};
ghost use Rattle.kc_certfmt.specs.Reading.{cert_at};
ghost use Rattle.kc_certfmt.specs.Fed.{HasRead, Answers, told};

use crate::progress::Progress;
use kc_cert::Certificate;
use kc_certfields::{CertFault, CertKind};
use std::alloc::Global;
use std::marker::Model;

/// No more than so many bytes of a piece are kept together at once.
const CHUNK: usize = 65_536;

/// A reader of a certificate's bytes, in either version. It keeps the part of the certificate that
/// was read, and of the bytes only those that make no whole part yet.
#[derive(Drop)]
pub struct CertReader {
    alloc: Global,
    progress: Progress,
    /// The first fault of all bytes so far: `Short` where more are awaited, `None` where they are a
    /// certificate.
    fault: Option<CertFault>,
}

impl Model for CertReader {
    ghost use Rattle.kc_certfmt.specs.Fed.{Reader, IsReader};

    ghost Value = { Reader };

    ghost view = { λ r. record { read = r.progress; fault = r.fault } };

    ghost invariant = { λ r. IsReader r.progress r.fault };
}

impl CertReader {
    /// A reader that was fed nothing. It takes no memory.
    pub fn new(alloc: Global) -> CertReader
        ensures fed { HasRead [] result }
    {
        CertReader {
            alloc,
            progress: Progress::new(alloc),
            fault: Some(CertFault {
                kind: CertKind::Short,
                at: 0,
            }),
        }
    }

    // The fault that stays, whatever follows.
    fn lasting(&self) -> Result<(), CertFault>
        ensures value { result ≡ told self.now.fault }
    {
        match self.fault {
            Some(fault) if fault.kind != CertKind::Short => Err(fault),
            _ => Ok(()),
        }
    }

    // Reads some bytes more.
    fn feed_some(&mut self, bytes: &[u8])
        ensures fed { (fed : List ℕ) → HasRead fed self.old → HasRead (fed ++ bytes.now) self.new }
        ensures stays { (e : FaultValue) → told self.old.fault ≡ Err e → self.new ≡ self.old }
    {
        if self.lasting().is_err() {
            return;
        }
        self.fault = match self.progress.read(self.alloc, bytes) {
            Ok(fault) => fault,
            Err(_) => Some(CertFault {
                kind: CertKind::NoMemory,
                at: 0,
            }),
        };
    }

    /// Appends a piece. After an `Err` the reader answers the same fault from then on.
    pub fn feed(&mut self, piece: &[u8]) -> Result<(), CertFault>
        ensures fed { (fed : List ℕ) → HasRead fed self.old → HasRead (fed ++ piece.now) self.new }
        ensures exact { (fed : List ℕ) → HasRead fed self.old → Answers result (cert_at (fed ++ piece.now)) }
        ensures told { result ≡ told self.new.fault }
        ensures stays { (e : FaultValue) → told self.old.fault ≡ Err e → self.new ≡ self.old }
    {
        let mut left = piece;
        while !left.is_empty() {
            let (some, rest) = left.split_at(left.len().min(CHUNK));
            self.feed_some(some);
            left = rest;
        }
        self.lasting()
    }

    /// The certificate, or the first fault of all bytes that were fed. After an `Err` of `feed` it is that fault.
    pub fn finish(self) -> Result<Certificate, CertFault>
        ensures read { (fed : List ℕ) → HasRead fed self → Gives no_memory (λ x. x) result (cert_at fed) }
        ensures met { (e : FaultValue) → told self.fault ≡ Err e → result ≡ Err e }
    {
        let CertReader {
            alloc: _,
            progress,
            fault,
        } = self;
        match fault {
            Some(fault) => Err(fault),
            None => Ok(progress.into_certificate()),
        }
    }
}

/// Reads a certificate of either version.
pub fn read_cert(alloc: Global, bytes: &[u8]) -> Result<Certificate, CertFault>
    ensures read { Gives no_memory (λ x. x) result (cert_at bytes.now) }
{
    let mut reader = CertReader::new(alloc);
    reader.feed(bytes)?;
    reader.finish()
}
