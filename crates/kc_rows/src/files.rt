//! The files of a check: a sample's image and description, and a certificate, whose bytes tables edit.

use crate::second_sample::S2;
use kc_gen::{Sample, sample};
use kc_plain::NoMemory;
use kc_runs::{Ending, Held, Trial, edited, ended, is_told, unpack};
use kc_tables::{Case, Unread};
use std::alloc::Global;

/// The words of a check over the files of [`Files::with`].
pub const CHECK: &str = "check / i / c / l";

/// A sample's image and description.
#[derive(Drop)]
pub struct Files {
    pub image: Vec<u8>,
    pub config: Vec<u8>,
}

impl Files {
    /// Those of this sample.
    pub fn of(alloc: Global, which: Sample) -> Result<Files, Unread> {
        match sample(alloc, which) {
            Ok((image, config)) => Ok(Files { image, config }),
            Err(NoMemory) => Err(Unread::NoMemory),
        }
    }

    /// An image `i`, a description `c` and a certificate `l`.
    pub fn with<'a>(&'a self, cert: &'a [u8]) -> [Held<'a>; 3] {
        [
            Held {
                name: "i",
                bytes: &self.image,
            },
            Held {
                name: "c",
                bytes: &self.config,
            },
            Held {
                name: "l",
                bytes: cert,
            },
        ]
    }

    /// How a run over these files ends.
    pub fn run(&self, alloc: Global, words: &str, cert: &[u8]) -> Result<Ending, Unread> {
        match ended(alloc, words, &self.with(cert), &[], &[]) {
            Ok(end) => Ok(end),
            Err(NoMemory) => Err(Unread::NoMemory),
        }
    }
}

/// Whether `check` accepts the certificate of a sample with this line.
pub fn accepts(alloc: Global, which: Sample, cert: &[u8], line: &str) -> Result<bool, Unread> {
    let files = Files::of(alloc, which)?;
    let end = files.run(alloc, CHECK, cert)?;
    Ok(end.is(0, line))
}

/// A certificate whose bytes are edited, and the words of a run over it and a sample's files.
#[derive(Drop)]
pub struct Edits {
    files: Files,
    cert: Vec<u8>,
    words: &'static str,
}

impl Edits {
    /// Of a packed certificate.
    pub fn of(
        alloc: Global,
        which: Sample,
        cert: &str,
        words: &'static str,
    ) -> Result<Edits, Unread> {
        Ok(Edits {
            files: Files::of(alloc, which)?,
            cert: bytes_of(alloc, cert)?,
            words,
        })
    }
}

/// The edits; the exit code and the lines.
impl Trial for Edits {
    fn holds(&self, alloc: Global, case: &mut Case<'_>) -> Result<bool, Unread> {
        let cert = edited(alloc, &self.cert, case.text())?;
        let end = self.files.run(alloc, self.words, &cert)?;
        is_told(alloc, case, &end)
    }
}

/// S0's certificate and another one.
#[derive(Drop)]
pub struct TwoEdits {
    pub small: Edits,
    pub other: Edits,
}

/// Which of the two it is, with `s0` for the first, and then as for one.
impl Trial for TwoEdits {
    fn holds(&self, alloc: Global, case: &mut Case<'_>) -> Result<bool, Unread> {
        if case.text() == "s0" {
            self.small.holds(alloc, case)
        } else {
            self.other.holds(alloc, case)
        }
    }
}

/// The bytes of a packed text.
pub fn bytes_of(alloc: Global, text: &str) -> Result<Vec<u8>, Unread> {
    let mut bytes = Vec::new(alloc);
    unpack(alloc, &mut bytes, text)?;
    Ok(bytes)
}

/// The certificate of S2, which is packed behind that of S1.
pub fn second_of(alloc: Global, first: &[u8]) -> Result<Vec<u8>, Unread> {
    let mut bytes = Vec::from_slice(alloc, first)?;
    unpack(alloc, &mut bytes, S2)?;
    match bytes.get(first.len()..) {
        Some(second) => Ok(Vec::from_slice(alloc, second)?),
        None => Err(Unread::Column),
    }
}
