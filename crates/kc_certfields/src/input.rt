//! What is left to read of a certificate.

ghost use Rattle.std.specs.Prelude.{◌≡◌, ◌≤◌, length};
ghost use Rattle.kc_rules.specs.Rules.{refuse};
ghost use Rattle.kc_certfields.specs.Fault.{fault};
ghost use Rattle.kc_certfields.specs.Reads.{Reads, past, short, in_range};
ghost use Rattle.kc_certfields.specs.Numbers.{u8_at, bytes_at};

use crate::fault::{CertFault, CertKind};
use std::marker::Model;

/// The bytes of a certificate from an offset on. Contracts see the offset and the bytes.
#[derive(Drop)]
pub struct Input<'a> {
    at: u64,
    bytes: &'a [u8],
}

impl<'a> Model for Input<'a> {
    ghost use Rattle.kc_certfields.specs.Rest.{Rest};

    ghost Value = { Rest };

    ghost view = { λ i. record { at = i.at; bytes = i.bytes.now } };
}

impl<'a> Input<'a> {
    /// The bytes, whose first has this offset.
    pub fn new(at: u64, bytes: &'a [u8]) -> Input<'a>
        ensures value { result ≡ record { at = at; bytes = bytes.now } }
    {
        Input { at, bytes }
    }

    /// The offset of the next byte.
    pub fn at(&self) -> u64
        ensures value { result ≡ self.now.at }
    {
        self.at
    }

    /// The bytes that are left.
    pub fn rest(&self) -> &'a [u8]
        ensures value { result.now ≡ self.now.bytes }
    {
        self.bytes
    }

    // The bytes end within the field that begins here.
    fn short(&self) -> CertFault
        ensures value { result ≡ short self.now }
    {
        CertFault {
            kind: CertKind::Short,
            at: self.at.saturating_add(self.bytes.len() as u64),
        }
    }

    /// Reads a byte.
    #[tactic(auto, unfolding(crate::specs::Numbers::u8_at))]
    pub fn byte(&mut self) -> Result<u8, CertFault>
        ensures read { Reads (λ x. x) u8_at self.old result self.new }
    {
        match self.bytes {
            [] => Err(self.short()),
            [first, rest @ ..] => {
                self.at = self.at.saturating_add(1);
                self.bytes = rest;
                Ok(*first)
            }
        }
    }

    /// Reads so many bytes.
    #[tactic(auto, unfolding(crate::specs::Numbers::bytes_at))]
    pub fn chunk<const N: usize>(&mut self) -> Result<[u8; N], CertFault>
        ensures read { Reads (λ x. x) (bytes_at N) self.old result self.new }
    {
        match self.bytes.split_first_chunk::<N>() {
            Some((chunk, rest)) => {
                self.at = self.at.saturating_add(N as u64);
                self.bytes = rest;
                Ok(*chunk)
            }
            None => Err(self.short()),
        }
    }
}

/// The fault where a rule is broken.
pub fn refuse_if(broken: bool, kind: CertKind, at: u64) -> Result<(), CertFault>
    ensures value { result ≡ refuse broken (fault kind at) }
{
    if broken {
        Err(CertFault { kind, at })
    } else {
        Ok(())
    }
}
