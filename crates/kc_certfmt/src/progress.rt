//! What was read of a certificate whose bytes come in pieces.

ghost use Rattle.std.specs.Prelude.{◌≡◌, true, [], Ok, None, IfOk};
ghost use Rattle.kc_certfields.specs.Stable.{followed};
ghost use Rattle.kc_certfmt.specs.Resume.{is_done, resume};
ghost use Rattle.kc_certfmt.specs.Steps.{TakesPart, TakesParts};

use crate::table::Table;
use kc_cert::Certificate;
use kc_certfields::{CertFault, Input};
use std::alloc::{AllocError, Global};
use std::marker::Model;

/// The part of a certificate that was read, and of the bytes those that make no whole part yet.
#[derive(Drop)]
pub struct Progress {
    table: Option<Table>,
    /// The bytes that make no whole part yet.
    pending: Vec<u8>,
    /// The offset of the first of these.
    at: u64,
}

impl Model for Progress {
    ghost use Rattle.kc_certfmt.specs.Fed.{Sofar};

    ghost Value = { Sofar };

    ghost view = { λ p. record { part = p.table; rest = record { at = p.at; bytes = p.pending.items } } };
}

// Reads the next part: what stands before the contexts, or the table's next part.
fn read_part(
    alloc: Global,
    table: &mut Option<Table>,
    input: &mut Input<'_>,
) -> Result<(), CertFault>
    ensures read { TakesPart table.old input.old result table.new input.new }
{
    match table {
        None => {
            *table = Some(Table::read(alloc, input)?);
            Ok(())
        }
        Some(table) => table.read_part(alloc, input),
    }
}

// Whether the certificate was read, and the bytes to their end.
fn is_done(table: &Option<Table>, input: &Input<'_>) -> bool
    ensures value { result ≡ is_done table.now input.now }
{
    match table {
        None => false,
        Some(table) => table.is_whole() && input.rest().is_empty(),
    }
}

// Reads the parts that are whole. Answers the first fault, and leaves the bytes from the part on that
// has it.
fn read_parts(alloc: Global, table: &mut Option<Table>, input: &mut Input<'_>) -> Option<CertFault>
    ensures read { TakesParts table.old input.old result table.new input.new }
{
    while !is_done(table, input) {
        let (at, rest) = (input.at(), input.rest());
        if let Err(fault) = read_part(alloc, table, input) {
            *input = Input::new(at, rest);
            return Some(fault);
        }
    }
    None
}

impl Progress {
    /// Nothing was read. It takes no memory.
    pub fn new(alloc: Global) -> Progress
        ensures value { result ≡ record { part = None; rest = record { at = 0; bytes = [] } } }
    {
        Progress {
            table: None,
            pending: Vec::new(alloc),
            at: 0,
        }
    }

    /// Reads the parts that are whole with these bytes, and answers the first fault.
    pub fn read(&mut self, alloc: Global, bytes: &[u8]) -> Result<Option<CertFault>, AllocError>
        ensures read { IfOk result
            (λ e. TakesParts self.old.part (followed self.old.rest bytes.now) e self.new.part self.new.rest) }
    {
        self.pending.extend_from_slice(bytes)?;
        let mut input = Input::new(self.at, &self.pending);
        let fault = read_parts(alloc, &mut self.table, &mut input);
        let at = input.at();
        let rest = input.rest().to_vec(alloc)?;
        self.at = at;
        self.pending = rest;
        Ok(fault)
    }

    /// The certificate.
    pub fn into_certificate(self) -> Certificate
        requires done { is_done self.part self.rest ≡ true }
        ensures value { resume self.part self.rest ≡ Ok result }
    {
        let Progress {
            table,
            pending: _,
            at: _,
        } = self;
        match table {
            None => unreachable!(),
            Some(table) => table.into_certificate(),
        }
    }
}
