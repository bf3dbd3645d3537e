//! The mode `upgrade`.

ghost use Rattle.std.specs.Prelude.{Some};
ghost use Rattle.kc_io.specs.Files.{FilesKept, HasFailed};
ghost use Rattle.kc_io.specs.Sink.{SinkKept};
ghost use Rattle.kc_top.specs.Words.{Upgrade};
ghost use Rattle.kc_top.specs.Output.{work_of};
ghost use Rattle.kc_top.specs.OutputSteps.{Ends};

use crate::cert::open_cert;
use crate::status::Status;
use crate::stop::Stop;
use kc_certwrite::{WriteEnd, write_cert2};
use kc_io::{Files, Sink};
use std::alloc::Global;

/// Reads a certificate of either version, and writes it in version 2.
pub fn upgrade<'a, F: Files, S: Sink>(
    alloc: Global,
    cert: &'a str,
    files: &mut F,
    out: &mut S,
) -> Result<Status, Stop<'a>>
    ensures ends { Ends (F.state files.old).held (HasFailed (F.state files.old) (F.state files.new))
        (work_of (Some (Upgrade cert.now))) (S.state out.old) (S.state out.new) result }
    ensures files_kept { FilesKept (F.state files.old) (F.state files.new) }
    ensures out_kept { SinkKept (S.state out.old) (S.state out.new) }
{
    let cert = open_cert(alloc, files, cert)?;
    match write_cert2(alloc, out, &cert) {
        Ok(()) => Ok(Status::Done),
        Err(WriteEnd::Failed) => Ok(Status::WriteFault),
        Err(WriteEnd::NoMemory) => Err(Stop::NoMemory),
    }
}
