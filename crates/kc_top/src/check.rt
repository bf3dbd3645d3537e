//! The mode `check`.

ghost use Rattle.std.specs.Prelude.{Some};
ghost use Rattle.kc_io.specs.Files.{FilesKept, HasFailed};
ghost use Rattle.kc_io.specs.Sink.{SinkKept};
ghost use Rattle.kc_top.specs.Words.{Check};
ghost use Rattle.kc_top.specs.RequestSteps.{inputs_of};
ghost use Rattle.kc_top.specs.Output.{work_of};
ghost use Rattle.kc_top.specs.OutputSteps.{Ends};

use crate::cert::open_cert;
use crate::load::load;
use crate::request::Inputs;
use crate::status::Status;
use crate::stop::Stop;
use crate::verdict::judge;
use kc_io::{Files, Sink};
use std::alloc::Global;

/// Reads the image, the description and the certificate in this order, checks the certificate, and writes one line.
pub fn check<'a, F: Files, S: Sink>(
    alloc: Global,
    inputs: Inputs<'a>,
    cert: &'a str,
    files: &mut F,
    out: &mut S,
) -> Result<Status, Stop<'a>>
    ensures ends { Ends (F.state files.old).held (HasFailed (F.state files.old) (F.state files.new))
        (work_of (Some (Check (inputs_of inputs.entry) cert.now))) (S.state out.old) (S.state out.new) result }
    ensures files_kept { FilesKept (F.state files.old) (F.state files.new) }
    ensures out_kept { SinkKept (S.state out.old) (S.state out.new) }
{
    let loaded = load(alloc, files, inputs)?;
    let cert = open_cert(alloc, files, cert)?;
    judge(alloc, &loaded, &cert, out)
}
