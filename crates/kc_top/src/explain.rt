//! The mode `explain`.

ghost use Rattle.std.specs.Prelude.{Some};
ghost use Rattle.kc_io.specs.Files.{FilesKept, HasFailed};
ghost use Rattle.kc_io.specs.Sink.{SinkKept};
ghost use Rattle.kc_top.specs.Words.{Explain, ExplainCert};
ghost use Rattle.kc_top.specs.RequestSteps.{inputs_of};
ghost use Rattle.kc_top.specs.Output.{IsExplained, IsSearched, work_of};
ghost use Rattle.kc_top.specs.OutputSteps.{Concludes, Ends};

use crate::cert::open_cert;
use crate::load::{Loaded, load};
use crate::request::Inputs;
use crate::search::{say_limits, search};
use crate::status::Status;
use crate::stop::Stop;
use crate::verdict;
use kc_io::{Files, Sink};
use std::alloc::Global;

/// Searches for a certificate, and writes that it is accepted, or why it is refused.
fn explain_found<'a, S: Sink>(
    alloc: Global,
    loaded: &Loaded,
    out: &mut S,
) -> Result<Status, Stop<'a>>
    ensures told { Concludes (IsSearched loaded.now (IsExplained loaded.now))
        (S.state out.old) (S.state out.new) result }
    ensures kept { SinkKept (S.state out.old) (S.state out.new) }
{
    match search(alloc, loaded)? {
        Some(cert) => verdict::explain(alloc, loaded, &cert, out),
        None => Ok(say_limits(out)),
    }
}

/// Reads the image and the description in this order, searches for a certificate, and writes that it is
/// accepted, or why it is refused.
pub fn explain<'a, F: Files, S: Sink>(
    alloc: Global,
    inputs: Inputs<'a>,
    files: &mut F,
    out: &mut S,
) -> Result<Status, Stop<'a>>
    ensures ends { Ends (F.state files.old).held (HasFailed (F.state files.old) (F.state files.new))
        (work_of (Some (Explain (inputs_of inputs.entry)))) (S.state out.old) (S.state out.new) result }
    ensures files_kept { FilesKept (F.state files.old) (F.state files.new) }
    ensures out_kept { SinkKept (S.state out.old) (S.state out.new) }
{
    let loaded = load(alloc, files, inputs)?;
    explain_found(alloc, &loaded, out)
}

/// Reads the image, the description and the certificate in this order, and writes that it is accepted, or why it is
/// refused.
pub fn explain_cert<'a, F: Files, S: Sink>(
    alloc: Global,
    inputs: Inputs<'a>,
    cert: &'a str,
    files: &mut F,
    out: &mut S,
) -> Result<Status, Stop<'a>>
    ensures ends { Ends (F.state files.old).held (HasFailed (F.state files.old) (F.state files.new))
        (work_of (Some (ExplainCert (inputs_of inputs.entry) cert.now))) (S.state out.old) (S.state out.new) result }
    ensures files_kept { FilesKept (F.state files.old) (F.state files.new) }
    ensures out_kept { SinkKept (S.state out.old) (S.state out.new) }
{
    let loaded = load(alloc, files, inputs)?;
    let cert = open_cert(alloc, files, cert)?;
    verdict::explain(alloc, &loaded, &cert, out)
}
