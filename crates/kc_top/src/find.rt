//! The mode `find`.

ghost use Rattle.std.specs.Prelude.{Some};
ghost use Rattle.kc_io.specs.Files.{FilesKept, HasFailed};
ghost use Rattle.kc_io.specs.Sink.{SinkKept};
ghost use Rattle.kc_top.specs.Words.{Find};
ghost use Rattle.kc_top.specs.RequestSteps.{inputs_of};
ghost use Rattle.kc_top.specs.Output.{printed, refused, IsJudgement, IsFound, work_of};
ghost use Rattle.kc_top.specs.OutputSteps.{Concludes, Ends};

use crate::load::{Loaded, load};
use crate::print::print_checked;
use crate::request::Inputs;
use crate::search::{say_limits, search};
use crate::status::Status;
use crate::stop::Stop;
use kc_cert::Certificate;
use kc_io::{Files, Sink};
use kc_state::Scratch;
use std::alloc::Global;

/// Checks a table that was found, and writes the certificate, or the line of its first refusal.
fn print<'a, S: Sink>(
    alloc: Global,
    loaded: &Loaded,
    cert: &Certificate,
    out: &mut S,
) -> Result<Status, Stop<'a>>
    ensures told { Concludes (IsJudgement printed (refused loaded.now.config) loaded.now cert.now)
        (S.state out.old) (S.state out.new) result }
    ensures kept { SinkKept (S.state out.old) (S.state out.new) }
{
    let mut scratch = Scratch::new(alloc)?;
    let status = print_checked(
        alloc,
        &loaded.image,
        &loaded.config,
        &loaded.digests,
        cert,
        &mut scratch,
        out,
    );
    if status == Status::NoMemory {
        return Err(Stop::NoMemory);
    }
    Ok(status)
}

/// Searches for a certificate and writes what it finds.
fn print_found<'a, S: Sink>(alloc: Global, loaded: &Loaded, out: &mut S) -> Result<Status, Stop<'a>>
    ensures told { Concludes (IsFound loaded.now) (S.state out.old) (S.state out.new) result }
    ensures kept { SinkKept (S.state out.old) (S.state out.new) }
{
    match search(alloc, loaded)? {
        Some(cert) => print(alloc, loaded, &cert, out),
        None => Ok(say_limits(out)),
    }
}

/// Reads the image and the description in this order, searches for a certificate, and writes it where it is
/// accepted, and else one line.
pub fn find<'a, F: Files, S: Sink>(
    alloc: Global,
    inputs: Inputs<'a>,
    files: &mut F,
    out: &mut S,
) -> Result<Status, Stop<'a>>
    ensures ends { Ends (F.state files.old).held (HasFailed (F.state files.old) (F.state files.new))
        (work_of (Some (Find (inputs_of inputs.entry)))) (S.state out.old) (S.state out.new) result }
    ensures files_kept { FilesKept (F.state files.old) (F.state files.new) }
    ensures out_kept { SinkKept (S.state out.old) (S.state out.new) }
{
    let loaded = load(alloc, files, inputs)?;
    print_found(alloc, &loaded, out)
}
