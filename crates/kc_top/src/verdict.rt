//! What is said of a certificate: that it is accepted, or its first refusal.

ghost use Rattle.std.specs.Prelude.{◌≡◌, IfOk, string_bytes};
ghost use Rattle.kc_io.specs.Sink.{SinkKept};
ghost use Rattle.kc_top.specs.Lines.{accepted_line};
ghost use Rattle.kc_top.specs.Output.{accepted, refused, explained, IsVerdict, IsExplained, Tells};
ghost use Rattle.kc_top.specs.OutputSteps.{Concludes};

use crate::load::Loaded;
use crate::outcome::say;
use crate::status::Status;
use crate::stop::Stop;
use kc_cert::{Certificate, Counts, Refusal};
use kc_io::{Failed, Sink};
use kc_plain::NoMemory;
use kc_regions::Config;
use kc_state::Scratch;
use std::alloc::Global;

/// The line of so many contexts and nodes that meet the conditions.
fn accepted_text(alloc: Global, contexts: u32, nodes: u32) -> Result<String, NoMemory>
    ensures { IfOk result (λ s. string_bytes s ≡ accepted_line contexts nodes) }
{
    Ok(format!(in alloc; "accepted contexts={contexts} nodes={nodes}\n")?)
}

/// Writes that the conditions hold of so many contexts and nodes.
fn accept<'a, S: Sink>(alloc: Global, counts: Counts, out: &mut S) -> Result<Status, Stop<'a>>
    ensures told { Concludes (λ o. o ≡ accepted counts.contexts counts.nodes)
        (S.state out.old) (S.state out.new) result }
    ensures kept { SinkKept (S.state out.old) (S.state out.new) }
{
    let text = accepted_text(alloc, counts.contexts, counts.nodes)?;
    Ok(say(out, Status::Done, text.as_str()))
}

/// Writes the line of the first condition that fails.
pub fn refuse<S: Sink>(cfg: &Config, refusal: &Refusal, out: &mut S) -> Status
    ensures told { Tells (refused cfg.now refusal.now) result (S.state out.old) (S.state out.new) }
    ensures kept { SinkKept (S.state out.old) (S.state out.new) }
{
    match kc_explain::write_refusal(cfg, refusal, out) {
        Ok(()) => Status::Refused,
        Err(Failed) => Status::WriteFault,
    }
}

/// Writes that line, and why the condition fails there.
fn explain_refusal<S: Sink>(
    loaded: &Loaded,
    cert: &Certificate,
    refusal: &Refusal,
    out: &mut S,
) -> Status
    ensures told { Tells (explained loaded.now.image loaded.now.config cert.now refusal.now) result
        (S.state out.old) (S.state out.new) }
    ensures kept { SinkKept (S.state out.old) (S.state out.new) }
{
    match kc_explain::explain(&loaded.image, &loaded.config, cert, refusal, out) {
        Ok(()) => Status::Refused,
        Err(Failed) => Status::WriteFault,
    }
}

/// Checks a certificate for what was loaded, and writes one line.
pub fn judge<'a, S: Sink>(
    alloc: Global,
    loaded: &Loaded,
    cert: &Certificate,
    out: &mut S,
) -> Result<Status, Stop<'a>>
    ensures told { Concludes (IsVerdict loaded.now cert.now) (S.state out.old) (S.state out.new) result }
    ensures kept { SinkKept (S.state out.old) (S.state out.new) }
{
    let mut scratch = Scratch::new(alloc)?;
    match kc_check::check(
        &loaded.image,
        &loaded.config,
        &loaded.digests,
        cert,
        &mut scratch,
    ) {
        Ok(counts) => accept(alloc, counts, out),
        Err(refusal) => Ok(refuse(&loaded.config, &refusal, out)),
    }
}

/// The same, but a refusal is explained.
pub fn explain<'a, S: Sink>(
    alloc: Global,
    loaded: &Loaded,
    cert: &Certificate,
    out: &mut S,
) -> Result<Status, Stop<'a>>
    ensures told { Concludes (IsExplained loaded.now cert.now) (S.state out.old) (S.state out.new) result }
    ensures kept { SinkKept (S.state out.old) (S.state out.new) }
{
    let mut scratch = Scratch::new(alloc)?;
    match kc_check::check(
        &loaded.image,
        &loaded.config,
        &loaded.digests,
        cert,
        &mut scratch,
    ) {
        Ok(counts) => accept(alloc, counts, out),
        Err(refusal) => Ok(explain_refusal(loaded, cert, &refusal, out)),
    }
}
