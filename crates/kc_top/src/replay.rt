//! The mode `replay`.

ghost use Rattle.std.specs.Prelude.{◌≡◌, ◌<◌, ◌-◌, ◌^◌, IfOk, IfErr, Ok, Some, length};
ghost use Rattle.kc_io.specs.Files.{FilesKept, HasFailed};
ghost use Rattle.kc_io.specs.Sink.{SinkKept};
ghost use Rattle.kc_trace.specs.Words.{lines_of};
ghost use Rattle.kc_replay.specs.Script.{Reads};
ghost use Rattle.kc_top.specs.Words.{Replay};
ghost use Rattle.kc_top.specs.RequestSteps.{inputs_of};
ghost use Rattle.kc_top.specs.Output.{run_status, work_of};
ghost use Rattle.kc_top.specs.OutputSteps.{IsNoTrace, IsScripted, IsUnscripted, Ends};

use crate::load::{Loaded, load};
use crate::operand::{TRACE_LIMIT, operand};
use crate::outcome::say;
use crate::request::Inputs;
use crate::status::Status;
use crate::stop::Stop;
use kc_io::{Files, Sink};
use kc_regions::Config;
use kc_replay::{Script, read_trace, replay_text};
use kc_trace::TraceFault;
use std::alloc::Global;

/// The script that a text is.
fn script_of<'a>(alloc: Global, config: &Config, text: &[u8]) -> Result<Script, Stop<'a>>
    requires lines { length (lines_of text.now) < 2 ^ 32 - 1 }
    ensures read { IfOk result (λ s. Reads config.now text.now (Ok s)) }
    ensures fault { IfErr result (IsNoTrace config.now text.now) }
{
    match read_trace(alloc, config, text) {
        Ok(script) => Ok(script),
        Err(TraceFault::NoMemory) => Err(Stop::NoMemory),
        Err(fault) => Err(Stop::BadTrace(fault)),
    }
}

/// Reads the trace of this name.
fn open_script<'a, F: Files>(
    alloc: Global,
    files: &mut F,
    config: &Config,
    trace: &'a str,
) -> Result<Script, Stop<'a>>
    ensures script { IfOk result (λ s. IsScripted (F.state files.old).held config.now trace.now s) }
    ensures unscripted { IfErr result (IsUnscripted (F.state files.old).held
        (HasFailed (F.state files.old) (F.state files.new)) config.now trace.now) }
    ensures kept { FilesKept (F.state files.old) (F.state files.new) }
{
    let text = operand(alloc, files, trace, TRACE_LIMIT)?;
    script_of(alloc, config, &text)
}

/// The status of a run, by whether no turn broke.
fn run_status(clean: bool) -> Status
    ensures { result ≡ run_status clean }
{
    if clean { Status::Done } else { Status::Refused }
}

/// Reads the image, the description and the trace in this order, runs the trace, and writes what is told
/// of it whole, at the end.
pub fn replay<'a, F: Files, S: Sink>(
    alloc: Global,
    inputs: Inputs<'a>,
    trace: &'a str,
    files: &mut F,
    out: &mut S,
) -> Result<Status, Stop<'a>>
    ensures ends { Ends (F.state files.old).held (HasFailed (F.state files.old) (F.state files.new))
        (work_of (Some (Replay (inputs_of inputs.entry) trace.now))) (S.state out.old) (S.state out.new) result }
    ensures files_kept { FilesKept (F.state files.old) (F.state files.new) }
    ensures out_kept { SinkKept (S.state out.old) (S.state out.new) }
{
    let Loaded { image, config, .. } = load(alloc, files, inputs)?;
    let script = open_script(alloc, files, &config, trace)?;
    let told = replay_text(alloc, image, config, &script)?;
    Ok(say(out, run_status(told.clean), told.text.as_str()))
}
