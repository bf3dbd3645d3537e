//! The program over files and a sink in memory.

ghost use Rattle.std.specs.Prelude.{◌≡◌, ◌≢◌, []};
ghost use Rattle.kc_io.specs.Files.{HasFailed};
ghost use Rattle.kc_top.specs.Words.{request_of};
ghost use Rattle.kc_top.specs.Output.{IsDue, Tells, HoldsFiles, HasRoom};

use crate::{Outcome, Status, Words, run};
use kc_io::{Files, MemFiles, MemSink, Sink};
use std::alloc::Global;

/// `run` over objects in memory: no fault comes but from calls that fail by plan, from names that
/// aren't held, and from lack of room.
pub fn run_in_memory(
    alloc: Global,
    words: &Words,
    files: &mut MemFiles,
    out: &mut MemSink,
) -> Status
    ensures outcome { result ≢ Status.NoMemory → ((o : Outcome)
        × IsDue (⟦<MemFiles as Files>⟧.state files.old).held
        (HasFailed (⟦<MemFiles as Files>⟧.state files.old) (⟦<MemFiles as Files>⟧.state files.new)) words.now o
        × Tells o result (⟦<MemSink as Sink>⟧.state out.old) (⟦<MemSink as Sink>⟧.state out.new)) }
    ensures read { (⟦<MemFiles as Files>⟧.state files.old).failing ≡ [] →
        HoldsFiles (⟦<MemFiles as Files>⟧.state files.old).held (request_of words.now) → result ≢ Status.ReadFault }
    ensures written { (⟦<MemFiles as Files>⟧.state files.old).failing ≡ [] →
        HoldsFiles (⟦<MemFiles as Files>⟧.state files.old).held (request_of words.now) →
        (⟦<MemSink as Sink>⟧.state out.old).plan.failing ≡ [] →
        HasRoom (⟦<MemFiles as Files>⟧.state files.old).held words.now (⟦<MemSink as Sink>⟧.state out.old) →
        result ≢ Status.WriteFault }
{
    run(alloc, words, files, out)
}
