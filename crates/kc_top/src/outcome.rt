//! What a command comes to, and how it is told.

ghost use Rattle.std.specs.Prelude.{◌≡◌, ◌≢◌};
ghost use Rattle.kc_io.specs.Sink.{SinkKept, Writes, Refuses};

use crate::Status;
use kc_io::{Sink, write_all};
use kc_plain::Text;

/// A status and the text that goes with it.
#[derive(Debug, Drop)]
pub struct Outcome {
    pub status: Status,
    /// The whole text; a line has its end.
    pub text: Text,
}

/// Writes a text whole, and answers the status that goes with it or `WriteFault`.
pub(crate) fn say<S: Sink>(out: &mut S, status: Status, text: &str) -> Status
    ensures all { result ≢ Status.WriteFault → (result ≡ status) × Writes (S.state out.old) (S.state out.new) text.now }
    ensures part { result ≡ Status.WriteFault → status ≢ Status.WriteFault →
        Refuses (S.state out.old) (S.state out.new) text.now }
    ensures kept { SinkKept (S.state out.old) (S.state out.new) }
{
    match write_all(out, text.as_bytes()) {
        Ok(()) => status,
        Err(_) => Status::WriteFault,
    }
}
