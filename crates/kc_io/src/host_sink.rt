//! Standard output, at the program's edge.

ghost use Rattle.std.specs.Prelude.{◌≡◌, None, []};

use crate::{Failed, Sink};

/// Standard output. It doesn't report what reached it. What it writes is trusted and tested, not
/// proved.
#[derive(Drop)]
pub struct HostSink<'a, R> {
    rt: &'a R,
    faults: u64,
    /// The length of the piece that was refused last.
    refused: usize,
}

impl<'a, R> HostSink<'a, R> {
    /// The standard output of `rt`; it has refused nothing.
    pub fn new(rt: &'a R) -> HostSink<'a, R>
        ensures faults { result.faults ≡ 0 }
        ensures refused { result.refused ≡ 0 }
    {
        HostSink {
            rt,
            faults: 0,
            refused: 0,
        }
    }
}

impl<'a, R: Print> Sink for HostSink<'a, R> {
    ghost state = { λ s. record {
      written = None;
      faults = s.faults;
      refused = s.refused;
      plan = record { failing = []; room = None };
    } };

    fn write(&mut self, piece: &[u8]) -> Result<usize, Failed> {
        match self.rt.write_some(piece) {
            Ok(count) if count > 0 || piece.is_empty() => Ok(count),
            _ => {
                self.faults = self.faults.saturating_add(1);
                self.refused = piece.len();
                Err(Failed)
            }
        }
    }
}
