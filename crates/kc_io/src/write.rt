//! Writing a whole piece.

ghost use Rattle.std.specs.Prelude.{OnOk, OnErr};
ghost use Rattle.kc_io.specs.Sink.{SinkKept, Writes, Refuses};

use crate::{Failed, Sink};

/// Writes all of the piece. `Failed` comes at the first refusal, and then a prefix of the piece was
/// added; after `Ok` nothing was refused.
pub fn write_all<S: Sink>(out: &mut S, piece: &[u8]) -> Result<(), Failed>
    ensures all { OnOk result (Writes (S.state out.old) (S.state out.new) piece.now) }
    ensures part { OnErr result (Refuses (S.state out.old) (S.state out.new) piece.now) }
    ensures kept { SinkKept (S.state out.old) (S.state out.new) }
{
    let mut at = 0;
    while at < piece.len() {
        match out.write(&piece[at..]) {
            Ok(count) if count > 0 => at += count,
            _ => return Err(Failed),
        }
    }
    Ok(())
}
