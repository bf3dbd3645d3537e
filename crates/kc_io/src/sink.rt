//! A place that bytes are written to.

ghost use Rattle.std.specs.Prelude.{◌≡◌, ◌≤◌};
ghost use Rattle.std.specs.Io.{WritesAtMost};
ghost use Rattle.std.specs.Io.KnownBytes.{WriteAppends};
ghost use Rattle.kc_io.specs.Count.{Rose};
ghost use Rattle.kc_io.specs.Sink.{SinkState, SinkKept, IsRefusal, refused_length};

use crate::Failed;

/// A sink for bytes, in their order.
pub trait Sink {
    /// What contracts see: the bytes written so far, where the object reports them, the count of
    /// refusals, which saturates at 2^64 - 1, the length of the piece that was refused last, the
    /// failures that are planned and the room.
    ghost state: { Self → SinkState };

    /// Adds the first bytes of `piece` and answers how many. `Failed`, and 0 for a piece that isn't
    /// empty, say that it was refused; then nothing was added.
    fn write(&mut self, piece: &[u8]) -> Result<usize, Failed>
        ensures bound { WritesAtMost result piece.now }
        ensures bytes { WriteAppends (state self.old).written (state self.new).written result piece.now }
        ensures cause { IsRefusal result piece.now → Rose (state self.old).faults (state self.new).faults }
        ensures refused { (state self.new).refused ≡ refused_length (state self.old).refused result piece.now }
        ensures kept { SinkKept (state self.old) (state self.new) };
}
