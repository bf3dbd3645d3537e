//! Files that can be read from an offset on.

ghost use Rattle.std.specs.Prelude.{◌≡◌};
ghost use Rattle.std.specs.Io.{ReadsAtMost};
ghost use Rattle.std.specs.Prelude.{OnErr};
ghost use Rattle.kc_io.specs.Files.{FilesState, FilesKept, HasFailed, HasTaken, Reads, given};

/// A call that failed.
#[derive(Clone, Copy, PartialEq, Eq, Debug)]
pub struct Failed;

/// Files by name. What is held stays as it is.
pub trait Files {
    /// What contracts see: the bytes of each name, where the object reports them, counts of faults
    /// and of bytes, and the failures that are planned. Each count saturates at 2^64 - 1.
    ghost state: { Self → FilesState };

    /// Reads bytes of the named file into `buf`, from the byte `at` of the file on, and answers how
    /// many: 0 only at the file's end or where `buf` is empty. A name that isn't held fails.
    fn read_at(&mut self, name: &str, at: u64, buf: &mut [u8]) -> Result<usize, Failed>
        ensures bound { ReadsAtMost result buf.new }
        ensures bytes { Reads (state self.old).held name.now at result buf.new }
        ensures taken { HasTaken (state self.old) (state self.new) (given result) }
        ensures cause { OnErr result (HasFailed (state self.old) (state self.new) name.now) }
        ensures kept { FilesKept (state self.old) (state self.new) };
}
