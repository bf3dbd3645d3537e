//! Reading a file that the words name.

ghost use Rattle.std.specs.Prelude.{◌≤◌, length, IfOk, IfErr};
ghost use Rattle.kc_io.specs.Files.{FilesKept, IsWhole};
ghost use Rattle.kc_top.specs.OutputSteps.{IsUnread};

use crate::stop::Stop;
use kc_io::{Files, ReadEnd, read_all};
use std::alloc::Global;

/// The most bytes of an image.
pub const IMAGE_LIMIT: u64 = 67_108_864;

/// The most bytes of a configuration.
pub const CONFIG_LIMIT: u64 = 1_048_576;

/// The most bytes of a trace.
pub const TRACE_LIMIT: u64 = 16_777_216;

/// The bytes of the named file, at most `limit`.
pub fn operand<'a, F: Files>(
    alloc: Global,
    files: &mut F,
    name: &'a str,
    limit: u64,
) -> Result<Vec<u8>, Stop<'a>>
    ensures whole { IfOk result (λ v. IsWhole (F.state files.old).held name.now v.items) }
    ensures within { IfOk result (λ v. length v.items ≤ limit) }
    ensures unread { IfErr result (IsUnread (F.state files.old) (F.state files.new) name.now limit) }
    ensures kept { FilesKept (F.state files.old) (F.state files.new) }
{
    match read_all(alloc, files, name, limit) {
        Ok(bytes) => Ok(bytes),
        Err(ReadEnd::Fault) => Err(Stop::ReadFault(name)),
        Err(ReadEnd::TooLong) => Err(Stop::TooLarge(name)),
        Err(ReadEnd::NoMemory) => Err(Stop::NoMemory),
    }
}
