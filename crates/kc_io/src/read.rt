//! Reading a whole file.

ghost use Rattle.std.specs.Prelude.{◌≡◌, ◌+◌, ◌<◌, ◌≤◌, length, take, vec_len, IfOk, OnOk, OnErr};
ghost use Rattle.kc_io.specs.Files.{FilesKept, HasFailed, HasTaken, IsWhole, IsLonger, given};
ghost use Rattle.kc_io.specs.ReadSteps.{IsPrefix, IsAtLeast};

use crate::{Failed, Files};
use std::alloc::{AllocError, Global};

/// Why a file wasn't read.
#[derive(Clone, Copy, PartialEq, Eq, Debug)]
pub enum ReadEnd {
    /// A read failed.
    Fault,
    /// One byte more than the limit was taken.
    TooLong,
    /// Out of memory for the bytes.
    NoMemory,
}

impl From<Failed> for ReadEnd {
    ghost use Rattle.std.specs.Prelude.{◌≡◌};
    ghost use Rattle.kc_io.specs.declared.read.ReadEnd.TheVariants.{Fault};

    ghost from_gives = { λ _ e. e ≡ Fault };

    fn from(_: Failed) -> Self {
        ReadEnd::Fault
    }
}

impl From<AllocError> for ReadEnd {
    ghost use Rattle.std.specs.Prelude.{◌≡◌};
    ghost use Rattle.kc_io.specs.declared.read.ReadEnd.TheVariants.{NoMemory};

    ghost from_gives = { λ _ e. e ≡ NoMemory };

    fn from(_: AllocError) -> Self {
        ReadEnd::NoMemory
    }
}

/// The least room for a read, but near the limit.
const PIECE: usize = 65_536;

/// Makes room after the first `filled` bytes: twice the length, but no more than one byte past the
/// limit in all.
fn make_room(buffer: &mut Vec<u8>, filled: usize, limit: usize) -> Result<(), AllocError>
    requires within { filled ≤ vec_len buffer.old }
    requires below { filled ≤ limit }
    requires bounded { vec_len buffer.old ≤ limit + 1 }
    ensures kept { OnOk result (take filled buffer.new.items ≡ take filled buffer.old.items) }
    ensures room { OnOk result (filled < vec_len buffer.new) }
    ensures bounded { OnOk result (vec_len buffer.new ≤ limit + 1) }
{
    if buffer.len() - filled >= PIECE {
        return Ok(());
    }
    let size = buffer
        .len()
        .saturating_mul(2)
        .max(filled.saturating_add(PIECE))
        .min(limit.saturating_add(1));
    if size > buffer.len() {
        buffer.reserve_exact(size - buffer.len())?;
        buffer.resize(size, 0)?;
    }
    Ok(())
}

/// One read, after the first `filled` bytes of the buffer, which are the file's first.
fn read_piece<F: Files>(
    files: &mut F,
    name: &str,
    buffer: &mut [u8],
    filled: usize,
) -> Result<usize, Failed>
    requires room { filled < length buffer.old }
    requires prefix { IsPrefix (F.state files.old).held name.now (take filled buffer.old) }
    ensures within { IfOk result (λ n. filled + n ≤ length buffer.new) }
    ensures len { length buffer.new ≡ length buffer.old }
    ensures prefix { IfOk result (λ n. IsPrefix (F.state files.old).held name.now (take (filled + n) buffer.new)) }
    ensures end { IfOk result (λ n. n ≡ 0 → IsWhole (F.state files.old).held name.now (take filled buffer.new)) }
    ensures longer { IfOk result (λ n. 0 < n → IsAtLeast (F.state files.old).held name.now (filled + n)) }
    ensures taken { HasTaken (F.state files.old) (F.state files.new) (given result) }
    ensures cause { OnErr result (HasFailed (F.state files.old) (F.state files.new) name.now) }
    ensures kept { FilesKept (F.state files.old) (F.state files.new) }
{
    let count = files.read_at(name, filled as u64, &mut buffer[filled..])?;
    Ok(count)
}

/// Reads all bytes of the named file, at most `limit` of them. It takes no more than one byte past
/// the limit, and then answers `TooLong`.
pub fn read_all<F: Files>(
    alloc: Global,
    files: &mut F,
    name: &str,
    limit: u64,
) -> Result<Vec<u8>, ReadEnd>
    ensures whole { IfOk result (λ v. IsWhole (F.state files.old).held name.now v.items) }
    ensures within { IfOk result (λ v. length v.items ≤ limit) }
    ensures taken { IfOk result (λ v. HasTaken (F.state files.old) (F.state files.new) (length v.items)) }
    ensures fault { result ≡ Err ReadEnd.Fault → HasFailed (F.state files.old) (F.state files.new) name.now }
    ensures too_long { result ≡ Err ReadEnd.TooLong → IsLonger (F.state files.old).held name.now limit }
    ensures one_more { result ≡ Err ReadEnd.TooLong → HasTaken (F.state files.old) (F.state files.new) (limit + 1) }
    ensures at_most { (F.state files.new).taken ≤ (F.state files.old).taken + limit + 1 }
    ensures kept { FilesKept (F.state files.old) (F.state files.new) }
{
    let most = usize::try_from(limit).unwrap_or(usize::MAX);
    let mut buffer = Vec::new(alloc);
    let mut filled = 0;
    loop {
        make_room(&mut buffer, filled, most)?;
        let count = read_piece(files, name, &mut buffer, filled)?;
        if count == 0 {
            buffer.truncate(filled);
            return Ok(buffer);
        }
        filled += count;
        if filled > most {
            return Err(ReadEnd::TooLong);
        }
    }
}
