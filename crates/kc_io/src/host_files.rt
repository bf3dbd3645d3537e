//! The real files, at the program's edge.

ghost use Rattle.std.specs.Prelude.{◌≡◌, ◌&&◌, None, [], nat_lt, bytes_eq};
ghost use Rattle.std.specs.Io.{ReadsAtMost};

use crate::{Failed, Files};
use arrayvec::ArrayVec;
use std::io::{ErrorKind, Read, Seek, SeekFrom};
use std::rt::Files as FileSystem;
use std::{fs, io};

/// The most bytes of a path: the system opens none that is longer.
const LONGEST_PATH: usize = 4_096;

/// A file that is being read.
#[derive(Drop)]
struct OpenFile<F> {
    name: ArrayVec<u8, LONGEST_PATH>,
    file: F,
    /// The offset that the next read of the file begins at.
    at: u64,
}

/// The files of the system, by path. It doesn't report what they hold; one count of faults serves
/// all names. What it reads is trusted and tested, not proved.
///
/// A read from byte 0 opens the file of its name. Later reads of that name go on in the file that is
/// open, also where another one has its name by then, and where the last read ended they need no
/// seek, so that a pipe can be read.
#[derive(Drop)]
pub struct HostFiles<'a, R: FileSystem> {
    rt: &'a R,
    open: Option<OpenFile<R::File>>,
    faults: u64,
    taken: u64,
}

impl<'a, R: FileSystem> HostFiles<'a, R> {
    /// The files that `rt` reaches; none has failed, and none is open.
    pub fn new(rt: &'a R) -> HostFiles<'a, R>
        ensures faults { result.faults ≡ 0 }
        ensures taken { result.taken ≡ 0 }
    {
        HostFiles {
            rt,
            open: None,
            faults: 0,
            taken: 0,
        }
    }
}

/// Opens the file of this name.
fn open_file<R: FileSystem>(rt: &R, name: &str) -> io::Result<OpenFile<R::File>> {
    let mut kept = ArrayVec::new();
    if kept.try_extend_from_slice(name.as_bytes()).is_err() {
        return Err(io::Error::from(ErrorKind::InvalidFilename));
    }
    let file = fs::open(rt, name)?;
    Ok(OpenFile {
        name: kept,
        file,
        at: 0,
    })
}

impl<F: Read + Seek> OpenFile<F> {
    /// Whether a read of this name from this offset goes on in this file.
    fn is_for(&self, name: &str, at: u64) -> bool
        ensures is { result ≡ (nat_lt 0 at && bytes_eq self.now.name.items name.now) }
    {
        at > 0 && self.name.as_slice() == name.as_bytes()
    }

    /// Reads once from this offset on; a failure of the system is a failure here.
    fn read_at(&mut self, at: u64, buf: &mut [u8]) -> io::Result<usize>
        ensures bound { ReadsAtMost result buf.new }
    {
        if self.at != at {
            self.file.seek(SeekFrom::Start(at))?;
            self.at = at;
        }
        let count = self.file.read(buf)?;
        self.at = self.at.saturating_add(count as u64);
        Ok(count)
    }
}

/// The file for a read of this name from this offset: the one that is open, or one that is opened
/// now.
fn file_for<R: FileSystem>(
    rt: &R,
    open: Option<OpenFile<R::File>>,
    name: &str,
    at: u64,
) -> io::Result<OpenFile<R::File>> {
    match open {
        Some(file) if file.is_for(name, at) => Ok(file),
        _ => open_file(rt, name),
    }
}

/// Reads once from this offset on, and keeps the file open.
fn read_once<R: FileSystem>(
    rt: &R,
    open: &mut Option<OpenFile<R::File>>,
    name: &str,
    at: u64,
    buf: &mut [u8],
) -> io::Result<usize>
    ensures bound { ReadsAtMost result buf.new }
{
    let mut file = file_for(rt, open.take(), name, at)?;
    let count = file.read_at(at, buf);
    *open = Some(file);
    count
}

impl<'a, R: FileSystem> Files for HostFiles<'a, R> {
    ghost state = { λ f. record {
      held = None;
      faults = λ n. f.faults;
      failing = [];
      taken = f.taken;
    } };

    fn read_at(&mut self, name: &str, at: u64, buf: &mut [u8]) -> Result<usize, Failed> {
        match read_once(self.rt, &mut self.open, name, at, buf) {
            Ok(count) => {
                self.taken = self.taken.saturating_add(count as u64);
                Ok(count)
            }
            Err(_) => {
                self.faults = self.faults.saturating_add(1);
                Err(Failed)
            }
        }
    }
}
