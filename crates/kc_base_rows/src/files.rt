//! What no clause says: the adapters over the real files and output, and that calls succeed.

ghost use Rattle.std.specs.Prelude.{◌≡◌, IfOk};

use kc_io::{
    Failed, Files, HostFiles, HostSink, MemFiles, MemSink, ReadEnd, Sink, read_all, write_all,
};
use std::alloc::{AllocError, Global};
use std::cell::Cell;
use std::fmt::Display;
use std::io::{ErrorKind, Write};
use std::os::fd::AsRawFd;
use std::test::Fail;
use std::{fs, io};

/// Bytes whose values show their offsets.
fn counted(alloc: Global, len: u32) -> Result<Vec<u8>, AllocError> {
    let mut bytes = Vec::new(alloc);
    for i in 0..len {
        bytes.push((i % 251) as u8)?;
    }
    Ok(bytes)
}

/// Files in memory: `empty` with no byte, `full` with these.
fn two_files(alloc: Global, full: Vec<u8>, failing: Vec<u64>) -> Result<MemFiles, AllocError> {
    let mut names = Vec::new(alloc);
    names.push(String::from_str(alloc, "empty")?)?;
    names.push(String::from_str(alloc, "full")?)?;
    let mut bytes = Vec::new(alloc);
    bytes.push(Vec::new(alloc))?;
    bytes.push(full)?;
    Ok(MemFiles::new(names, bytes, failing))
}

#[test]
fn a_real_file_is_read_in_pieces(rt: HostRuntime) -> Result<(), Fail> {
    let alloc = rt.alloc();
    let name = "kc_io_pieces.bin";
    let bytes = counted(alloc, 200_000)?;
    fs::write(&rt, name, bytes.as_slice())?;
    let mut files = HostFiles::new(&rt);
    let mut read = Vec::new(alloc);
    let mut piece = [0; 7_000];
    for _ in 0..100 {
        let at = read.len() as u64;
        let count = match files.read_at(name, at, &mut piece) {
            Ok(count) => count,
            Err(_) => break,
        };
        read.extend_from_slice(&piece[..count])?;
    }
    let whole = read_all(alloc, &mut files, name, 200_000);
    let short = read_all(alloc, &mut files, name, 199_999);
    let missing = read_all(alloc, &mut files, "kc_io_missing.bin", 10);
    fs::remove_file(&rt, name)?;
    assert!(rt; read.as_slice() == bytes.as_slice());
    assert!(rt; whole.expect(&rt, "read whole").as_slice() == bytes.as_slice());
    assert!(rt; short.expect_err(&rt, "one byte too long") == ReadEnd::TooLong);
    assert!(rt; missing.expect_err(&rt, "no such file") == ReadEnd::Fault);
    Ok(())
}

#[test]
fn files_in_memory_are_read_whole(rt: HostRuntime) -> Result<(), Fail> {
    let alloc = rt.alloc();
    let bytes = counted(alloc, 200_000)?;
    for (name, limit, want) in [
        ("full", 200_000, Ok(200_000)),
        ("full", u64::MAX, Ok(200_000)),
        ("full", 199_999, Err(ReadEnd::TooLong)),
        ("full", 0, Err(ReadEnd::TooLong)),
        ("empty", 0, Ok(0)),
        ("other", 10, Err(ReadEnd::Fault)),
    ] {
        let mut files = two_files(alloc, bytes.clone()?, Vec::new(alloc))?;
        let read = read_all(alloc, &mut files, name, limit);
        assert!(rt; read.map(|v| v.len()) == want, "{name} up to {limit}");
    }
    let mut failing = Vec::new(alloc);
    failing.push(1)?;
    let mut files = two_files(alloc, bytes, failing)?;
    let cut = read_all(alloc, &mut files, "full", 200_000);
    assert!(rt; cut.expect_err(&rt, "the second read fails") == ReadEnd::Fault);
    Ok(())
}

#[test]
fn a_sink_in_memory_takes_what_has_room(rt: HostRuntime) -> Result<(), Fail> {
    let alloc = rt.alloc();
    let mut failing = Vec::new(alloc);
    failing.push(2)?;
    let mut sink = MemSink::new(alloc, 6, failing).expect(&rt, "memory");
    assert!(rt; write_all(&mut sink, b"abc").is_ok());
    assert!(rt; write_all(&mut sink, b"").is_ok());
    assert!(rt; write_all(&mut sink, b"defg").is_err());
    assert!(rt; write_all(&mut sink, b"d").is_err());
    assert!(rt; write_all(&mut sink, b"def").is_ok());
    assert!(rt; sink.bytes() == b"abcdef".as_slice());
    assert!(rt; sink.write(b"g").is_err());
    Ok(())
}

#[test]
fn a_file_replaced_while_it_is_read_is_read_to_its_end(rt: HostRuntime) -> Result<(), Fail> {
    let alloc = rt.alloc();
    let (name, other) = ("kc_io_replaced.bin", "kc_io_replacing.bin");
    fs::write(&rt, name, b"first and second".as_slice())?;
    fs::write(&rt, other, b"FIRST AND SECOND".as_slice())?;
    let mut files = HostFiles::new(&rt);
    let mut piece = [0; 6];
    assert!(rt; files.read_at(name, 0, &mut piece) == Ok(6));
    fs::rename(&rt, other, name)?;
    let mut rest = [0; 20];
    assert!(rt; files.read_at(name, 6, &mut rest) == Ok(10));
    assert!(rt; rest.starts_with(b"and second"));
    assert!(rt; files.read_at(name, 16, &mut rest) == Ok(0));
    let anew = read_all(alloc, &mut files, name, 100);
    fs::remove_file(&rt, name)?;
    assert!(rt; anew.expect(&rt, "read again").as_slice() == b"FIRST AND SECOND".as_slice());
    Ok(())
}

#[test]
fn a_pipe_is_read_without_a_seek(rt: HostRuntime) -> Result<(), Fail> {
    let alloc = rt.alloc();
    let bytes = counted(alloc, 10_000)?;
    let (reader, mut writer) = io::pipe(&rt)?;
    writer.write_all(bytes.as_slice())?;
    drop(writer);
    let name = format!(in alloc; "/proc/self/fd/{}", reader.as_raw_fd())?;
    let read = read_all(alloc, &mut HostFiles::new(&rt), name.as_str(), 20_000);
    assert!(rt; read.expect(&rt, "read whole").as_slice() == bytes.as_slice());
    Ok(())
}

#[test]
fn a_read_that_fails_is_no_end(rt: HostRuntime) {
    // A directory is opened, and then each read of it fails.
    let mut files = HostFiles::new(&rt);
    let mut piece = [0; 7];
    assert!(rt; files.read_at(".", 0, &mut piece) == Err(Failed));
    assert!(rt; files.read_at(".", 0, &mut piece) == Err(Failed));
    let whole = read_all(rt.alloc(), &mut files, ".", 100);
    assert!(rt; whole.expect_err(&rt, "each read fails") == ReadEnd::Fault);
}

/// Standard output that takes at most three bytes at once, and only the letters of the alphabet in
/// their order, `left` of them. Then it fails, or answers that it took none.
#[derive(Drop)]
struct Narrow {
    taken: Cell<u8>,
    left: u8,
    fails: bool,
}

impl Narrow {
    fn refuse(&self) -> io::Result<usize>
        ensures none { IfOk result (λ n. n ≡ 0) }
    {
        if self.fails {
            Err(io::Error::from(ErrorKind::StorageFull))
        } else {
            Ok(0)
        }
    }
}

impl Print for Narrow {
    fn print<D: Display + Drop>(&self, _value: D) -> io::Result<()> {
        Err(io::Error::from(ErrorKind::Unsupported))
    }

    fn println<D: Display + Drop>(&self, _value: D) -> io::Result<()> {
        Err(io::Error::from(ErrorKind::Unsupported))
    }

    fn write_all(&self, _bytes: &[u8]) -> io::Result<()> {
        Err(io::Error::from(ErrorKind::Unsupported))
    }

    fn write_some(&self, bytes: &[u8]) -> io::Result<usize> {
        let taken = self.taken.get();
        let most = self.left.saturating_sub(taken).min(3);
        let count = bytes.len().min(usize::from(most));
        if count == 0 || bytes[0] != b'a'.saturating_add(taken) {
            return self.refuse();
        }
        self.taken.set(taken.saturating_add(count as u8));
        Ok(count)
    }
}

#[test]
fn a_partial_write_goes_on_and_a_failing_one_ends(rt: HostRuntime) {
    for (left, fails, done) in [
        (8, true, true),
        (8, false, true),
        (7, true, false),
        (5, false, false),
    ] {
        let out = Narrow {
            taken: Cell::new(0),
            left,
            fails,
        };
        let end = write_all(&mut HostSink::new(&out), b"abcdefgh");
        assert!(rt; end.is_ok() == done, "{left}");
        assert!(rt; out.taken.get() == left, "{left}");
    }
    assert!(rt; write_all(&mut HostSink::new(&rt), b"kc_io\n").is_ok());
}
