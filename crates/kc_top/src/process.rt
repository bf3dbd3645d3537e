//! The program at the edge of its process: the arguments, the real files and standard output.

use crate::{Status, Words, run};
use kc_io::{HostFiles, HostSink};
use kc_plain::NoMemory;
use std::env;
use std::io::ErrorKind;
use std::rt::{Env, Files as FileSystem};

/// The words after the program's own name. Where an argument isn't UTF-8 they are no command, and
/// then there are none.
fn words_of<R: Env + AllocGlobal>(rt: &R) -> Result<Words, NoMemory> {
    match env::args(rt) {
        Ok(args) => Words::after_name(rt.alloc(), args),
        Err(error) if error.kind() == ErrorKind::OutOfMemory => Err(NoMemory),
        Err(_) => Ok(Words::new(rt.alloc())),
    }
}

/// Runs the command of the process's arguments over the real files and standard output. What these
/// give and take is trusted; stored runs of programs test it.
pub fn run_process<R: Env + AllocGlobal + FileSystem + Print>(rt: &R) -> Status {
    match words_of(rt) {
        Ok(words) => run(
            rt.alloc(),
            &words,
            &mut HostFiles::new(rt),
            &mut HostSink::new(rt),
        ),
        Err(NoMemory) => Status::NoMemory,
    }
}
