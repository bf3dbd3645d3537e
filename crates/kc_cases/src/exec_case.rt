//! Cases of instructions: what each leaves, writes and touches in order.

use crate::lines::{hex_bytes, number};
use crate::states::Processor;
use kc_decode::decode;
use kc_exec::{Access, ExecEnd, Log, Touch, exec};
use kc_mem::Memory;
use kc_plain::NoMemory;
use kc_regions::Config;
use std::alloc::Global;

/// A case of an instruction, read line by line.
#[derive(Drop)]
pub struct ExecCase {
    /// The instruction's text, a note.
    pub name: String,
    code: Vec<u8>,
    before: Processor,
    /// Bytes of memory before, and those that are written.
    bytes: Vec<(u64, u8)>,
    writes: Vec<(u64, u8)>,
    /// How it ends, and what differs then from before.
    end: String,
    left: Processor,
    accesses: String,
    /// Whether a line wasn't read.
    unread: bool,
}

impl ExecCase {
    /// The case without a line.
    pub fn new(alloc: Global) -> Result<ExecCase, NoMemory> {
        Ok(ExecCase {
            name: String::new(alloc),
            code: Vec::new(alloc),
            before: Processor::base(),
            bytes: Vec::new(alloc),
            writes: Vec::new(alloc),
            end: String::new(alloc),
            left: Processor::base(),
            accesses: String::new(alloc),
            unread: false,
        })
    }

    /// Reads a line of the case: its first word says what it tells.
    pub fn read_line(&mut self, alloc: Global, line: &str) -> Result<(), NoMemory> {
        let Some((word, rest)) = line.split_once(' ') else {
            return Ok(());
        };
        match word {
            "case" => self.name = String::from_str(alloc, rest)?,
            "code" => self.code = hex_bytes(alloc, rest)?,
            "mem" => add_bytes(alloc, &mut self.bytes, rest)?,
            "write" => add_bytes(alloc, &mut self.writes, rest)?,
            "->" => self.end = String::from_str(alloc, rest)?,
            "access" => add_accesses(&mut self.accesses, rest)?,
            "in" => {
                let before = self.before.with_all(rest);
                self.leave(before);
                self.before = self.left;
            }
            "out" => {
                let left = self.left.with_all(rest);
                self.leave(left);
            }
            "inside" => {
                let left = self.left.inside(rest);
                self.leave(left);
            }
            "#" => {}
            _ => self.unread = true,
        }
        Ok(())
    }

    /// Reads the parts of a line, which are apart by ` | `. A line that begins with `#` is a comment.
    pub fn read_parts(&mut self, alloc: Global, line: &str) -> Result<(), NoMemory> {
        if !line.starts_with('#') {
            for part in line.split(" | ") {
                self.read_line(alloc, part)?;
            }
        }
        Ok(())
    }

    /// Whether the line that says how the case ends was read.
    pub fn is_whole(&self) -> bool {
        !self.end.is_empty()
    }

    fn leave(&mut self, left: Option<Processor>) {
        match left {
            Some(left) => self.left = left,
            None => self.unread = true,
        }
    }

    /// What differs; nothing where the case agrees.
    pub fn difference(&self, alloc: Global, config: &Config) -> Result<String, NoMemory> {
        if self.unread {
            return text(alloc, "a line that isn't read");
        }
        let Ok((insn, len)) = decode(&self.code, self.before.cpu.rip) else {
            return text(alloc, "its code is no instruction");
        };
        let mut now = self.before;
        let mut mem = Memory::new(alloc);
        mem.apply(&self.bytes)?;
        mem.reserve(8)?;
        let mut log = Log::new();
        let Processor { cpu, latch } = &mut now;
        let end = exec(config, cpu, latch, &mut mem, &insn, len, &mut log);
        let end = ending(alloc, end)?;
        if end.as_str() != self.end.as_str() {
            return Ok(format!(in alloc; "{end} and not {}", self.end)?);
        }
        if now != self.left {
            return Ok(format!(in alloc; "{:?} and not {:?}", now.cpu, self.left.cpu)?);
        }
        let touched = accesses(alloc, log.items())?;
        if touched.as_str() != self.accesses.as_str() {
            return Ok(format!(in alloc; "{touched} and not {}", self.accesses)?);
        }
        self.bytes_left(alloc, &mem, log.items())
    }

    /// The first byte that isn't as it is to be, among those of the case and those that were touched.
    fn bytes_left(
        &self,
        alloc: Global,
        mem: &Memory,
        touched: &[Access],
    ) -> Result<String, NoMemory> {
        let mut due = Memory::new(alloc);
        due.apply(&self.bytes)?;
        due.apply(&self.writes)?;
        for &(at, _) in self.bytes.iter().chain(&self.writes) {
            if mem.read1(at) != due.read1(at) {
                return Ok(format!(in alloc; "another byte at {at:#x}")?);
            }
        }
        for access in touched {
            for i in 0..16u64 {
                let at = access.at.wrapping_sub(4).wrapping_add(i);
                if mem.read1(at) != due.read1(at) {
                    return Ok(format!(in alloc; "another byte at {at:#x}")?);
                }
            }
        }
        Ok(String::new(alloc))
    }
}

fn text(alloc: Global, text: &str) -> Result<String, NoMemory> {
    Ok(String::from_str(alloc, text)?)
}

/// Appends the bytes of a line `mem` or `write`: an address, and bytes from there on.
fn add_bytes(alloc: Global, list: &mut Vec<(u64, u8)>, line: &str) -> Result<(), NoMemory> {
    let Some((at, bytes)) = line.split_once(' ') else {
        return Ok(());
    };
    let Some(mut at) = number(at) else {
        return Ok(());
    };
    for byte in &hex_bytes(alloc, bytes)? {
        list.push((at, *byte))?;
        at = at.wrapping_add(1);
    }
    Ok(())
}

/// Appends the accesses of a line `access`.
fn add_accesses(accesses: &mut String, line: &str) -> Result<(), NoMemory> {
    if !accesses.is_empty() {
        accesses.push_str("; ")?;
    }
    accesses.push_str(line)?;
    Ok(())
}

/// The words of an end.
fn ending(alloc: Global, end: ExecEnd) -> Result<String, NoMemory> {
    match end {
        ExecEnd::Next => text(alloc, "next"),
        ExecEnd::Returned => text(alloc, "returned"),
        ExecEnd::Stopped => text(alloc, "stopped"),
        ExecEnd::Forbidden(number) => Ok(format!(in alloc; "forbidden {number}")?),
    }
}

/// The words of the accesses, apart by `; `.
fn accesses(alloc: Global, list: &[Access]) -> Result<String, NoMemory> {
    let mut text = String::new(alloc);
    for access in list {
        let word = match access.touch {
            Touch::Fetch => "fetch",
            Touch::Read => "read",
            Touch::Write => "write",
        };
        let apart = if text.is_empty() { "" } else { "; " };
        let gs = if access.gs { " gs" } else { "" };
        let Access { at, size, .. } = access;
        let part = format!(in alloc; "{apart}{word} {at:#x} {size}{gs}")?;
        text.push_str(part.as_str())?;
    }
    Ok(text)
}
