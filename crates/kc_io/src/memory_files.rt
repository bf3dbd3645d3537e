//! Files in memory, whose reads fail where it was planned.

ghost use Rattle.std.specs.Prelude.{◌≡◌, ◌^◌, ◌-◌, ◌≤◌, ◌==◌, ◌||◌, List, ℕ, [], OnErr, Some, is_err, is_none, length};
ghost use Rattle.std.specs.Prelude.{option_copied, option_map, position, bytes_eq, string_bytes};
ghost use Rattle.std.specs.Io.{ReadsAtMost};
ghost use Rattle.std.specs.List.{list_any};
ghost use Rattle.kc_io.specs.Count.{saturated};
ghost use Rattle.kc_io.specs.Files.{FilesKept, HasFailed, HasTaken, ReadsFile, Reads, given};
ghost use Rattle.kc_io.specs.Memory.{file_of, shared_count};

use crate::{Failed, Files};

/// Files in memory. A call of `read_at` fails exactly where its number, counted from 0, is one of
/// those that fail by plan, or its name isn't held.
#[derive(Drop)]
pub struct MemFiles {
    names: Vec<String>,
    bytes: Vec<Vec<u8>>,
    failing: Vec<u64>,
    /// The number of the next call.
    next: u64,
    /// How often a held name has failed.
    held_faults: u64,
    /// How often another name has failed.
    other_faults: u64,
    /// How many bytes were read.
    taken: u64,
    ghost quiet: { failing.items ≡ [] → held_faults ≡ 0 },
}

impl MemFiles {
    /// Files of these names, each with the bytes at its index. Where a name is there twice, the
    /// first counts; a name without bytes isn't held. The calls whose numbers are in `failing` fail.
    pub fn new(names: Vec<String>, bytes: Vec<Vec<u8>>, failing: Vec<u64>) -> MemFiles
        ensures held { (⟦<MemFiles as Files>⟧.state result).held ≡ Some (file_of names.items bytes.items) }
        ensures faults { (n : List ℕ) → (⟦<MemFiles as Files>⟧.state result).faults n ≡ 0 }
        ensures failing { (⟦<MemFiles as Files>⟧.state result).failing ≡ failing.items }
        ensures taken { (⟦<MemFiles as Files>⟧.state result).taken ≡ 0 }
        // The first call has the number 0.
        ensures first { result.next ≡ 0 }
    {
        MemFiles {
            names,
            bytes,
            failing,
            next: 0,
            held_faults: 0,
            other_faults: 0,
            taken: 0,
        }
    }
}

/// The index of the first of the names that is this one.
fn index_of(names: &[String], name: &str) -> Option<usize>
    ensures { result ≡ position (λ n. bytes_eq name.now (string_bytes n)) names.now }
{
    names.iter().position(|n| name == n.as_str())
}

/// The bytes of the named file.
fn find<'a>(names: &[String], bytes: &'a [Vec<u8>], name: &str) -> Option<&'a Vec<u8>>
    ensures { option_map (λ v. v.items) (option_copied result) ≡ file_of names.now bytes.now name.now }
{
    match index_of(names, name) {
        Some(index) => bytes.get(index),
        None => None,
    }
}

/// Copies bytes of the file from `at` on to the start of `buf`, as many as there are and have room.
fn copy_from(file: &[u8], at: u64, buf: &mut [u8]) -> usize
    ensures within { result ≤ length buf.new }
    ensures reads { ReadsFile file.now at result buf.new }
{
    let from = file.len().min(at as usize);
    let rest = &file[from..];
    let count = rest.len().min(buf.len());
    buf[..count].copy_from_slice(&rest[..count]);
    count
}

impl Files for MemFiles {
    ghost state = { λ m. record {
      held = Some (file_of m.names.items m.bytes.items);
      faults = λ n. shared_count (file_of m.names.items m.bytes.items n) m.held_faults m.other_faults;
      failing = m.failing.items;
      taken = m.taken;
    } };

    fn read_at(&mut self, name: &str, at: u64, buf: &mut [u8]) -> Result<usize, Failed>
        ensures bound { ReadsAtMost result buf.new }
        ensures bytes { Reads (⟦<MemFiles as Files>⟧.state self.old).held name.now at result buf.new }
        ensures taken { HasTaken (⟦<MemFiles as Files>⟧.state self.old)
            (⟦<MemFiles as Files>⟧.state self.new) (given result) }
        ensures cause { OnErr result (HasFailed (⟦<MemFiles as Files>⟧.state self.old)
            (⟦<MemFiles as Files>⟧.state self.new) name.now) }
        ensures kept { FilesKept (⟦<MemFiles as Files>⟧.state self.old) (⟦<MemFiles as Files>⟧.state self.new) }

        // Exactly the planned calls fail, and those for a name that isn't held.
        ensures fails { is_err result ≡ (is_none (file_of self.old.names.items self.old.bytes.items name.now)
            || list_any (λ n. n == self.old.next) self.old.failing.items) }
        ensures next { self.new.next ≡ saturated self.old.next 1 }
    {
        let call = self.next;
        self.next = call.saturating_add(1);
        let Some(file) = find(&self.names, &self.bytes, name) else {
            self.other_faults = self.other_faults.saturating_add(1);
            return Err(Failed);
        };
        if self.failing.contains(&call) {
            self.held_faults = self.held_faults.saturating_add(1);
            return Err(Failed);
        }
        let count = copy_from(file, at, buf);
        self.taken = self.taken.saturating_add(count as u64);
        Ok(count)
    }
}
