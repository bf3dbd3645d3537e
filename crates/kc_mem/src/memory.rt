//! Byte memory: every address holds a byte, 0 where nothing was written.

ghost use Rattle.std.specs.Prelude.{◌≡◌, ◌+◌, ◌≤◌, ◌<◌, OnOk, OnErr};
ghost use Rattle.std.specs.FinMap as map;
ghost use Rattle.kc_mem.specs.Memory.{AreBytes, read, write, put_all};

use crate::pages::{
    PAGE_SIZE, Page, add_page, add_pages, empty_pages, missing_pages, put_byte, put_bytes,
    stored_byte,
};
use kc_plain::NoMemory;
use std::alloc::Global;
use std::marker::Model;

/// The bytes of 2^64 addresses, which wrap. Numbers are stored little-endian.
///
/// Contracts see the bytes that aren't 0 as a finite map by address, and `spare`: how many empty
/// pages were made ahead, each with its room in the list. A write uses no more pages than it has
/// bytes, so it takes no memory.
#[derive(Drop)]
pub struct Memory {
    alloc: Global,
    /// By page number, rising.
    pages: Vec<Page>,
    /// Made ahead, for pages to come.
    empty: Vec<Vec<u8>>,
}

impl Model for Memory {
    ghost use Rattle.std.specs.Vec.{vec_len};
    ghost use Rattle.kc_mem.specs.Memory.{MemoryValue, memory_code};

    ghost Value = { MemoryValue };

    ghost coded = { memory_code };

    ghost use Rattle.kc_mem.specs.PageSteps.{bytes_of};
    ghost use Rattle.kc_mem.specs.InsideSteps.{IsInOrder};

    ghost view = { λ m. record { bytes = bytes_of m.pages.items; spare = vec_len m.empty } };

    ghost invariant = { λ m. IsInOrder m };
}

impl Memory {
    /// All bytes 0, and nothing spare. It takes no memory.
    pub fn new(alloc: Global) -> Memory
        ensures bytes { result.bytes ≡ map.empty }
        ensures spare { result.spare ≡ 0 }
    {
        Memory {
            alloc,
            pages: Vec::new(alloc),
            empty: Vec::new(alloc),
        }
    }

    /// Makes `spare` at least `bytes`, so that so many bytes can be written without memory. After
    /// `NoMemory` the memory is as before.
    pub fn reserve(&mut self, bytes: u64) -> Result<(), NoMemory>
        ensures bytes { self.new.bytes ≡ self.old.bytes }
        ensures enough { OnOk result (bytes ≤ self.new.spare) }
        ensures kept { self.old.spare ≤ self.new.spare }
        ensures err { OnErr result (self.new ≡ self.old) }
    {
        let wanted = bytes as usize;
        let had = self.empty.len();
        if wanted <= had {
            return Ok(());
        }
        let mut made = empty_pages(self.alloc, wanted - had)?;
        self.pages.reserve(wanted)?;
        self.empty.append(&mut made)?;
        Ok(())
    }

    /// Writes each byte at its address, in their order. `spare` doesn't fall. After `NoMemory`
    /// the memory is as before.
    pub fn apply(&mut self, writes: &[(u64, u8)]) -> Result<(), NoMemory>
        ensures bytes { OnOk result (self.new.bytes ≡ put_all self.old.bytes writes.now) }
        ensures kept { self.old.spare ≤ self.new.spare }
        ensures err { OnErr result (self.new ≡ self.old) }
    {
        let more = missing_pages(self.alloc, &self.pages, writes)?;
        add_pages(&mut self.pages, more, self.empty.len())?;
        put_bytes(&mut self.pages, writes);
        Ok(())
    }

    /// The byte at `a`.
    pub fn read1(&self, a: u64) -> u8
        ensures value { result ≡ read self.now.bytes a 1 }
    {
        stored_byte(&self.pages, a)
    }

    /// The number of the 4 bytes from `a` on.
    pub fn read4(&self, a: u64) -> u32
        ensures value { result ≡ read self.now.bytes a 4 }
    {
        self.tell();
        self.number(a, 4) as u32
    }

    /// The number of the 8 bytes from `a` on.
    pub fn read8(&self, a: u64) -> u64
        ensures value { result ≡ read self.now.bytes a 8 }
    {
        self.number(a, 8)
    }

    /// Writes the byte at `a`. It takes no memory.
    pub fn write1(&mut self, a: u64, v: u8)
        requires { 1 ≤ self.old.spare }
        ensures bytes { self.new.bytes ≡ write self.old.bytes a 1 v }
        ensures spare { self.old.spare ≤ self.new.spare + 1 }
    {
        add_page(&mut self.pages, &mut self.empty, a / PAGE_SIZE);
        put_byte(&mut self.pages, a, v);
    }

    /// Writes the 4 bytes of `v` from `a` on. It takes no memory.
    pub fn write4(&mut self, a: u64, v: u32)
        requires { 4 ≤ self.old.spare }
        ensures bytes { self.new.bytes ≡ write self.old.bytes a 4 v }
        ensures spare { self.old.spare ≤ self.new.spare + 4 }
    {
        self.put_number(a, 4, v as u64);
    }

    /// Writes the 8 bytes of `v` from `a` on. It takes no memory.
    pub fn write8(&mut self, a: u64, v: u64)
        requires { 8 ≤ self.old.spare }
        ensures bytes { self.new.bytes ≡ write self.old.bytes a 8 v }
        ensures spare { self.old.spare ≤ self.new.spare + 8 }
    {
        self.put_number(a, 8, v);
    }

    /// Does nothing, and tells that what the map holds are bytes other than 0.
    pub fn tell(&self)
        ensures exact { AreBytes self.now.bytes }
    {
        let _pages = &self.pages;
    }

    // The number of so many bytes.
    fn number(&self, a: u64, size: u64) -> u64
        requires { size ≤ 8 }
        ensures { result ≡ read self.now.bytes a size }
    {
        self.tell();
        let mut v = 0;
        let mut left = size;
        while left > 0 {
            left -= 1;
            v = 256 * v + self.read1(a.wrapping_add(left)) as u64;
        }
        v
    }

    fn put_number(&mut self, a: u64, size: u64, v: u64)
        requires { size ≤ self.old.spare }
        ensures bytes { self.new.bytes ≡ write self.old.bytes a size v }
        ensures spare { self.old.spare ≤ self.new.spare + size }
    {
        let mut at = a;
        let mut rest = v;
        for _ in 0..size {
            self.write1(at, (rest % 256) as u8);
            at = at.wrapping_add(1);
            rest /= 256;
        }
    }
}
