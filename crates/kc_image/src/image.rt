//! Images: what an image file loads where, and its symbols.

ghost use Rattle.std.specs.Prelude.{◌≡◌, ◌⊎◌, All, min, ◌-◌, ◌<◌, ◌^◌, ◌++◌, Err, Ok, IfOk, IfErr, IsSome, drop, length, slice_index};
ghost use Rattle.kc_rules.specs.Rules.{Gives};
ghost use Rattle.kc_image.specs.Fault.{no_memory};
ghost use Rattle.kc_image.specs.Image.{AreApart, segment_at, loaded, run, address_of};
ghost use Rattle.kc_image.specs.ImageFile.{elf, contents_of};
ghost use Rattle.kc_image.specs.SymbolSteps.{IsTable, held_by};

use crate::fault::ImageFault;
use crate::header::{check_header, check_program_table, check_section_table};
use crate::loads::read_segments;
use crate::raw::{begins_raw, read_raw};
use crate::sections::read_tables;
use crate::segments::{Place, Segments};
use crate::symbols::SymbolTables;
use crate::tables::Table;
use std::alloc::Global;
use std::marker::Model;

/// The loaded segments and the kept symbols of an image file, which it keeps.
///
/// Contracts see the segments, each with its addresses and its bytes in the file, and the list of
/// the symbols' names and addresses, both in the file's order. No byte lies in two segments.
#[derive(Drop)]
pub struct Image {
    file: Vec<u8>,
    segments: Segments,
    symbols: SymbolTables,
}

impl Model for Image {
    ghost use Rattle.kc_image.specs.Image.{Contents};
    ghost use Rattle.kc_image.specs.SymbolSteps.{AreSymbols, held_by};

    ghost Value = { Contents };

    ghost view = { λ i. held_by i.file.items i.segments i.symbols.tables.items };

    ghost invariant = { λ i. AreSymbols i.file.items i.symbols };
}

/// Reads an image file: a raw image where its first eight bytes are `ENTRYRAW`, and else an ELF
/// file. It keeps the bytes as they are.
///
/// A refusal is the first rule that the file breaks, with its place, or `NoMemory`.
pub fn read_image(alloc: Global, bytes: Vec<u8>) -> Result<Image, ImageFault>
    ensures read { IfOk result (λ i. contents_of bytes.items ≡ Ok i) }
    ensures apart { IfOk result (λ i. AreApart i.segments) }
    // Running out of memory is said of no file.
    ensures fault { IfErr result (λ e. (e ≡ no_memory) ⊎ (contents_of bytes.items ≡ Err e)) }
{
    let (segments, tables) = read_parts(alloc, &bytes)?;
    let symbols = SymbolTables::new(alloc, &bytes, tables)?;
    Ok(Image {
        file: bytes,
        segments,
        symbols,
    })
}

/// The places of the segments, and the symbol tables.
fn read_parts(alloc: Global, file: &[u8]) -> Result<(Segments, Vec<Table>), ImageFault>
    ensures parts { Gives no_memory (λ r. held_by file.now r.0 r.1.items) result (contents_of file.now) }
    ensures tables { IfOk result (λ r. All (IsTable file.now) r.1.items) }
{
    if begins_raw(file) {
        Ok((read_raw(alloc, file)?, Vec::new(alloc)))
    } else {
        read_elf(alloc, file)
    }
}

#[tactic(auto, unfolding(crate::specs::ImageFile::elf))]
fn read_elf(alloc: Global, file: &[u8]) -> Result<(Segments, Vec<Table>), ImageFault>
    ensures parts { Gives no_memory (λ r. held_by file.now r.0 r.1.items) result (elf file.now) }
    ensures tables { IfOk result (λ r. All (IsTable file.now) r.1.items) }
{
    let header = check_header(file)?;
    check_program_table(file, &header)?;
    check_section_table(file, &header)?;
    let segments = read_segments(alloc, file, &header)?;
    let tables = read_tables(alloc, file, &header)?;
    Ok((segments, tables))
}

impl Image {
    /// The loaded byte at the address: that of the segment that holds it, and 0 where the segment
    /// has no byte in the file for it. An address in no segment has none.
    pub fn byte(&self, a: u64) -> Option<u8>
        ensures byte { result ≡ loaded self.now.segments a }
        // No segment holds the last address.
        ensures inside { IsSome result → a < 2 ^ 64 - 1 }
    {
        match self.segments.find(a) {
            Some(place) => Some(byte_of(&self.file, &place, a - place.span.from)),
            None => None,
        }
    }

    /// How many loaded bytes follow each other from the address on, at most 15. They are put into
    /// the prefix of `buf`, and the rest of it stays.
    pub fn bytes_at(&self, a: u64, buf: &mut [u8; 15]) -> usize
        ensures count { result ≡ length (run self.now.segments a 15) }
        ensures bytes { buf.new ≡ run self.now.segments a 15 ++ drop result buf.old }
    {
        let mut at = a;
        for n in 0..15 {
            let Some(byte) = self.byte(at) else {
                return n;
            };
            buf[n] = byte;
            at += 1;
        }
        15
    }

    /// How many segments the file has, those without an address included.
    pub fn segment_count(&self) -> usize
        ensures count { result ≡ length self.now.segments }
    {
        self.segments.len()
    }

    /// How many symbols are kept, by going over the file's symbol tables again. A symbol of two tables over the same
    /// bytes counts twice. The count saturates.
    pub fn symbol_count(&self) -> u64
        ensures count { result ≡ min (length self.now.symbols) (2 ^ 64 - 1) }
    {
        self.symbols.count(&self.file)
    }

    /// The address of the first kept symbol of this name.
    pub fn symbol(&self, name: &str) -> Option<u64>
        ensures address { result ≡ address_of self.now.symbols name.now }
    {
        self.symbols.find(&self.file, name.as_bytes())
    }
}

/// The byte of the place's address i, counted from its first one.
fn byte_of(file: &[u8], place: &Place, i: u64) -> u8
    ensures { result ≡ slice_index (segment_at file.now place.now).bytes i }
{
    if place.size <= i {
        return 0;
    }
    match place.offset.checked_add(i) {
        Some(at) => file.get(at as usize).copied().unwrap_or(0),
        None => 0,
    }
}
