//! Pages of 4,096 bytes, in lists that rise by page number.

ghost use Rattle.std.specs.Prelude.{◌≡◌, ℕ, ◌⊎◌, ◌+◌, ◌*◌, ◌/◌, ◌<◌, ◌≤◌, length, map, IfOk, IfErr, OnOk, OnErr, MatchResult};
ghost use Rattle.std.specs.List.{All, Contains, insert};
ghost use Rattle.std.specs.List.Sorted.{IsStrictlyIncreasing};
ghost use Rattle.std.specs.Vec.{vec_len, vec_capacity};
ghost use Rattle.kc_mem.specs.Memory.{put, put_all};
ghost use Rattle.kc_mem.specs.PageSteps.{bytes_of, stored, ArePages, AreRising, AreZeros, IsAt, IsGapFor, HasPage, AreMissing, HavePages, numbers_of};

use kc_plain::NoMemory;
use std::alloc::Global;

/// How many bytes a page has.
pub(crate) const PAGE_SIZE: u64 = 4096;

/// The bytes at the addresses from `4096 * number` on.
#[derive(Drop)]
pub(crate) struct Page {
    pub(crate) number: u64,
    pub(crate) bytes: Vec<u8>,
}

/// The bytes of a page that holds nothing.
pub(crate) fn empty_page(alloc: Global) -> Result<Vec<u8>, NoMemory>
    ensures { IfOk result (λ bytes. AreZeros bytes.items) }
{
    Ok(vec![in alloc; 0; PAGE_SIZE as usize]?)
}

/// So many pages that hold nothing.
pub(crate) fn empty_pages(alloc: Global, count: usize) -> Result<Vec<Vec<u8>>, NoMemory>
    ensures count { IfOk result (λ pages. vec_len pages ≡ count) }
    ensures zeros { IfOk result (λ pages. All (λ p. AreZeros p.items) pages.items) }
{
    let mut pages = Vec::new(alloc);
    for _ in 0..count {
        pages.push(empty_page(alloc)?)?;
    }
    Ok(pages)
}

/// Where the page of this number is, or where it would stand.
pub(crate) fn place_of(pages: &[Page], number: u64) -> Result<usize, usize>
    requires { AreRising pages.now }
    ensures found { IfOk result (IsAt pages.now number) }
    ensures absent { IfErr result (IsGapFor pages.now number) }
{
    pages.binary_search_by_key(&number, |page| page.number)
}

/// The byte at the address; 0 where no page has it.
pub(crate) fn stored_byte(pages: &[Page], a: u64) -> u8
    requires { ArePages pages.now }
    ensures { result ≡ stored pages.now a }
{
    match place_of(pages, a / PAGE_SIZE) {
        Ok(at) => pages[at].bytes[(a % PAGE_SIZE) as usize],
        Err(_) => 0,
    }
}

/// Writes the byte into the page that has its address.
pub(crate) fn put_byte(pages: &mut Vec<Page>, a: u64, v: u8)
    requires pages { ArePages pages.old.items }
    requires there { HasPage pages.old.items (a / 4096) }
    ensures pages { ArePages pages.new.items }
    ensures numbers { numbers_of pages.new.items ≡ numbers_of pages.old.items }
    ensures bytes { bytes_of pages.new.items ≡ put (bytes_of pages.old.items) a v }
    ensures len { vec_len pages.new ≡ vec_len pages.old }
    ensures capacity { vec_capacity pages.new ≡ vec_capacity pages.old }
{
    if let Ok(at) = place_of(pages, a / PAGE_SIZE) {
        pages[at].bytes[(a % PAGE_SIZE) as usize] = v;
    }
}

/// Writes each byte into the page that has its address, in their order.
pub(crate) fn put_bytes(pages: &mut Vec<Page>, writes: &[(u64, u8)])
    requires pages { ArePages pages.old.items }
    requires there { All (λ w. HasPage pages.old.items (w.0 / 4096)) writes.now }
    ensures pages { ArePages pages.new.items }
    ensures bytes { bytes_of pages.new.items ≡ put_all (bytes_of pages.old.items) writes.now }
    ensures len { vec_len pages.new ≡ vec_len pages.old }
    ensures capacity { vec_capacity pages.new ≡ vec_capacity pages.old }
{
    for &(a, v) in writes {
        put_byte(pages, a, v);
    }
}

/// Puts a page of this number, which holds nothing, into the list where there is none.
pub(crate) fn add_page(pages: &mut Vec<Page>, empty: &mut Vec<Vec<u8>>, number: u64)
    requires pages { ArePages pages.old.items }
    requires empty { All (λ p. AreZeros p.items) empty.old.items }
    requires spare { 0 < vec_len empty.old }
    requires room { vec_len pages.old + vec_len empty.old ≤ vec_capacity pages.old }
    ensures pages { ArePages pages.new.items }
    ensures there { HasPage pages.new.items number }
    ensures bytes { bytes_of pages.new.items ≡ bytes_of pages.old.items }
    ensures empty { All (λ p. AreZeros p.items) empty.new.items }
    ensures spare { vec_len empty.old ≤ vec_len empty.new + 1 }
    ensures room { vec_len pages.new + vec_len empty.new ≤ vec_capacity pages.new }
{
    if let Err(at) = place_of(pages, number) {
        if let Some(bytes) = empty.pop() {
            insert_in_room(pages, at, Page { number, bytes });
        }
    }
}

/// Inserts the page at this index; the list has room for it.
fn insert_in_room(pages: &mut Vec<Page>, at: usize, page: Page)
    requires at { at ≤ vec_len pages.old }
    requires room { vec_len pages.old < vec_capacity pages.old }
    ensures items { pages.new.items ≡ insert pages.old.items at page }
    ensures len { vec_len pages.new ≡ vec_len pages.old + 1 }
    ensures capacity { vec_capacity pages.old ≤ vec_capacity pages.new }
{
    let _ = pages.insert(at, page);
}

/// The pages that the writes need and the list lacks. They hold nothing.
pub(crate) fn missing_pages(
    alloc: Global,
    pages: &[Page],
    writes: &[(u64, u8)],
) -> Result<Vec<Page>, NoMemory>
    requires { ArePages pages.now }
    ensures missing { IfOk result (λ more. AreMissing pages.now more.items) }
    ensures enough { IfOk result (λ more. HavePages pages.now more.items writes.now) }
{
    let numbers = sorted_distinct(missing_numbers(alloc, pages, writes)?);
    numbered_pages(alloc, &numbers)
}

/// The numbers of the pages that the writes need and the list lacks, one for each such write.
fn missing_numbers(
    alloc: Global,
    pages: &[Page],
    writes: &[(u64, u8)],
) -> Result<Vec<u64>, NoMemory>
    requires { ArePages pages.now }
    ensures absent { IfOk result (λ ns. All (λ n. ¬ HasPage pages.now n) ns.items) }
    ensures enough { IfOk result (λ ns. All (λ w. HasPage pages.now (w.0 / 4096) ⊎ Contains ns.items (w.0 / 4096))
        writes.now) }
{
    let mut numbers = Vec::new(alloc);
    for &(a, _) in writes {
        add_missing(&mut numbers, pages, a / PAGE_SIZE)?;
    }
    Ok(numbers)
}

/// Adds the number where the list has no page of it.
fn add_missing(numbers: &mut Vec<u64>, pages: &[Page], number: u64) -> Result<(), NoMemory>
    requires { ArePages pages.now }
    ensures absent { All (λ n. ¬ HasPage pages.now n) numbers.old.items
        → All (λ n. ¬ HasPage pages.now n) numbers.new.items }
    ensures kept { (n : ℕ) → Contains numbers.old.items n → Contains numbers.new.items n }
    ensures there { OnOk result (HasPage pages.now number ⊎ Contains numbers.new.items number) }
{
    if let Err(_) = place_of(pages, number) {
        numbers.push(number)?;
    }
    Ok(())
}

/// The numbers in order, each once.
fn sorted_distinct(mut numbers: Vec<u64>) -> Vec<u64>
    ensures rises { IsStrictlyIncreasing result.items }
    ensures keeps { (n : ℕ) → Contains numbers.items n → Contains result.items n }
    ensures adds_none { (n : ℕ) → Contains result.items n → Contains numbers.items n }
{
    numbers.sort_unstable();
    numbers.dedup();
    numbers
}

/// A page that holds nothing for each of the numbers.
fn numbered_pages(alloc: Global, numbers: &[u64]) -> Result<Vec<Page>, NoMemory>
    ensures numbers { IfOk result (λ pages. numbers_of pages.items ≡ numbers.now) }
    ensures zeros { IfOk result (λ pages. All (λ p. AreZeros p.bytes.items) pages.items) }
{
    let mut pages = Vec::new(alloc);
    for &number in numbers {
        let bytes = empty_page(alloc)?;
        pages.push(Page { number, bytes })?;
    }
    Ok(pages)
}

/// Puts the pages, whose numbers the list lacks, into it, with room for `spare` more.
pub(crate) fn add_pages(
    pages: &mut Vec<Page>,
    mut more: Vec<Page>,
    spare: usize,
) -> Result<(), NoMemory>
    requires pages { ArePages pages.old.items }
    requires missing { AreMissing pages.old.items more.items }
    ensures pages { ArePages pages.new.items }
    ensures bytes { bytes_of pages.new.items ≡ bytes_of pages.old.items }
    ensures there { OnOk result ((n : ℕ) → HasPage pages.old.items n ⊎ HasPage more.items n
        → HasPage pages.new.items n) }
    ensures room { OnOk result (vec_len pages.new + spare ≤ vec_capacity pages.new) }
    ensures err { OnErr result ((vec_len pages.new ≡ vec_len pages.old)
        × (vec_capacity pages.old ≤ vec_capacity pages.new)) }
{
    let Some(room) = more.len().checked_add(spare) else {
        return Err(NoMemory);
    };
    pages.reserve(room)?;
    pages.append(&mut more)?;
    pages.sort_unstable_by_key(|page| page.number);
    Ok(())
}
