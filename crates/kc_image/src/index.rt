//! An index of symbols by name: their places, in the order of their names and then of the file. The names stay in the
//! file's bytes.

ghost use Rattle.std.specs.Prelude.{◌≡◌, ◌*◌, ◌^◌, ◌<◌, ◌≤◌, ◌++◌, All, IfOk, List, ℕ, length, option_to_list, take};
ghost use Rattle.kc_image.specs.Image.{address_of};
ghost use Rattle.kc_image.specs.SymbolSteps.{AreByName, IsIndex, IsTable, entry_count, spelled, table_symbols, symbols_in};

use crate::elf::SYM_SIZE;
use crate::names::{compare_texts, text_at};
use crate::tables::{Table, read_symbol, value_if_named};
use std::alloc::{AllocError, Global};

/// A kept symbol.
#[derive(Clone, Copy, PartialEq, Eq, Debug)]
pub(crate) struct Named {
    /// The offset of its name in the file. The name ends before the first 0.
    pub(crate) name: u64,
    /// Its address.
    pub(crate) value: u64,
}

/// The symbols of an image's first tables, by name.
#[derive(Drop)]
pub(crate) struct Index {
    /// How many tables it has the symbols of.
    pub(crate) tables: usize,
    /// The symbols in the order of their names, and those of one name in the file's order.
    pub(crate) names: Vec<Named>,
}

/// The index of as many of the first tables as hold no more entries than the file has room for, so that tables over
/// the same bytes don't take memory again.
pub(crate) fn index_tables(
    alloc: Global,
    file: &[u8],
    tables: &[Table],
) -> Result<Index, AllocError>
    requires { All (IsTable file.now) tables.now }
    ensures { IfOk result (IsIndex file.now tables.now) }
{
    let count = tables_within(tables, file.len() as u64 / SYM_SIZE);
    let names = read_names(alloc, file, &tables[..count])?;
    let names = sort_by_name(file, names)?;
    Ok(Index {
        tables: count,
        names,
    })
}

/// How many of the first tables have at most so many entries together.
fn tables_within(tables: &[Table], most: u64) -> usize
    ensures within { result ≤ length tables.now }
    ensures bound { entry_count (take result tables.now) ≤ most }
    ensures whole { entry_count tables.now ≤ most → result ≡ length tables.now }
{
    let mut left = most;
    for i in 0..tables.len() {
        if left < tables[i].count {
            return i;
        }
        left -= tables[i].count;
    }
    tables.len()
}

/// The symbols of the tables in the file's order.
fn read_names(alloc: Global, file: &[u8], tables: &[Table]) -> Result<Vec<Named>, AllocError>
    requires tables { All (IsTable file.now) tables.now }
    requires few { SYM_SIZE * entry_count tables.now ≤ length file.now }
    ensures { IfOk result (λ names. spelled file.now names.items ≡ symbols_in file.now tables.now) }
{
    let mut names = Vec::with_capacity(alloc, count_entries(tables))?;
    for table in tables {
        names = with_table(names, file, table)?;
    }
    Ok(names)
}

/// How many entries the tables have together.
fn count_entries(tables: &[Table]) -> usize
    requires { entry_count tables.now < 2 ^ 64 }
    ensures { result ≡ entry_count tables.now }
{
    let mut count = 0;
    for table in tables {
        count += table.count as usize;
    }
    count
}

/// With the table's symbols.
fn with_table(names: Vec<Named>, file: &[u8], table: &Table) -> Result<Vec<Named>, AllocError>
    requires { IsTable file.now table.now }
    ensures { IfOk result (λ more.
        spelled file.now more.items ≡ spelled file.now names.items ++ table_symbols file.now table.now) }
{
    let mut names = names;
    for i in 0..table.count {
        let symbol = read_symbol(file, table, table.first + SYM_SIZE * i);
        names = with_symbol(names, symbol)?;
    }
    Ok(names)
}

/// With the symbol, where there is one.
fn with_symbol(mut names: Vec<Named>, symbol: Option<Named>) -> Result<Vec<Named>, AllocError>
    ensures { IfOk result (λ more. more.items ≡ names.items ++ option_to_list symbol) }
{
    match symbol {
        Some(symbol) => {
            names.push(symbol)?;
            Ok(names)
        }
        None => Ok(names),
    }
}

/// The symbols in the order of their names; those of one name keep their order.
fn sort_by_name(file: &[u8], mut names: Vec<Named>) -> Result<Vec<Named>, AllocError>
    ensures count { IfOk result (λ sorted. length sorted.items ≡ length names.items) }
    ensures sorted { IfOk result (λ sorted. AreByName file.now sorted.items) }
    ensures first { IfOk result (λ sorted. (name : List ℕ)
        → address_of (spelled file.now sorted.items) name ≡ address_of (spelled file.now names.items) name) }
{
    names.sort_by(|a, b| compare_texts(file, a.name, b.name))?;
    Ok(names)
}

/// The address of the first symbol of this name.
pub(crate) fn find_by_name(file: &[u8], names: &[Named], name: &[u8]) -> Option<u64>
    requires { AreByName file.now names.now }
    ensures { result ≡ address_of (spelled file.now names.now) name.now }
{
    let place = names.partition_point(|symbol| text_at(file, symbol.name).cmp(name).is_lt());
    value_if_named(file, names.get(place).copied(), name)
}
