//! The symbol tables of an ELF file, whose symbols stay in the file's bytes.

ghost use Rattle.std.specs.Prelude.{All, ◌≡◌, ◌+◌, ◌≤◌, length, min, ◌^◌, ◌-◌};
ghost use Rattle.kc_image.specs.Image.{address_of};
ghost use Rattle.kc_image.specs.SymbolSteps.{IsTable, strings_in, symbol_at, table_symbols, symbols_in, spelled_one};

use crate::elf::{SHN_UNDEF, SYM_SIZE, read_symbol_entry};
use crate::index::Named;
use crate::names::{is_kept, text_at};

/// Where a symbol table and its strings lie in the file.
#[derive(Clone, Copy, PartialEq, Eq, Debug)]
pub(crate) struct Table {
    /// The offset of the first entry.
    pub(crate) first: u64,
    /// How many entries it has.
    pub(crate) count: u64,
    /// The offset of the strings.
    pub(crate) strings: u64,
    /// How many bytes the strings have.
    pub(crate) strings_size: u64,
}

/// The bytes of the table's strings.
pub(crate) fn read_strings<'a>(file: &'a [u8], table: &Table) -> &'a [u8]
    requires { table.now.strings + table.now.strings_size ≤ length file.now }
    ensures { result.now ≡ strings_in file.now table.now }
{
    let (_, rest) = file.split_at(table.strings as usize);
    let (strings, _) = rest.split_at(table.strings_size as usize);
    strings
}

/// The symbol that the table's entry at this offset keeps.
#[tactic(auto, unfolding(crate::specs::SymbolSteps::symbol_at))]
pub(crate) fn read_symbol(file: &[u8], table: &Table, at: u64) -> Option<Named>
    requires table { IsTable file.now table.now }
    requires entry { at + SYM_SIZE ≤ length file.now }
    ensures { spelled_one file.now result ≡ symbol_at file.now (strings_in file.now table.now) at }
{
    let entry = read_symbol_entry(file, at);
    if entry.st_shndx == SHN_UNDEF {
        return None;
    }
    if !is_kept(read_strings(file, table), entry.st_name as usize) {
        return None;
    }
    Some(Named {
        name: table.strings + u64::from(entry.st_name),
        value: entry.st_value,
    })
}

/// The address of the symbol, where it has this name.
pub(crate) fn value_if_named(file: &[u8], symbol: Option<Named>, name: &[u8]) -> Option<u64>
    ensures { result ≡ address_of (spelled_one file.now symbol) name.now }
{
    match symbol {
        Some(symbol) => (name == text_at(file, symbol.name)).then_some(symbol.value),
        None => None,
    }
}

/// The address of the table's first symbol of this name.
fn find_in_table(file: &[u8], table: &Table, name: &[u8]) -> Option<u64>
    requires { IsTable file.now table.now }
    ensures { result ≡ address_of (table_symbols file.now table.now) name.now }
{
    for i in 0..table.count {
        let symbol = read_symbol(file, table, table.first + SYM_SIZE * i);
        if let Some(value) = value_if_named(file, symbol, name) {
            return Some(value);
        }
    }
    None
}

/// The address of the first symbol of this name in these tables.
pub(crate) fn find_in_tables(file: &[u8], tables: &[Table], name: &[u8]) -> Option<u64>
    requires { All (IsTable file.now) tables.now }
    ensures { result ≡ address_of (symbols_in file.now tables.now) name.now }
{
    for table in tables {
        if let Some(value) = find_in_table(file, table, name) {
            return Some(value);
        }
    }
    None
}

/// How many symbols the table keeps.
fn count_in_table(file: &[u8], table: &Table) -> u64
    requires { IsTable file.now table.now }
    ensures { result ≡ length (table_symbols file.now table.now) }
{
    let mut count = 0;
    for i in 0..table.count {
        let symbol = read_symbol(file, table, table.first + SYM_SIZE * i);
        count += u64::from(symbol.is_some());
    }
    count
}

/// How many symbols these tables keep; the count saturates.
pub(crate) fn count_in_tables(file: &[u8], tables: &[Table]) -> u64
    requires { All (IsTable file.now) tables.now }
    ensures { result ≡ min (length (symbols_in file.now tables.now)) (2 ^ 64 - 1) }
{
    let mut count: u64 = 0;
    for table in tables {
        count = count.saturating_add(count_in_table(file, table));
    }
    count
}
