//! The rules on the symbol tables of an ELF file.

ghost use Rattle.std.specs.Prelude.{◌≡◌, ◌+◌, ◌*◌, ◌≤◌, ◌++◌, length, [], Ok, All, IfOk};
ghost use Rattle.kc_rules.specs.Rules.{Gives, GivesExactly, over};
ghost use Rattle.kc_image.specs.Fault.{no_memory};
ghost use Rattle.kc_image.specs.Image.{Symbols};
ghost use Rattle.kc_image.specs.FirstFault.{strings_of, linked_strings, section_bytes, add_symbol, add_table, add_section};
ghost use Rattle.kc_image.specs.FirstFault.{entries, section_table};
ghost use Rattle.kc_image.specs.SymbolSteps.{IsTable, strings_in, symbol_at, table_symbols, symbols_in};

use crate::elf::{
    FileHeader, SHDR_SIZE, SHT_STRTAB, SHT_SYMTAB, SYM_SIZE, SectionHeader, read_section_header,
    read_symbol_entry,
};
use crate::fault::{ImageFault, ImageKind, refuse_if};
use crate::header::passes_end;
use crate::tables::{Table, read_strings};
use std::alloc::Global;

/// A string table's header passes, for the symbol table whose section header is at this offset.
#[tactic(auto, unfolding(crate::specs::FirstFault::strings_of))]
fn check_strings(file: &[u8], header: &SectionHeader, at: u64) -> Result<(), ImageFault>
    ensures { GivesExactly (λ _. section_bytes file.now header.now) result (strings_of file.now header.now at) }
{
    let fault = ImageFault {
        kind: ImageKind::SymbolOut,
        at,
    };
    if header.sh_type != SHT_STRTAB || passes_end(file, header.sh_offset, header.sh_size) {
        return Err(fault);
    }
    let (_, rest) = file.split_at(header.sh_offset as usize);
    let (strings, _) = rest.split_at(header.sh_size as usize);
    match strings {
        [] | [.., 0] => Ok(()),
        [..] => Err(fault),
    }
}

/// The header of the string table of this number.
#[tactic(auto, unfolding(crate::specs::FirstFault::linked_strings))]
fn read_linked(
    file: &[u8],
    header: &FileHeader,
    link: u32,
    at: u64,
) -> Result<SectionHeader, ImageFault>
    requires { section_table file.now header.now ≡ Ok tt }
    ensures strings { GivesExactly (section_bytes file.now) result (linked_strings file.now header.now link at) }
    ensures ended { IfOk result (λ s. strings_of file.now s at ≡ Ok (section_bytes file.now s)) }
{
    if u32::from(header.e_shnum) <= link {
        return Err(ImageFault {
            kind: ImageKind::SymbolOut,
            at,
        });
    }
    let section = read_section_header(file, header.e_shoff + SHDR_SIZE * u64::from(link));
    check_strings(file, &section, at)?;
    Ok(section)
}

/// The name of the symbol table's entry at this offset begins within the strings; 0 is a name in an empty table too.
#[tactic(auto, unfolding(crate::specs::FirstFault::add_symbol))]
fn check_entry(file: &[u8], strings: &[u8], at: u64) -> Result<(), ImageFault>
    requires { at + SYM_SIZE ≤ length file.now }
    ensures { (symbols : Symbols) → GivesExactly (λ _. symbols ++ symbol_at file.now strings.now at) result
        (add_symbol file.now strings.now symbols at) }
{
    let place = read_symbol_entry(file, at).st_name as usize;
    if place == 0 {
        return Ok(());
    }
    refuse_if(strings.len() <= place, ImageKind::SymbolOut, at)
}

/// The same of each of the table's entries.
fn check_entries(file: &[u8], table: &Table) -> Result<(), ImageFault>
    requires { IsTable file.now table.now }
    ensures { (symbols : Symbols) → GivesExactly (λ _. symbols ++ table_symbols file.now table.now) result
        (over (add_symbol file.now (strings_in file.now table.now)) symbols
        (entries table.now.first SYM_SIZE table.now.count)) }
{
    let strings = read_strings(file, table);
    for i in 0..table.count {
        check_entry(file, strings, table.first + SYM_SIZE * i)?;
    }
    Ok(())
}

/// The symbol table whose section header is at this offset.
#[tactic(auto, unfolding(crate::specs::FirstFault::add_table))]
fn read_table(
    file: &[u8],
    header: &FileHeader,
    section: &SectionHeader,
    at: u64,
) -> Result<Table, ImageFault>
    requires { section_table file.now header.now ≡ Ok tt }
    ensures symbols { (symbols : Symbols) → GivesExactly (λ t. symbols ++ table_symbols file.now t) result
        (add_table file.now header.now symbols section.now at) }
    ensures valid { IfOk result (IsTable file.now) }
{
    if passes_end(file, section.sh_offset, section.sh_size) {
        return Err(ImageFault {
            kind: ImageKind::SymbolOut,
            at,
        });
    }
    refuse_if(section.sh_size % SYM_SIZE != 0, ImageKind::SymbolOut, at)?;
    let strings = read_linked(file, header, section.sh_link, at)?;
    let table = Table {
        first: section.sh_offset,
        count: section.sh_size / SYM_SIZE,
        strings: strings.sh_offset,
        strings_size: strings.sh_size,
    };
    check_entries(file, &table)?;
    Ok(table)
}

/// With the symbol table of the section header at this offset, where it is one.
#[tactic(auto, unfolding(crate::specs::FirstFault::add_section))]
fn with_section(
    mut tables: Vec<Table>,
    file: &[u8],
    header: &FileHeader,
    at: u64,
) -> Result<Vec<Table>, ImageFault>
    requires header { section_table file.now header.now ≡ Ok tt }
    requires inside { at + SHDR_SIZE ≤ length file.now }
    requires earlier { All (IsTable file.now) tables.items }
    ensures symbols { Gives no_memory (λ ts. symbols_in file.now ts.items) result
        (add_section file.now header.now (symbols_in file.now tables.items) at) }
    ensures valid { IfOk result (λ ts. All (IsTable file.now) ts.items) }
{
    let section = read_section_header(file, at);
    if section.sh_type != SHT_SYMTAB {
        return Ok(tables);
    }
    let table = read_table(file, header, &section, at)?;
    tables.push(table)?;
    Ok(tables)
}

/// The symbol tables of the section headers, whose table lies in the file.
pub(crate) fn read_tables(
    alloc: Global,
    file: &[u8],
    header: &FileHeader,
) -> Result<Vec<Table>, ImageFault>
    requires { section_table file.now header.now ≡ Ok tt }
    ensures symbols { Gives no_memory (λ ts. symbols_in file.now ts.items) result
        (over (add_section file.now header.now) [] (entries header.now.e_shoff SHDR_SIZE header.now.e_shnum)) }
    ensures valid { IfOk result (λ ts. All (IsTable file.now) ts.items) }
{
    let mut tables = Vec::new(alloc);
    for i in 0..header.e_shnum {
        let at = header.e_shoff + SHDR_SIZE * u64::from(i);
        tables = with_section(tables, file, header, at)?;
    }
    Ok(tables)
}
