//! The kept symbols of an image: the tables that name them, and an index of their names.

ghost use Rattle.std.specs.Prelude.{◌≡◌, ◌-◌, ◌^◌, All, IfOk, List, ℕ, length, min};
ghost use Rattle.kc_image.specs.Image.{address_of};
ghost use Rattle.kc_image.specs.SymbolSteps.{AreSymbols, IsTable, symbols_in};

use crate::index::{Index, find_by_name, index_tables};
use crate::tables::{Table, count_in_tables, find_in_tables};
use std::alloc::{AllocError, Global};

/// The symbol tables of a file, in their order, and their first symbols by name.
#[derive(Drop)]
pub(crate) struct SymbolTables {
    pub(crate) tables: Vec<Table>,
    pub(crate) index: Index,
}

impl SymbolTables {
    /// The symbols of these tables.
    pub(crate) fn new(
        alloc: Global,
        file: &[u8],
        tables: Vec<Table>,
    ) -> Result<SymbolTables, AllocError>
        requires { All (IsTable file.now) tables.items }
        ensures tables { IfOk result (λ s. s.tables.items ≡ tables.items) }
        ensures valid { IfOk result (AreSymbols file.now) }
    {
        let index = index_tables(alloc, file, &tables)?;
        Ok(SymbolTables { tables, index })
    }

    /// How many there are; the count saturates.
    pub(crate) fn count(&self, file: &[u8]) -> u64
        requires { AreSymbols file.now self.now }
        ensures { result ≡ min (length (symbols_in file.now self.now.tables.items)) (2 ^ 64 - 1) }
    {
        count_in_tables(file, &self.tables)
    }

    /// The address of the first symbol of this name: by the index, and then in the tables that it leaves out.
    pub(crate) fn find(&self, file: &[u8], name: &[u8]) -> Option<u64>
        requires { AreSymbols file.now self.now }
        ensures { result ≡ address_of (symbols_in file.now self.now.tables.items) name.now }
    {
        match find_by_name(file, &self.index.names, name) {
            Some(value) => Some(value),
            None => find_in_tables(file, &self.tables[self.index.tables..], name),
        }
    }
}
