//! The document's own table.

ghost use Rattle.std.specs.Prelude.{◌≡◌, ◌≤◌, IfOk, [], length, nat_eq, codes};
ghost use Rattle.kc_config.specs.Faults.{Reads};
ghost use Rattle.kc_config.specs.Keys.{number_in, or_default};
ghost use Rattle.kc_config.specs.Tables.{top, tables, within};
ghost use Rattle.kc_config.specs.Seen.{seen, seen_tables, tables_of, AreCounted};

use crate::fault::ConfigFault;
use crate::keys::Reader;
use kc_regions::{MAX_GATES, MAX_HANDLERS, MAX_REGIONS, MAX_WORDS};
use toml::Table;

/// The version of descriptions.
const VERSION: u64 = 1;

/// The tables that stand in a document.
#[derive(Drop)]
pub(crate) struct Tables<'a> {
    pub(crate) cpu: &'a Table,
    pub(crate) regions: Vec<&'a Table>,
    pub(crate) gates: Vec<&'a Table>,
    pub(crate) handlers: Vec<&'a Table>,
    pub(crate) words: Vec<&'a Table>,
}

#[tactic(auto, unfolding(crate::specs::Keys::number_in))]
fn read_version(table: &Reader<'_>) -> Result<u64, ConfigFault>
    ensures { Reads (λ n. n) result (number_in (nat_eq 1) (seen table.now) (codes "version")) }
{
    let version = table.number("version")?;
    table.in_range("version", version == VERSION)?;
    Ok(version)
}

/// An array of so many tables.
#[tactic(auto, unfolding(crate::specs::Tables::tables))]
fn read_tables<'a>(
    table: &Reader<'a>,
    key: &str,
    least: usize,
    most: usize,
) -> Result<Vec<&'a Table>, ConfigFault>
    ensures read { Reads (λ v. tables_of v.items) result (tables (within least most) (seen table.now) key.now) }
    ensures count { IfOk result (λ v. (least ≤ length v.items) × (length v.items ≤ most)) }
{
    let tables = table.tables(key)?;
    let count = tables.len();
    if count < least || most < count {
        return Err(table.out_of_range(key));
    }
    Ok(tables)
}

/// An array of tables that may be absent, at most so many.
fn read_optional<'a>(
    table: &Reader<'a>,
    key: &str,
    most: usize,
) -> Result<Vec<&'a Table>, ConfigFault>
    ensures read { Reads (λ v. tables_of v.items) result
        (or_default (seen table.now) key.now [] (tables (within 0 most) (seen table.now) key.now)) }
    ensures count { IfOk result (λ v. length v.items ≤ most) }
{
    if table.has(key) {
        read_tables(table, key, 0, most)
    } else {
        Ok(Vec::new(table.alloc))
    }
}

/// The tables of a document.
#[tactic(auto, unfolding(crate::specs::Tables::top))]
pub(crate) fn read_top<'a>(table: &Reader<'a>) -> Result<Tables<'a>, ConfigFault>
    ensures read { Reads seen_tables result (top (seen table.now)) }
    ensures counts { IfOk result AreCounted }
{
    read_version(table)?;
    let cpu = table.table("cpu")?;
    let regions = read_tables(table, "region", 1, MAX_REGIONS)?;
    let gates = read_tables(table, "gate", 1, MAX_GATES)?;
    let handlers = read_optional(table, "handler", MAX_HANDLERS)?;
    let words = read_optional(table, "word", MAX_WORDS)?;
    table.only_keys()?;
    Ok(Tables {
        cpu,
        regions,
        gates,
        handlers,
        words,
    })
}
