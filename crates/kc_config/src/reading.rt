//! A whole description.

ghost use Rattle.std.specs.Prelude.{◌≡◌, ◌⊎◌, ◌≤◌, All, IfOk, IfErr, length, Ok};
ghost use Rattle.toml.specs.View.{table_view};
ghost use Rattle.kc_config.specs.Faults.{Reads, no_memory};
ghost use Rattle.kc_config.specs.Paths.{region_path, gate_path};
ghost use Rattle.kc_config.specs.Described.{described};
ghost use Rattle.kc_config.specs.Seen.{tables_of};
ghost use Rattle.kc_config.specs.Tables.{region, gate, handler, tracked_word};
ghost use Rattle.kc_config.specs.Reading.{document, each, description, region_fault, cross_fault, IsFirstFault, IsRuleFault};
ghost use Rattle.kc_regions.specs.Ranges.{AreInRange, IsRegionInRange, IsGateInRange, IsHandlerInRange, IsWordInRange};
ghost use Rattle.kc_regions.specs.Valid.{IsValid};

use crate::cpu::read_cpu;
use crate::fault::{ConfigFault, out_of_range};
use crate::gate::read_gate;
use crate::handler::read_handler;
use crate::keys::Reader;
use crate::path::{KeyPath, Place};
use crate::region::read_region;
use crate::top::{Tables, read_top};
use crate::word::read_word;
use kc_image::Image;
use kc_plain::Items;
use kc_regions::{Config, CpuSetup, CrossFault, Gate, Handler, Region, RegionFault, Regions, Word};
use std::alloc::Global;
use toml::Table;

/// The parts of a description, whose rules between them are not asked yet.
#[derive(Drop)]
struct Parts {
    cpu: CpuSetup,
    regions: Vec<Region>,
    gates: Vec<Gate>,
    handlers: Vec<Handler>,
    words: Vec<Word>,
}

/// The table that the text is as a TOML document.
fn read_document(alloc: Global, text: &[u8]) -> Result<Table, ConfigFault>
    ensures { Reads table_view result (document text.now) }
{
    match toml::table_from_slice(alloc, text) {
        Ok(table) => Ok(table),
        Err(error) => {
            if error.is_memory() {
                Err(ConfigFault::NoMemory)
            } else {
                Err(ConfigFault::Syntax)
            }
        }
    }
}

/// The regions of these tables.
fn read_regions(alloc: Global, image: &Image, tables: &[&Table]) -> Result<Vec<Region>, ConfigFault>
    ensures read { Reads (λ v. v.items) result (each region Place.InRegion image.now.symbols (tables_of tables.now)) }
    ensures in_range { IfOk result (λ v. All IsRegionInRange v.items × (length v.items ≡ length tables.now)) }
{
    let mut regions = Vec::new(alloc);
    for (i, table) in tables.iter().enumerate() {
        let place = Place::InRegion(i);
        regions.push(read_region(&Reader {
            alloc,
            image,
            place,
            table,
        })?)?;
    }
    Ok(regions)
}

/// The gates of these tables.
fn read_gates(alloc: Global, image: &Image, tables: &[&Table]) -> Result<Vec<Gate>, ConfigFault>
    ensures read { Reads (λ v. v.items) result (each gate Place.InGate image.now.symbols (tables_of tables.now)) }
    ensures in_range { IfOk result (λ v. All IsGateInRange v.items × (length v.items ≡ length tables.now)) }
{
    let mut gates = Vec::new(alloc);
    for (i, table) in tables.iter().enumerate() {
        let place = Place::InGate(i);
        gates.push(read_gate(&Reader {
            alloc,
            image,
            place,
            table,
        })?)?;
    }
    Ok(gates)
}

/// The handlers of these tables.
fn read_handlers(
    alloc: Global,
    image: &Image,
    tables: &[&Table],
) -> Result<Vec<Handler>, ConfigFault>
    ensures read { Reads (λ v. v.items) result (each handler Place.InHandler image.now.symbols (tables_of tables.now)) }
    ensures in_range { IfOk result (λ v. All IsHandlerInRange v.items × (length v.items ≡ length tables.now)) }
{
    let mut handlers = Vec::new(alloc);
    for (i, table) in tables.iter().enumerate() {
        let place = Place::InHandler(i);
        handlers.push(read_handler(&Reader {
            alloc,
            image,
            place,
            table,
        })?)?;
    }
    Ok(handlers)
}

/// The words of these tables.
fn read_words(alloc: Global, image: &Image, tables: &[&Table]) -> Result<Vec<Word>, ConfigFault>
    ensures read { Reads (λ v. v.items) result (each tracked_word Place.InWord image.now.symbols
        (tables_of tables.now)) }
    ensures in_range { IfOk result (λ v. All IsWordInRange v.items × (length v.items ≡ length tables.now)) }
{
    let mut words = Vec::new(alloc);
    for (i, table) in tables.iter().enumerate() {
        let place = Place::InWord(i);
        words.push(read_word(&Reader {
            alloc,
            image,
            place,
            table,
        })?)?;
    }
    Ok(words)
}

/// What the tables of a document describe.
#[tactic(auto, unfolding(crate::specs::Reading::description))]
fn read_parts(alloc: Global, text: &[u8], image: &Image) -> Result<Parts, ConfigFault>
    ensures read { Reads described result (description image.now.symbols text.now) }
    ensures in_range { IfOk result (λ p. AreInRange (described p)) }
{
    let document = read_document(alloc, text)?;
    let found = read_top(&Reader {
        alloc,
        image,
        place: Place::AtTop,
        table: &document,
    })?;
    let cpu = read_cpu(&Reader {
        alloc,
        image,
        place: Place::InCpu,
        table: found.cpu,
    })?;
    Ok(Parts {
        cpu,
        regions: read_regions(alloc, image, &found.regions)?,
        gates: read_gates(alloc, image, &found.gates)?,
        handlers: read_handlers(alloc, image, &found.handlers)?,
        words: read_words(alloc, image, &found.words)?,
    })
}

/// The fault of the list of regions.
fn region_fault(alloc: Global, fault: RegionFault) -> ConfigFault
    ensures { (result ≡ no_memory) ⊎ (result ≡ region_fault fault) }
{
    let i = match fault {
        RegionFault::Meet(i) | RegionFault::Empty(i) => i,
        RegionFault::TooMany => 0,
    };
    match KeyPath::of_region(alloc, usize::from(i)) {
        Ok(path) => ConfigFault::Regions(path),
        Err(_) => ConfigFault::NoMemory,
    }
}

/// No guard ends where this region, a stack, begins.
fn guard_missing(alloc: Global, i: usize) -> ConfigFault
    ensures { (result ≡ no_memory) ⊎ (result ≡ ConfigFault.GuardMissing (region_path i)) }
{
    match KeyPath::of_region(alloc, i) {
        Ok(path) => ConfigFault::GuardMissing(path),
        Err(_) => ConfigFault::NoMemory,
    }
}

/// The vector has no gate.
fn gate_missing(alloc: Global, vector: usize) -> ConfigFault
    ensures { (result ≡ no_memory) ⊎ (result ≡ ConfigFault.Missing (gate_path vector)) }
{
    match KeyPath::of_gate(alloc, vector) {
        Ok(path) => ConfigFault::Missing(path),
        Err(_) => ConfigFault::NoMemory,
    }
}

/// The fault of a rule between the tables, by its number: 2 the sides of the address space, 3 the
/// stacks, 4 the guards, 5 the CR3 values, 6 the TSS, 7 the vectors, 8 the needed gates, 9 the
/// handlers' entries, 10 the words.
#[tactic(auto, unfolding(crate::specs::Reading::cross_fault))]
fn cross_fault(alloc: Global, fault: CrossFault) -> ConfigFault
    ensures { (result ≡ no_memory) ⊎ (result ≡ cross_fault fault) }
{
    let i = usize::from(fault.index);
    match fault.rule {
        2 => out_of_range(alloc, Place::InRegion(i), "at"),
        3 => out_of_range(alloc, Place::InRegion(i), "size"),
        4 => guard_missing(alloc, i),
        5 => out_of_range(alloc, Place::InCpu, "user_cr3"),
        6 => out_of_range(alloc, Place::InCpu, "tss"),
        7 => out_of_range(alloc, Place::InGate(i), "vector"),
        8 => gate_missing(alloc, i),
        9 => out_of_range(alloc, Place::InHandler(i), "entry"),
        _ => out_of_range(alloc, Place::InWord(i), "at"),
    }
}

/// The configuration of these parts, where the rules between them hold.
fn join_parts(alloc: Global, parts: Parts) -> Result<Config, ConfigFault>
    requires { AreInRange (described parts) }
    ensures whole { IfOk result (λ c. (c ≡ described parts) × IsValid c) }
    ensures fault { IfErr result (λ e. (e ≡ no_memory) ⊎ IsRuleFault (described parts) e) }
{
    let Parts {
        cpu,
        regions,
        gates,
        handlers,
        words,
    } = parts;
    let regions = match Regions::new(Items::from_vec(regions)) {
        Ok(regions) => regions,
        Err(fault) => return Err(region_fault(alloc, fault)),
    };
    match Config::new(
        cpu,
        regions,
        Items::from_vec(gates),
        Items::from_vec(handlers),
        Items::from_vec(words),
    ) {
        Ok(config) => Ok(config),
        Err(fault) => Err(cross_fault(alloc, fault)),
    }
}

/// Reads the description of a kernel, a TOML document whose address texts may name the image's
/// symbols.
///
/// A refusal is the first fault by the order of reading, or `NoMemory`: the syntax; then the keys of
/// the document, of `cpu`, and of each `region`, `gate`, `handler` and `word` in their order, and
/// after a table's own keys any other that it has; then the rules between the tables.
pub fn read_config(alloc: Global, text: &[u8], image: &Image) -> Result<Config, ConfigFault>
    ensures read { IfOk result (λ c. description image.now.symbols text.now ≡ Ok c) }
    ensures valid { IfOk result IsValid }
    ensures fault { IfErr result (λ e. (e ≡ no_memory) ⊎ IsFirstFault image.now.symbols text.now e) }
{
    join_parts(alloc, read_parts(alloc, text, image)?)
}
