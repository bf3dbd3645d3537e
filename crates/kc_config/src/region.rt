//! The tables `region`.

ghost use Rattle.std.specs.Prelude.{◌≡◌, IfOk, codes, is_some, true, ◌≤◌, ◌<◌, ◌^◌};
ghost use Rattle.std.specs.List.{list_all};
ghost use Rattle.kc_config.specs.Faults.{Reads};
ghost use Rattle.kc_config.specs.Keys.{word};
ghost use Rattle.kc_config.specs.Tables.{region, span, is_name_character, flags, name_of, kind_of, may_write, may_be_text, may_fault, may_be_marked};
ghost use Rattle.kc_config.specs.Seen.{seen};
ghost use Rattle.kc_config.specs.Allowed.{AreAllowed};
ghost use Rattle.kc_regions.specs.Ranges.{IsRegionInRange};

use crate::fault::ConfigFault;
use crate::keys::Reader;
use kc_plain::Text;
use kc_regions::{Kind, Region};
use kc_words::Span;

/// The flags of a region.
#[derive(Clone, Copy, PartialEq, Eq, Debug)]
pub(crate) struct Flags {
    pub(crate) user_map: bool,
    pub(crate) write: bool,
    pub(crate) exec: bool,
    pub(crate) may_fault: bool,
    pub(crate) quiet: bool,
    pub(crate) marked: bool,
}

/// Whether the byte is one of a to z, 0 to 9 and _.
fn is_name_character(c: u8) -> bool
    ensures { result ≡ is_name_character c }
{
    (97 <= c && c <= 122) || (48 <= c && c <= 57) || c == b'_'
}

/// Whether the text is a region's name: 1 to 32 such bytes.
fn is_name(text: &str) -> bool
    ensures { result ≡ is_some (name_of text.now) }
{
    let bytes = text.as_bytes();
    if bytes.is_empty() || 32 < bytes.len() {
        return false;
    }
    are_name_characters(bytes)
}

fn are_name_characters(bytes: &[u8]) -> bool
    ensures { result ≡ list_all is_name_character bytes.now }
{
    bytes.iter().all(|c| is_name_character(*c))
}

/// A region's name.
#[tactic(auto, unfolding(crate::specs::Keys::word))]
fn read_name<'a>(table: &Reader<'a>) -> Result<&'a str, ConfigFault>
    ensures read { Reads (λ t. t.now) result (word name_of (seen table.now) (codes "name")) }
    ensures in_range { IfOk result (λ t. is_some (name_of t.now) ≡ true) }
{
    let text = table.text("name")?;
    if is_name(text) {
        Ok(text)
    } else {
        Err(table.out_of_range("name"))
    }
}

fn kind_of(text: &str) -> Option<Kind>
    ensures { result ≡ kind_of text.now }
{
    if text == "text" {
        Some(Kind::Text)
    } else if text == "area" {
        Some(Kind::Area)
    } else if text == "data" {
        Some(Kind::Plain)
    } else if text == "stack" {
        Some(Kind::Stack)
    } else if text == "guard" {
        Some(Kind::Guard)
    } else if text == "user" {
        Some(Kind::User)
    } else {
        None
    }
}

#[tactic(auto, unfolding(crate::specs::Keys::word))]
fn read_kind(table: &Reader<'_>) -> Result<Kind, ConfigFault>
    ensures { Reads (λ k. k) result (word kind_of (seen table.now) (codes "kind")) }
{
    match kind_of(table.text("kind")?) {
        Some(kind) => Ok(kind),
        None => Err(table.out_of_range("kind")),
    }
}

/// The addresses of a region.
#[tactic(auto, unfolding(crate::specs::Tables::span))]
fn read_span(table: &Reader<'_>) -> Result<Span, ConfigFault>
    ensures read { Reads (λ s. s) result (span (seen table.now)) }
    ensures in_range { IfOk result (λ s. (s.from ≤ s.to) × (s.to < 2 ^ 64)) }
{
    let from = table.address("at")?;
    let size = table.address("size")?;
    match from.checked_add(size) {
        Some(to) => Ok(Span { from, to }),
        None => Err(table.out_of_range("size")),
    }
}

/// Whether a region of this kind may be written or not.
fn may_write(kind: Kind, write: bool) -> bool
    ensures { result ≡ may_write kind write }
{
    match kind {
        Kind::Text | Kind::Guard => !write,
        Kind::Stack => write,
        _ => true,
    }
}

/// Whether a region of this kind may have a flag of texts.
fn may_be_text(kind: Kind, set: bool) -> bool
    ensures { result ≡ may_be_text kind set }
{
    match kind {
        Kind::Text => true,
        _ => !set,
    }
}

/// Whether an access to a region of this kind may raise a page fault.
fn may_fault(kind: Kind, set: bool) -> bool
    ensures { result ≡ may_fault kind set }
{
    match kind {
        Kind::Guard => !set,
        _ => true,
    }
}

/// Whether a region of this kind may be marked.
fn may_be_marked(kind: Kind, set: bool) -> bool
    ensures { result ≡ may_be_marked kind set }
{
    match kind {
        Kind::Stack => true,
        _ => !set,
    }
}

/// The flags of a region of this kind.
#[tactic(auto, unfolding(crate::specs::Tables::flags))]
fn read_flags(table: &Reader<'_>, kind: Kind) -> Result<Flags, ConfigFault>
    ensures read { Reads (λ f. f) result (flags kind (seen table.now)) }
    ensures in_range { IfOk result (AreAllowed kind) }
{
    let user_map = table.flag("user_map")?;
    let write = table.flag("write")?;
    table.in_range("write", may_write(kind, write))?;
    let exec = table.flag("exec")?;
    table.in_range("exec", may_be_text(kind, exec))?;
    let faults = table.flag("may_fault")?;
    table.in_range("may_fault", may_fault(kind, faults))?;
    let quiet = table.flag("quiet")?;
    table.in_range("quiet", may_be_text(kind, quiet))?;
    let marked = table.flag("marked")?;
    table.in_range("marked", may_be_marked(kind, marked))?;
    Ok(Flags {
        user_map,
        write,
        exec,
        may_fault: faults,
        quiet,
        marked,
    })
}

/// A region.
#[tactic(auto, unfolding(crate::specs::Tables::region))]
pub(crate) fn read_region(table: &Reader<'_>) -> Result<Region, ConfigFault>
    ensures read { Reads (λ r. r) result (region (seen table.now)) }
    ensures in_range { IfOk result IsRegionInRange }
{
    let name = read_name(table)?;
    let span = read_span(table)?;
    let kind = read_kind(table)?;
    let flags = read_flags(table, kind)?;
    table.only_keys()?;
    Ok(Region {
        name: Text::copied(table.alloc, name)?,
        span,
        kind,
        user_map: flags.user_map,
        write: flags.write,
        exec: flags.exec,
        may_fault: flags.may_fault,
        quiet: flags.quiet,
        marked: flags.marked,
    })
}
