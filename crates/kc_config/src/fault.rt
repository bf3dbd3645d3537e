//! Why a description is refused, this project's own.

ghost use Rattle.std.specs.Prelude.{◌≡◌, ◌⊎◌};
ghost use Rattle.kc_config.specs.Paths.{path};
ghost use Rattle.kc_config.specs.Faults.{no_memory};

use crate::path::{KeyPath, Place};
use kc_plain::NoMemory;
use std::alloc::{AllocError, AllocFailed, Global};

/// The first rule that a description breaks, with the path of the key at fault.
#[derive(Debug, Drop)]
pub enum ConfigFault {
    /// The text isn't UTF-8 or isn't a TOML document.
    Syntax,
    /// A key that isn't optional is absent, or the gate of a vector that needs one.
    Missing(KeyPath),
    /// The value is of another TOML type, or is a text where an address is meant and isn't one.
    WrongKind(KeyPath),
    /// The value isn't in its range, or breaks a rule between values.
    OutOfRange(KeyPath),
    /// A table has a key that isn't one of its own.
    UnknownKey(KeyPath),
    /// The image has no symbol of the name.
    NoSymbol(KeyPath),
    /// A region has no byte, or has a byte of an earlier one.
    Regions(KeyPath),
    /// No guard ends where the stack begins.
    GuardMissing(KeyPath),
    /// Memory ran out; nothing is said of the text.
    NoMemory,
}

impl From<NoMemory> for ConfigFault {
    ghost from_gives = { λ _ e. e ≡ no_memory };

    fn from(_error: NoMemory) -> ConfigFault {
        ConfigFault::NoMemory
    }
}

impl From<AllocError> for ConfigFault {
    ghost from_gives = { λ _ e. e ≡ no_memory };

    fn from(_error: AllocError) -> ConfigFault {
        ConfigFault::NoMemory
    }
}

impl<T: Drop> From<AllocFailed<T>> for ConfigFault {
    ghost from_gives = { λ _ e. e ≡ no_memory };

    fn from(_error: AllocFailed<T>) -> ConfigFault {
        ConfigFault::NoMemory
    }
}

/// The key is absent.
pub(crate) fn missing(alloc: Global, place: Place, key: &str) -> ConfigFault
    ensures { (result ≡ no_memory) ⊎ (result ≡ ConfigFault.Missing (path place key.now)) }
{
    match KeyPath::of_key(alloc, place, key) {
        Ok(path) => ConfigFault::Missing(path),
        Err(NoMemory) => ConfigFault::NoMemory,
    }
}

/// The key's value is of another type.
pub(crate) fn wrong_kind(alloc: Global, place: Place, key: &str) -> ConfigFault
    ensures { (result ≡ no_memory) ⊎ (result ≡ ConfigFault.WrongKind (path place key.now)) }
{
    match KeyPath::of_key(alloc, place, key) {
        Ok(path) => ConfigFault::WrongKind(path),
        Err(NoMemory) => ConfigFault::NoMemory,
    }
}

/// The key's value isn't in its range.
pub(crate) fn out_of_range(alloc: Global, place: Place, key: &str) -> ConfigFault
    ensures { (result ≡ no_memory) ⊎ (result ≡ ConfigFault.OutOfRange (path place key.now)) }
{
    match KeyPath::of_key(alloc, place, key) {
        Ok(path) => ConfigFault::OutOfRange(path),
        Err(NoMemory) => ConfigFault::NoMemory,
    }
}

/// The table has no such key.
pub(crate) fn unknown_key(alloc: Global, place: Place, key: &str) -> ConfigFault
    ensures { (result ≡ no_memory) ⊎ (result ≡ ConfigFault.UnknownKey (path place key.now)) }
{
    match KeyPath::of_key(alloc, place, key) {
        Ok(path) => ConfigFault::UnknownKey(path),
        Err(NoMemory) => ConfigFault::NoMemory,
    }
}

/// The key's value names no symbol.
pub(crate) fn no_symbol(alloc: Global, place: Place, key: &str) -> ConfigFault
    ensures { (result ≡ no_memory) ⊎ (result ≡ ConfigFault.NoSymbol (path place key.now)) }
{
    match KeyPath::of_key(alloc, place, key) {
        Ok(path) => ConfigFault::NoSymbol(path),
        Err(NoMemory) => ConfigFault::NoMemory,
    }
}
