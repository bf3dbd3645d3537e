//! Where a key lies in a description.

ghost use Rattle.std.specs.Prelude.{◌≡◌, IfOk};
ghost use Rattle.kc_config.specs.Paths.{path, region_path, gate_path};

use kc_plain::{NoMemory, Text};
use std::alloc::Global;
use std::marker::Model;

/// A table of a description. An index counts the tables of its array from 0.
#[derive(Clone, Copy, PartialEq, Eq, Debug)]
pub(crate) enum Place {
    AtTop,
    InCpu,
    InRegion(usize),
    InGate(usize),
    InHandler(usize),
    InWord(usize),
}

/// The path of a key: the names and the index that lead to it, with dots between them, as in
/// `version`, `cpu.idt` and `region.3.at`. A key that isn't known stands in it as its own text.
///
/// Contracts see the bytes of the text.
#[derive(Debug, Drop)]
pub struct KeyPath {
    text: Text,
}

impl Model for KeyPath {
    ghost use Rattle.std.specs.Prelude.{List, ℕ};

    ghost Value = { List ℕ };

    ghost view = { λ p. p.text };
}

impl KeyPath {
    /// The text.
    pub fn text(&self) -> &str
        ensures text { result.now ≡ self.now }
    {
        self.text.as_str()
    }

    /// The path of a table's key.
    pub(crate) fn of_key(alloc: Global, place: Place, key: &str) -> Result<KeyPath, NoMemory>
        ensures { IfOk result (λ p. p ≡ path place key.now) }
    {
        let text = match place {
            Place::AtTop => String::from_str(alloc, key)?,
            Place::InCpu => format!(in alloc; "cpu.{key}")?,
            Place::InRegion(i) => format!(in alloc; "region.{i}.{key}")?,
            Place::InGate(i) => format!(in alloc; "gate.{i}.{key}")?,
            Place::InHandler(i) => format!(in alloc; "handler.{i}.{key}")?,
            Place::InWord(i) => format!(in alloc; "word.{i}.{key}")?,
        };
        Ok(KeyPath {
            text: Text::from_string(text),
        })
    }

    /// The path of a region.
    pub(crate) fn of_region(alloc: Global, i: usize) -> Result<KeyPath, NoMemory>
        ensures { IfOk result (λ p. p ≡ region_path i) }
    {
        let text = format!(in alloc; "region.{i}")?;
        Ok(KeyPath {
            text: Text::from_string(text),
        })
    }

    /// The path of a vector's gate.
    pub(crate) fn of_gate(alloc: Global, vector: usize) -> Result<KeyPath, NoMemory>
        ensures { IfOk result (λ p. p ≡ gate_path vector) }
    {
        let text = format!(in alloc; "gate.{vector}")?;
        Ok(KeyPath {
            text: Text::from_string(text),
        })
    }
}
