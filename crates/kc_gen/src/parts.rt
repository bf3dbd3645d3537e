//! Listings and texts that are joined from parts.

ghost use Rattle.std.specs.Prelude.{◌≡◌, IfOk};
ghost use Rattle.std.specs.List.{flat_map};

use crate::line::Line;
use kc_plain::NoMemory;
use std::alloc::Global;

/// The lines of these parts, one part after the other.
pub fn joined(alloc: Global, parts: &[&[Line]]) -> Result<Vec<Line>, NoMemory>
    ensures { IfOk result (λ v. v.items ≡ flat_map (λ p. p.now) parts.now) }
{
    let mut lines = Vec::new(alloc);
    for part in parts {
        lines.extend_from_slice(part)?;
    }
    Ok(lines)
}

/// The text of these parts, one part after the other.
pub fn joined_text(alloc: Global, parts: &[&str]) -> Result<Vec<u8>, NoMemory>
    ensures { IfOk result (λ v. v.items ≡ flat_map (λ p. p.now) parts.now) }
{
    let mut text = Vec::new(alloc);
    for part in parts {
        text.extend_from_slice(part.as_bytes())?;
    }
    Ok(text)
}
