//! The lines that a replay writes.

ghost use Rattle.std.specs.Prelude.{◌≡◌, IfOk, string_bytes};
ghost use Rattle.kc_replay.specs.Told.{not_allowed_line, stopped_line, break_line, turns_line};

use kc_plain::NoMemory;
use std::alloc::Global;

/// The turn of this number may not come.
pub(crate) fn not_allowed_line(alloc: Global, turn: u32) -> Result<String, NoMemory>
    ensures { IfOk result (λ s. string_bytes s ≡ not_allowed_line turn) }
{
    Ok(format!(in alloc; "turn {turn} not allowed\n")?)
}

/// The machine stops at the turn of this number.
pub(crate) fn stopped_line(alloc: Global, turn: u32) -> Result<String, NoMemory>
    ensures { IfOk result (λ s. string_bytes s ≡ stopped_line turn) }
{
    Ok(format!(in alloc; "turn {turn} stopped\n")?)
}

/// The turn of this number breaks so.
pub(crate) fn break_line(alloc: Global, turn: u32, number: u8) -> Result<String, NoMemory>
    ensures { IfOk result (λ s. string_bytes s ≡ break_line turn number) }
{
    Ok(format!(in alloc; "turn {turn} break B{number}\n")?)
}

/// So many turns were tried.
pub(crate) fn turns_line(alloc: Global, count: u32) -> Result<String, NoMemory>
    ensures { IfOk result (λ s. string_bytes s ≡ turns_line count) }
{
    Ok(format!(in alloc; "turns {count}\n")?)
}
