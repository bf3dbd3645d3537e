//! The tables `gate`.

ghost use Rattle.std.specs.Prelude.{◌≡◌, ◌≢◌, ◌<◌, ◌≤◌, ◌||◌, not, nat_le, true, IfOk, codes};
ghost use Rattle.kc_config.specs.Faults.{Reads};
ghost use Rattle.kc_config.specs.Keys.{number_in, or_default};
ghost use Rattle.kc_config.specs.Tables.{gate, is_vector, within};
ghost use Rattle.kc_config.specs.Seen.{seen};
ghost use Rattle.kc_regions.specs.Ranges.{IsGateInRange};

use crate::fault::ConfigFault;
use crate::keys::Reader;
use kc_regions::Gate;

/// The vector of a double fault, which has no gate here.
const DOUBLE_FAULT: u64 = 8;

#[tactic(auto, unfolding(crate::specs::Keys::number_in))]
fn read_vector(table: &Reader<'_>) -> Result<u8, ConfigFault>
    ensures read { Reads (λ n. n) result (number_in is_vector (seen table.now) (codes "vector")) }
    ensures in_range { IfOk result (λ n. (n < 256) × (n ≢ 8)) }
{
    let vector = table.number("vector")?;
    if vector <= 255 && vector != DOUBLE_FAULT {
        Ok(vector as u8)
    } else {
        Err(table.out_of_range("vector"))
    }
}

#[tactic(auto, unfolding(crate::specs::Keys::number_in))]
fn read_gate_ist(table: &Reader<'_>) -> Result<u8, ConfigFault>
    ensures read { Reads (λ n. n) result (number_in (within 0 7) (seen table.now) (codes "ist")) }
    ensures in_range { IfOk result (λ n. n ≤ 7) }
{
    let ist = table.number("ist")?;
    if ist <= 7 {
        Ok(ist as u8)
    } else {
        Err(table.out_of_range("ist"))
    }
}

/// The number of the gate's stack, 0 where there is none.
fn read_optional_ist(table: &Reader<'_>) -> Result<u8, ConfigFault>
    ensures read { Reads (λ n. n) result (or_default (seen table.now) (codes "ist") 0
        (number_in (within 0 7) (seen table.now) (codes "ist"))) }
    ensures in_range { IfOk result (λ n. n ≤ 7) }
{
    if table.has("ist") {
        read_gate_ist(table)
    } else {
        Ok(0)
    }
}

/// Whether user code may raise this vector, where the gate says so.
fn may_be_user(user: bool, vector: u8) -> bool
    ensures test { result ≡ (not user || nat_le 32 vector) }
    ensures from_32 { result ≡ true → user ≡ true → 32 ≤ vector }
{
    !user || 32 <= vector
}

/// A gate.
#[tactic(auto, unfolding(crate::specs::Tables::gate))]
pub(crate) fn read_gate(table: &Reader<'_>) -> Result<Gate, ConfigFault>
    ensures read { Reads (λ g. g) result (gate (seen table.now)) }
    ensures in_range { IfOk result IsGateInRange }
{
    let vector = read_vector(table)?;
    let entry = table.address("entry")?;
    let ist = read_optional_ist(table)?;
    let trap = table.flag("trap")?;
    let user = table.flag("user")?;
    table.in_range("user", may_be_user(user, vector))?;
    table.only_keys()?;
    Ok(Gate {
        vector,
        entry,
        ist,
        trap,
        user,
    })
}
