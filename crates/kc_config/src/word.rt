//! The tables `word`.

ghost use Rattle.std.specs.Prelude.{◌≡◌, ◌<◌, ◌^◌, ◌%◌, IfOk, codes};
ghost use Rattle.kc_config.specs.Faults.{Reads};
ghost use Rattle.kc_config.specs.Keys.{address_in};
ghost use Rattle.kc_config.specs.Tables.{tracked_word, multiple_of_8};
ghost use Rattle.kc_config.specs.Seen.{seen};
ghost use Rattle.kc_regions.specs.Ranges.{IsWordInRange};

use crate::fault::ConfigFault;
use crate::keys::Reader;
use kc_regions::Word;

#[tactic(auto, unfolding(crate::specs::Keys::address_in))]
fn read_at(table: &Reader<'_>) -> Result<u64, ConfigFault>
    ensures read { Reads (λ a. a) result (address_in multiple_of_8 (seen table.now) (codes "at")) }
    ensures in_range { IfOk result (λ a. (a < 2 ^ 64) × (a % 8 ≡ 0)) }
{
    let at = table.address("at")?;
    if at % 8 == 0 {
        Ok(at)
    } else {
        Err(table.out_of_range("at"))
    }
}

/// A tracked word.
#[tactic(auto, unfolding(crate::specs::Tables::tracked_word))]
pub(crate) fn read_word(table: &Reader<'_>) -> Result<Word, ConfigFault>
    ensures read { Reads (λ w. w) result (tracked_word (seen table.now)) }
    ensures in_range { IfOk result IsWordInRange }
{
    let at = read_at(table)?;
    let value = table.address("value")?;
    table.only_keys()?;
    Ok(Word { at, value })
}
