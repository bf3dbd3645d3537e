//! C14 while the user runs: each event that may come, and SYSCALL, demands its context and what is known at its entry. This
//! project's own.

ghost use Rattle.std.specs.Prelude.{◌≡◌, OnOk, IfSome, IsSome};
ghost use Rattle.kc_find.specs.Rounds.{IsGrown, stood};
ghost use Rattle.kc_absevent.specs.Sets.{IsSetOf};
ghost use Rattle.kc_regions.specs.Lookup.{gate_of};
ghost use Rattle.kc_state.specs.AbsEvents.{user_comes};

use crate::events::enter;
use crate::finder::FindEnd;
use crate::table::Table;
use kc_absevent::{EventSet, deliver_user, user_events};
use kc_placed::Vectors;
use kc_regions::Config;
use kc_state::{Scratch, UserState};

fn want_entry(
    cfg: &Config,
    table: &mut Table,
    user: &UserState,
    entry: Option<u8>,
    out: &mut Scratch,
) -> Result<(), FindEnd>
    requires gate { IfSome entry (λ v. IsSome (gate_of cfg.now.gates v)) }
    ensures stood { OnOk result (stood table.new ≡ stood table.old) }
    ensures grown { OnOk result (IsGrown table.old table.new) }
{
    if let Ok(key) = deliver_user(cfg, user, entry, out) {
        enter(cfg, table, &key, &out.out)?;
    }
    Ok(())
}

// What the event of this vector demands, if it may come.
fn want_vector(
    cfg: &Config,
    table: &mut Table,
    user: &UserState,
    events: &EventSet,
    vector: u8,
    out: &mut Scratch,
) -> Result<(), FindEnd>
    requires events { IsSetOf events.now.vectors (user_comes cfg.now user.now) }
    ensures stood { OnOk result (stood table.new ≡ stood table.old) }
    ensures grown { OnOk result (IsGrown table.old table.new) }
{
    if events.has(vector) {
        want_entry(cfg, table, user, Some(vector), out)
    } else {
        Ok(())
    }
}

/// What events demand where this is known while the user runs.
pub(crate) fn want_entries(
    cfg: &Config,
    vectors: &Vectors,
    table: &mut Table,
    user: &UserState,
    out: &mut Scratch,
) -> Result<(), FindEnd>
    ensures stood { OnOk result (stood table.new ≡ stood table.old) }
    ensures grown { OnOk result (IsGrown table.old table.new) }
{
    let events = user_events(cfg, user);
    for vector in vectors.as_slice() {
        want_vector(cfg, table, user, &events, *vector, out)?;
    }
    want_entry(cfg, table, user, None, out)
}
