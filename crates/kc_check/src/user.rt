//! C14 of the user state: each event while the user runs has a permitted frame and a context that covers it. This
//! project's own.

ghost use Rattle.std.specs.Prelude.{◌≡◌, IfSome, IsSome, cond};
ghost use Rattle.kc_absevent.specs.Sets.{IsSetOf};
ghost use Rattle.kc_regions.specs.Lookup.{gate_of};
ghost use Rattle.kc_state.specs.AbsEvents.{user_comes};
ghost use Rattle.kc_cert.specs.Conditions.{is_user_event_covered};
ghost use Rattle.kc_cert.specs.FirstRefusal.{each};
ghost use Rattle.kc_cert.specs.Placed.{user_vectors};
ghost use Rattle.kc_check.specs.User.{user_refusal, vector_refusal};

use crate::refused::{at_user, demand};
use crate::table::Table;
use kc_absevent::{EventSet, deliver_user, user_events};
use kc_cert::{Event, Refusal};
use kc_state::Scratch;

// Whether the event of this vector, or SYSCALL, enters a context that covers it.
fn is_entry_covered(table: &Table, entry: Option<u8>, out: &mut Scratch) -> bool
    requires gate { IfSome entry (λ v. IsSome (gate_of table.now.cfg.now.gates v)) }
    ensures { result ≡ is_user_event_covered table.now.cfg.now table.now.cert.now entry }
{
    match deliver_user(table.cfg, &table.cert.user, entry, out) {
        Ok(key) => table.entered(&key, &out.out).is_some(),
        Err(_) => false,
    }
}

// C14 of this vector, where its event may come.
fn check_vector(
    table: &Table,
    events: &EventSet,
    vector: u8,
    out: &mut Scratch,
) -> Result<(), Refusal>
    requires events { IsSetOf events.now.vectors (user_comes table.now.cfg.now table.now.cert.now.user) }
    ensures { result ≡ cond (user_comes table.now.cfg.now table.now.cert.now.user vector)
        (vector_refusal table.now.cfg.now table.now.cert.now vector) (Ok tt) }
{
    if !events.has(vector) {
        return Ok(());
    }
    let covered = is_entry_covered(table, Some(vector), out);
    demand(covered, at_user(Event::Vector(vector)))
}

fn check_vectors(table: &Table, out: &mut Scratch) -> Result<(), Refusal>
    ensures { result ≡ each (vector_refusal table.now.cfg.now table.now.cert.now)
        (user_vectors table.now.cfg.now table.now.cert.now.user) }
{
    let events = user_events(table.cfg, &table.cert.user);
    for vector in table.vectors.as_slice() {
        check_vector(table, &events, *vector, out)?;
    }
    Ok(())
}

/// C14 of the user state.
pub(crate) fn check_user(table: &Table, out: &mut Scratch) -> Result<(), Refusal>
    ensures { result ≡ user_refusal table.now.cfg.now table.now.cert.now }
{
    check_vectors(table, out)?;
    let covered = is_entry_covered(table, None, out);
    demand(covered, at_user(Event::Syscall))
}
