//! C14 to C16: what a node demands for each event that may come there. An event without a permitted frame demands nothing.
//! This project's own.

ghost use Rattle.std.specs.Prelude.{◌≡◌, OnOk, IsSome};
ghost use Rattle.kc_find.specs.Rounds.{IsGrown, stood};
ghost use Rattle.kc_regions.specs.Lookup.{gate_of};
ghost use Rattle.kc_absevent.specs.Sets.{IsSetOf};
ghost use Rattle.kc_state.specs.AbsEvents.{HasStack, comes};

use crate::finder::FindEnd;
use crate::table::{Here, Table};
use kc_absevent::{EventSet, after_return, deliver_abs, events_at};
use kc_cert::entry_site;
use kc_placed::{PlacedNode, Vectors};
use kc_regions::Config;
use kc_state::{AbsState, Key, Scratch};

/// Demands the context of this key, and what is known at its entry: the context's number.
pub(crate) fn enter(
    cfg: &Config,
    table: &mut Table,
    key: &Key,
    state: &AbsState,
) -> Result<usize, FindEnd>
    ensures stood { OnOk result (stood table.new ≡ stood table.old) }
    ensures grown { OnOk result (IsGrown table.old table.new) }
{
    let context = table.want_context(key)?;
    if let Some(site) = entry_site(cfg, key) {
        table.want_node(context, &site, state)?;
    }
    Ok(context)
}

// Where the context returns, what is known after the event's return, and what the context may write.
fn want_return(
    cfg: &Config,
    table: &mut Table,
    here: &Here,
    p: &PlacedNode,
    context: usize,
    out: &mut Scratch,
) -> Result<(), FindEnd>
    requires stack { HasStack cfg.now p.now.key }
    ensures stood { OnOk result (stood table.new ≡ stood table.old) }
    ensures grown { OnOk result (IsGrown table.old table.new) }
{
    if let Some(summary) = table.summary(context) {
        after_return(cfg, p.key, &p.site, p.state, &summary, out);
        table.raise_node(here.node, &out.back)?;
        table.want_clobber(here.context, &summary.clobber)?;
    }
    Ok(())
}

fn want_event(
    cfg: &Config,
    table: &mut Table,
    here: &Here,
    p: &PlacedNode,
    vector: u8,
    out: &mut Scratch,
) -> Result<(), FindEnd>
    requires stack { HasStack cfg.now p.now.key }
    requires gate { IsSome (gate_of cfg.now.gates vector) }
    ensures stood { OnOk result (stood table.new ≡ stood table.old) }
    ensures grown { OnOk result (IsGrown table.old table.new) }
{
    let Ok(key) = deliver_abs(cfg, p.key, &p.site, p.state, &p.insn, vector, out) else {
        return Ok(());
    };
    let context = enter(cfg, table, &key, &out.out)?;
    table.note_entry(context, here.node)?;
    want_return(cfg, table, here, p, context, out)
}

// What the event of this vector demands, if it may come.
fn want_vector(
    cfg: &Config,
    table: &mut Table,
    here: &Here,
    p: &PlacedNode,
    events: &EventSet,
    vector: u8,
    out: &mut Scratch,
) -> Result<(), FindEnd>
    requires stack { HasStack cfg.now p.now.key }
    requires events { IsSetOf events.now.vectors (comes cfg.now p.now.key p.now.site p.now.state p.now.insn p.now.len) }
    ensures stood { OnOk result (stood table.new ≡ stood table.old) }
    ensures grown { OnOk result (IsGrown table.old table.new) }
{
    if events.has(vector) {
        want_event(cfg, table, here, p, vector, out)
    } else {
        Ok(())
    }
}

/// What the events at the node demand.
pub(crate) fn want_events(
    cfg: &Config,
    vectors: &Vectors,
    table: &mut Table,
    here: &Here,
    p: &PlacedNode,
    out: &mut Scratch,
) -> Result<(), FindEnd>
    requires stack { HasStack cfg.now p.now.key }
    ensures stood { OnOk result (stood table.new ≡ stood table.old) }
    ensures grown { OnOk result (IsGrown table.old table.new) }
{
    let events = events_at(cfg, p.key, &p.site, p.state, &p.insn, p.len);
    for vector in vectors.as_slice() {
        want_vector(cfg, table, here, p, &events, *vector, out)?;
    }
    Ok(())
}
