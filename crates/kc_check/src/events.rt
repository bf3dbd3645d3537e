//! C14 to C16 at a node: each event has a permitted frame and a context that covers it, the state after its return is
//! covered, and the summary covers what its context may write. This project's own.

ghost use Rattle.std.specs.Prelude.{◌≡◌, ℕ, ◌<◌, false, true, Some, None, IfErr, IfOk, IfSome, IsSome, IsTrue, is_some, length};
ghost use Rattle.kc_cert.specs.Conditions.{is_entry_covered, is_event_counted, is_event_covered, is_kept, is_return_covered, number_entered};
ghost use Rattle.kc_cert.specs.FirstRefusal.{at_event};
ghost use Rattle.kc_cert.specs.Placed.{entered_by};
ghost use Rattle.kc_check.specs.Events.{IsKept, entered_at, events_refusal, failed_refusal, first_failed};
ghost use Rattle.kc_frames.specs.Clobber.{clobber_below};
ghost use Rattle.kc_regions.specs.Lookup.{gate_of};
ghost use Rattle.kc_state.specs.AbsEvents.{HasStack};

use crate::refused::at_event;
use crate::table::Table;
use kc_absevent::{Interruption, events_at, is_state_kept};
use kc_cert::{Context, Node, Refusal};
use kc_frames::Clobber;
use kc_lattice::Domain;
use kc_placed::PlacedNode;
use kc_state::{Condition, Summary};

/// The context that an event enters, where its frame is permitted and the context covers it.
fn enter(table: &Table, interruption: &Interruption, vector: u8) -> Option<u32>
    requires gate { IsSome (gate_of interruption.now.cfg.now.gates vector) }
    ensures covered { is_some result
        ≡ is_entry_covered table.now.cfg.now table.now.cert.now (entered_at interruption.now vector) }
    ensures entered { IfSome result (λ i. number_entered table.now.cert.now (entered_at interruption.now vector) ≡ Some i) }
    ensures within { IfSome result (λ i. i < length table.now.cert.now.contexts) }
{
    match interruption.deliver(vector) {
        Some(entry) => table.admit(&entry),
        None => None,
    }
}

// Whether the state after the return covers nothing new.
fn is_kept(table: &Table, p: &PlacedNode, summary: &Summary) -> bool
    requires stack { HasStack table.now.cfg.now p.now.key }
    ensures { result ≡ is_kept table.now.cfg.now p.now (Some summary.now) }
{
    is_state_kept(table.cfg, p.key, p.state, summary)
}

/// What was found of the events that were asked: the first ones that fail C15 and C16, and the last summary with which
/// the state after the return covers nothing new. Contexts of many vectors have the same one.
#[derive(Clone, Copy)]
struct Asked {
    kept: Option<u8>,
    counted: Option<u8>,
    last: Option<Summary>,
}

fn is_last(last: Option<Summary>, summary: &Summary) -> bool
    ensures { IsTrue result → last ≡ Some summary.now }
{
    match last {
        Some(before) => before == *summary,
        None => false,
    }
}

// C15 of event `vector`, whose context has this summary, where no event has failed it.
fn ask_first(table: &Table, p: &PlacedNode, summary: &Summary, vector: u8, asked: Asked) -> Asked
    requires stack { HasStack table.now.cfg.now p.now.key }
    requires last { IfSome asked.last (IsKept table.now.cfg.now p.now) }
    requires none { asked.kept ≡ None }
    ensures kept { result.kept ≡ first_failed None (is_kept table.now.cfg.now p.now (Some summary.now)) vector }
    ensures counted { result.counted ≡ asked.counted }
    ensures last { IfSome result.last (IsKept table.now.cfg.now p.now) }
{
    if is_last(asked.last, summary) {
        return asked;
    }
    if is_kept(table, p, summary) {
        Asked {
            kept: None,
            counted: asked.counted,
            last: Some(*summary),
        }
    } else {
        Asked {
            kept: Some(vector),
            counted: asked.counted,
            last: asked.last,
        }
    }
}

// C15 of event `vector`, whose context has this summary.
fn ask_kept(table: &Table, p: &PlacedNode, summary: &Summary, vector: u8, asked: Asked) -> Asked
    requires stack { HasStack table.now.cfg.now p.now.key }
    requires last { IfSome asked.last (IsKept table.now.cfg.now p.now) }
    ensures kept { result.kept ≡ first_failed asked.kept (is_kept table.now.cfg.now p.now (Some summary.now)) vector }
    ensures counted { result.counted ≡ asked.counted }
    ensures last { IfSome result.last (IsKept table.now.cfg.now p.now) }
{
    match asked.kept {
        Some(_) => asked,
        None => ask_first(table, p, summary, vector, asked),
    }
}

// The first event that fails C16, after `vector` is asked, whose context has this summary.
fn counted_after(
    clobber: &Clobber,
    summary: &Summary,
    vector: u8,
    counted: Option<u8>,
) -> Option<u8>
    ensures { result ≡ first_failed counted (clobber_below summary.now.clobber clobber.now) vector }
{
    match counted {
        Some(first) => Some(first),
        None => {
            if summary.clobber.leq(clobber) {
                None
            } else {
                Some(vector)
            }
        }
    }
}

// C15 and C16 of event `vector`, which enters context `i`.
fn ask_return(
    table: &Table,
    clobber: &Clobber,
    p: &PlacedNode,
    vector: u8,
    i: u32,
    asked: Asked,
) -> Asked
    requires stack { HasStack table.now.cfg.now p.now.key }
    requires entered { number_entered table.now.cert.now (entered_by table.now.cfg.now p.now vector) ≡ Some i }
    requires within { i < length table.now.cert.now.contexts }
    requires last { IfSome asked.last (IsKept table.now.cfg.now p.now) }
    ensures kept { result.kept ≡ first_failed asked.kept
        (is_return_covered table.now.image.now table.now.cfg.now table.now.cert.now p.now vector) vector }
    ensures counted { result.counted ≡ first_failed asked.counted
        (is_event_counted table.now.image.now table.now.cfg.now table.now.cert.now clobber.now p.now vector) vector }
    ensures last { IfSome result.last (IsKept table.now.cfg.now p.now) }
{
    match table.summary_of(i) {
        Some(summary) => {
            let counted = counted_after(clobber, summary, vector, asked.counted);
            let next = ask_kept(table, p, summary, vector, asked);
            Asked {
                kept: next.kept,
                counted,
                last: next.last,
            }
        }
        None => asked,
    }
}

// C14 of event `vector`, and what is found of it.
fn ask_event(
    table: &Table,
    context: &Context,
    node: &Node,
    p: &PlacedNode,
    interruption: &Interruption,
    vector: u8,
    asked: Asked,
) -> Result<Asked, Refusal>
    requires stack { HasStack table.now.cfg.now p.now.key }
    requires here { (v : ℕ) → entered_at interruption.now v ≡ entered_by table.now.cfg.now p.now v }
    requires gate { IsSome (gate_of interruption.now.cfg.now.gates vector) }
    requires last { IfSome asked.last (IsKept table.now.cfg.now p.now) }
    ensures covered { IfOk result (λ _. is_event_covered table.now.cfg.now table.now.cert.now p.now vector ≡ true) }
    ensures kept { IfOk result (λ next. next.kept ≡ first_failed asked.kept
        (is_return_covered table.now.image.now table.now.cfg.now table.now.cert.now p.now vector) vector) }
    ensures counted { IfOk result (λ next. next.counted ≡ first_failed asked.counted
        (is_event_counted table.now.image.now table.now.cfg.now table.now.cert.now context.now.summary.clobber p.now
        vector) vector) }
    ensures last { IfOk result (λ next. IfSome next.last (IsKept table.now.cfg.now p.now)) }
    ensures uncovered { IfErr result
        (λ _. is_event_covered table.now.cfg.now table.now.cert.now p.now vector ≡ false) }
    ensures refused { IfErr result (λ r. r ≡ at_event node.now 14 vector) }
{
    match enter(table, interruption, vector) {
        Some(i) => Ok(ask_return(table, &context.summary.clobber, p, vector, i, asked)),
        None => Err(at_event(node, Condition::EVENT_COVERED, vector)),
    }
}

fn answer(node: &Node, asked: Asked) -> Result<(), Refusal>
    ensures { result ≡ failed_refusal node.now asked.kept asked.counted }
{
    match (asked.kept, asked.counted) {
        (Some(v), _) => Err(at_event(node, Condition::AFTER_RETURN_COVERED, v)),
        (None, Some(v)) => Err(at_event(node, Condition::SUMMARY_COVERS, v)),
        (None, None) => Ok(()),
    }
}

/// C14 to C16 at the node, in one pass over the events.
pub(crate) fn check_events(
    table: &Table,
    context: &Context,
    node: &Node,
    p: &PlacedNode,
) -> Result<(), Refusal>
    requires stack { HasStack table.now.cfg.now p.now.key }
    ensures { result ≡ events_refusal table.now.image.now table.now.cfg.now table.now.cert.now context.now node.now p.now }
{
    let events = events_at(table.cfg, p.key, &p.site, p.state, &p.insn, p.len);
    let interruption = Interruption::of(table.cfg, p.key, &p.site, p.state, &p.insn);
    let mut asked = Asked {
        kept: None,
        counted: None,
        last: None,
    };
    for vector in table.vectors.as_slice() {
        if events.has(*vector) {
            asked = ask_event(table, context, node, p, &interruption, *vector, asked)?;
        }
    }
    answer(node, asked)
}
