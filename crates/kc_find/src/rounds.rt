//! A round: what is listed demands, and then the table is joined with what was demanded.

ghost use Rattle.std.specs.Prelude.{◌≡◌, ◌<◌, ◌≤◌, ◌+◌, Ok, OnOk, IfOk, cond};
ghost use Rattle.kc_find.specs.Rounds.{AreSettled, IsGrown, count, room, stood, total_rank};
ghost use Rattle.kc_find.specs.declared.rounds.RoundEnd.TheVariants.{Grew, Rose};

use crate::finder::FindEnd;
use crate::table::Table;
use crate::users::want_entries;
use crate::visit::{Desk, Inputs, visit};
use kc_image::Image;
use kc_placed::{home_written, is_return, latches_after, place};
use kc_plain::NoMemory;
use kc_regions::Config;
use kc_rising::Numbers;
use kc_space::Latches;
use kc_transfer::has_stack;

/// What has changed since it demanded: all else demands what the table has.
#[derive(Drop)]
pub(crate) struct Listed {
    /// Whether what is known while the user runs has changed.
    pub user: bool,
    /// The contexts from this number on are new.
    pub contexts_from: usize,
    /// The nodes that are new or have changed, and those of which an event enters a context whose summary has changed.
    pub nodes: Numbers,
    /// The contexts whose summary changed in this round.
    pub summaries: Numbers,
}

/// How a round ended.
#[derive(Clone, Copy, PartialEq, Eq, Debug)]
pub(crate) enum RoundEnd {
    /// A context or a node came.
    Grew,
    /// None came, and something rose.
    Rose,
    /// Nothing changed.
    Same,
}

// C16: a context may write the stack of its frame.
fn want_home(cfg: &Config, table: &mut Table, context: usize) -> Result<(), FindEnd>
    ensures { OnOk result (table.new ≡ table.old) }
{
    if let Some(key) = table.contexts.key(context) {
        if has_stack(cfg, &key) {
            table.want_clobber(context, &home_written(cfg, &key))?;
        }
    }
    Ok(())
}

// What the user state demands, where it is listed.
fn want_user_entries(
    inputs: &Inputs,
    table: &mut Table,
    listed: &Listed,
    desk: &mut Desk,
) -> Result<(), FindEnd>
    ensures stood { OnOk result (stood table.new ≡ stood table.old) }
    ensures grown { OnOk result (IsGrown table.old table.new) }
{
    if !listed.user {
        return Ok(());
    }
    desk.user.copy_from(table.user.now());
    want_entries(
        inputs.cfg,
        &inputs.vectors,
        table,
        &desk.user,
        &mut desk.out,
    )
}

// What the contexts demand that came in the round before.
fn want_homes(cfg: &Config, table: &mut Table, listed: &Listed) -> Result<(), FindEnd>
    ensures { OnOk result (table.new ≡ table.old) }
{
    for context in listed.contexts_from..table.contexts.stood() {
        want_home(cfg, table, context)?;
    }
    Ok(())
}

// What the listed nodes demand.
fn visit_each(
    inputs: &Inputs,
    table: &mut Table,
    nodes: &[usize],
    desk: &mut Desk,
) -> Result<(), FindEnd>
    ensures stood { OnOk result (stood table.new ≡ stood table.old) }
    ensures grown { OnOk result (IsGrown table.old table.new) }
{
    for node in nodes {
        visit(inputs, table, *node, desk)?;
    }
    Ok(())
}

// All that is listed demands, read from the table as it stood when the round began.
fn want_listed(
    inputs: &Inputs,
    table: &mut Table,
    listed: &Listed,
    desk: &mut Desk,
) -> Result<(), FindEnd>
    ensures stood { OnOk result (stood table.new ≡ stood table.old) }
    ensures grown { OnOk result (IsGrown table.old table.new) }
{
    want_user_entries(inputs, table, listed, desk)?;
    want_homes(inputs.cfg, table, listed)?;
    visit_each(inputs, table, listed.nodes.as_slice(), desk)
}

// The latches after the node's return, if it is at one.
fn latches_at(image: &Image, table: &Table, node: usize) -> Option<(usize, Latches)> {
    let here = table.here(node)?;
    let state = table.nodes.now(node)?;
    let p = place(image, &here.key, here.site, state)?;
    if is_return(&p) {
        Some((here.context, latches_after(&p)))
    } else {
        None
    }
}

// C16: the latches at the returns among these nodes.
fn count_returns(
    image: &Image,
    table: &mut Table,
    nodes: &[usize],
    summaries: &mut Numbers,
) -> Result<(), NoMemory>
    ensures { OnOk result (table.new ≡ table.old) }
{
    for node in nodes {
        if let Some((context, latches)) = latches_at(image, table, *node) {
            if table.contexts.count_return(context, &latches) {
                summaries.add(context)?;
            }
        }
    }
    Ok(())
}

// Lists the nodes of which an event enters one of these contexts, where it returns.
fn list_entering(table: &Table, summaries: &[usize], nodes: &mut Numbers) -> Result<(), NoMemory> {
    for context in summaries {
        table.contexts.list_entering(*context, nodes)?;
    }
    Ok(())
}

// What was demanded holds from now on, and what has changed by it is listed: whether a value changed.
fn settle(image: &Image, table: &mut Table, listed: &mut Listed) -> Result<bool, NoMemory>
    ensures settled { OnOk result (AreSettled table.new) }
    ensures count { OnOk result (count table.new ≡ count table.old) }
    ensures rank { AreSettled table.old
        → IfOk result (λ rose. total_rank table.new + cond rose 1 0 ≤ total_rank table.old) }
{
    listed.contexts_from = table.contexts.stood();
    listed.nodes.clear();
    listed.summaries.clear();
    let states = table.nodes.settle(&mut listed.nodes)?;
    let clobbers = table.contexts.settle(&mut listed.summaries)?;
    count_returns(image, table, listed.nodes.as_slice(), &mut listed.summaries)?;
    list_entering(table, listed.summaries.as_slice(), &mut listed.nodes)?;
    listed.user = table.settle_user()?;
    Ok(states || clobbers || listed.user)
}

/// One round.
pub(crate) fn next_round(
    inputs: &Inputs,
    table: &mut Table,
    listed: &mut Listed,
    desk: &mut Desk,
) -> Result<RoundEnd, FindEnd>
    requires settled { AreSettled table.old }
    ensures settled { OnOk result (AreSettled table.new) }
    ensures grew { result ≡ Ok Grew → room table.new < room table.old }
    ensures same_room { OnOk result (room table.new ≤ room table.old) }
    ensures rose { result ≡ Ok Rose → total_rank table.new < total_rank table.old }
{
    let before = table.count();
    want_listed(inputs, table, listed, desk)?;
    let rose = settle(inputs.image, table, listed)?;
    if table.count() != before {
        Ok(RoundEnd::Grew)
    } else if rose {
        Ok(RoundEnd::Rose)
    } else {
        Ok(RoundEnd::Same)
    }
}
