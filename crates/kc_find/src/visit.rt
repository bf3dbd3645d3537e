//! What a node demands, where none of C4 to C12 fails there: C13, C14 to C16 for its events, C16 for its writes, and C17. This
//! project's own.

ghost use Rattle.std.specs.Prelude.{◌≡◌, OnOk};
ghost use Rattle.kc_find.specs.Rounds.{IsGrown, stood};
ghost use Rattle.kc_state.specs.AbsEvents.{HasStack};

use crate::events::want_events;
use crate::finder::FindEnd;
use crate::table::{Here, Table};
use kc_image::Image;
use kc_placed::{
    PlacedNode, Vectors, go_on, is_exact_at, is_return, is_text, place, put_user_after, written_by,
};
use kc_regions::Config;
use kc_state::{AbsState, Scratch, Site, Succ, UserState};
use kc_transfer::has_stack;

/// What is read by each visit.
#[derive(Drop)]
pub(crate) struct Inputs<'a> {
    pub image: &'a Image,
    pub cfg: &'a Config,
    pub vectors: Vectors,
}

/// Room for what is made in a visit.
#[derive(Drop)]
pub(crate) struct Desk {
    /// What is known at the node that is visited.
    pub state: AbsState,
    pub out: Scratch,
    /// What is known while the user runs.
    pub user: UserState,
}

fn want_insn(table: &mut Table, here: &Here, at: u64, state: &AbsState) -> Result<(), FindEnd>
    ensures stood { OnOk result (stood table.new ≡ stood table.old) }
    ensures grown { OnOk result (IsGrown table.old table.new) }
{
    table.want_node(here.context, &Site { at, inside: false }, state)
}

fn want_successors(
    table: &mut Table,
    here: &Here,
    p: &PlacedNode,
    succ: Succ,
    state: &AbsState,
) -> Result<(), FindEnd>
    ensures stood { OnOk result (stood table.new ≡ stood table.old) }
    ensures grown { OnOk result (IsGrown table.old table.new) }
{
    match succ {
        Succ::Falls => want_insn(table, here, p.next(), state),
        Succ::Jumps(target) => want_insn(table, here, target, state),
        Succ::Branches(target) => {
            want_insn(table, here, p.next(), state)?;
            want_insn(table, here, target, state)
        }
        Succ::Calls(_) => {
            let body = Site {
                at: p.site.at,
                inside: true,
            };
            table.want_node(here.context, &body, state)
        }
        Succ::Returns => Ok(()),
    }
}

// C17: what is known while the user runs after a return to it.
fn want_user_after(table: &mut Table, p: &PlacedNode, user: &mut UserState) -> Result<(), FindEnd>
    ensures stood { OnOk result (stood table.new ≡ stood table.old) }
    ensures grown { OnOk result (IsGrown table.old table.new) }
{
    if is_return(p) && !p.key.kernel {
        put_user_after(p, user);
        table.want_user(user)?;
    }
    Ok(())
}

fn want_placed(
    inputs: &Inputs,
    table: &mut Table,
    here: &Here,
    p: &PlacedNode,
    out: &mut Scratch,
    user: &mut UserState,
) -> Result<(), FindEnd>
    requires stack { HasStack inputs.now.cfg.now p.now.key }
    ensures stood { OnOk result (stood table.new ≡ stood table.old) }
    ensures grown { OnOk result (IsGrown table.old table.new) }
{
    let cfg = inputs.cfg;
    let Ok(succ) = go_on(cfg, p, out) else {
        return Ok(());
    };
    want_successors(table, here, p, succ, &out.out)?;
    want_events(cfg, &inputs.vectors, table, here, p, out)?;
    table.want_clobber(here.context, &written_by(cfg, p))?;
    want_user_after(table, p, user)
}

fn want_at(
    inputs: &Inputs,
    table: &mut Table,
    here: &Here,
    state: &AbsState,
    out: &mut Scratch,
    user: &mut UserState,
) -> Result<(), FindEnd>
    ensures stood { OnOk result (stood table.new ≡ stood table.old) }
    ensures grown { OnOk result (IsGrown table.old table.new) }
{
    let cfg = inputs.cfg;
    if !has_stack(cfg, &here.key) || !is_exact_at(cfg, &here.key, &here.site, state) {
        return Ok(());
    }
    let Some(p) = place(inputs.image, &here.key, here.site, state) else {
        return Ok(());
    };
    if is_text(cfg, &p) {
        want_placed(inputs, table, here, &p, out, user)
    } else {
        Ok(())
    }
}

/// Demands what the node of this number demands, as it stood when the round began.
pub(crate) fn visit(
    inputs: &Inputs,
    table: &mut Table,
    node: usize,
    desk: &mut Desk,
) -> Result<(), FindEnd>
    ensures stood { OnOk result (stood table.new ≡ stood table.old) }
    ensures grown { OnOk result (IsGrown table.old table.new) }
{
    let Some(here) = table.here(node) else {
        return Ok(());
    };
    let Some(state) = table.nodes.now(node) else {
        return Ok(());
    };
    desk.state.copy_from(state);
    want_at(
        inputs,
        table,
        &here,
        &desk.state,
        &mut desk.out,
        &mut desk.user,
    )
}
