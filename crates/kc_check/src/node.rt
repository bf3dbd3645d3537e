//! The conditions at a node, in their order.

ghost use Rattle.std.specs.Prelude.{◌≡◌, Some, slice_get};
ghost use Rattle.kc_cert.specs.FirstRefusal.{node_refusal, placed_refusal};
ghost use Rattle.kc_state.specs.AbsEvents.{HasStack};

use crate::events::check_events;
use crate::placed::place;
use crate::refused::{at_node, demand};
use crate::successors::are_covered;
use crate::table::Table;
use kc_cert::{Context, Node, Refusal};
use kc_placed::{PlacedNode, go_on, is_exact_at, is_text};
use kc_state::{Condition, Scratch};

fn check_placed(
    table: &Table,
    context: &Context,
    node: &Node,
    p: &PlacedNode,
    out: &mut Scratch,
) -> Result<(), Refusal>
    requires stack { HasStack table.now.cfg.now p.now.key }
    ensures { result ≡ placed_refusal table.now.image.now table.now.cfg.now table.now.cert.now context.now node.now p.now }
{
    demand(
        is_text(table.cfg, p),
        at_node(node, Condition::EXECUTABLE_TEXT),
    )?;
    let succ = match go_on(table.cfg, p, out) {
        Ok(succ) => succ,
        Err(condition) => return Err(at_node(node, condition)),
    };
    let covered = are_covered(table, node.context, p, succ, &out.out);
    demand(covered, at_node(node, Condition::SUCCESSOR_COVERED))?;
    check_events(table, context, node, p)
}

pub(crate) fn check_node(
    table: &Table,
    context: &Context,
    node: &Node,
    out: &mut Scratch,
) -> Result<(), Refusal>
    requires named { slice_get table.now.cert.now.contexts node.now.context ≡ Some context.now }
    ensures refusal { result ≡ node_refusal table.now.image.now table.now.cfg.now table.now.cert.now context.now node.now }
{
    let exact = is_exact_at(table.cfg, &context.key, &node.site, &node.state);
    demand(exact, at_node(node, Condition::EXACT_SPACES))?;
    match place(table.image, context, node) {
        Some(p) => check_placed(table, context, node, &p, out),
        None => Err(at_node(node, Condition::EXECUTABLE_TEXT)),
    }
}
