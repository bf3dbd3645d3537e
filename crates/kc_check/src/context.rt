//! C4 to C17 at a context: those of its nodes in order, then that its summary covers what it may write and the latches
//! at its returns, and that the user state covers its returns to the user. This project's own.

ghost use Rattle.std.specs.Prelude.{◌≡◌, ◌&&◌, Some, slice_get};
ghost use Rattle.kc_state.specs.AbsEvents.{HasStack};
ghost use Rattle.kc_state.specs.Key.{IsKey};
ghost use Rattle.kc_cert.specs.Conditions.{is_home_counted, is_node_counted};
ghost use Rattle.kc_cert.specs.FirstRefusal.{context_refusal, each, node_refusal, of_nodes};
ghost use Rattle.kc_cert.specs.Table.{nodes_of};

use crate::counted::{are_nodes_counted, are_returns_covered};
use crate::node::check_node;
use crate::refused::{at_context, demand};
use crate::table::Table;
use kc_cert::{Context, Node, Refusal, nodes_of};
use kc_lattice::Domain;
use kc_placed::home_written;
use kc_regions::Config;
use kc_state::{Condition, Scratch};

// Whether the stack of the context's frame is in its clobber.
fn is_home_counted(cfg: &Config, context: &Context) -> bool
    requires stack { HasStack cfg.now context.now.key }
    ensures { result ≡ is_home_counted cfg.now context.now }
{
    home_written(cfg, &context.key).leq(&context.summary.clobber)
}

// C16: whether the context's summary covers the stack of its frame and what its nodes may write.
fn is_counted(table: &Table, context: &Context, nodes: &[Node]) -> bool
    requires stack { HasStack table.now.cfg.now context.now.key }
    requires key { IsKey table.now.cert.now.stacks context.now.key }
    ensures { result ≡ (is_home_counted table.now.cfg.now context.now
        && of_nodes table.now.image.now (is_node_counted table.now.cfg.now context.now.summary) context.now nodes.now) }
{
    is_home_counted(table.cfg, context) && are_nodes_counted(table, context, nodes)
}

// The conditions of the nodes of context `i` in their order.
fn check_nodes(
    table: &Table,
    i: u32,
    context: &Context,
    nodes: &[Node],
    out: &mut Scratch,
) -> Result<(), Refusal>
    requires here { slice_get table.now.cert.now.contexts i ≡ Some context.now }
    requires nodes { nodes.now ≡ nodes_of table.now.cert.now i }
    ensures { result ≡ each (node_refusal table.now.image.now table.now.cfg.now table.now.cert.now context.now) nodes.now }
{
    for node in nodes {
        check_node(table, context, node, out)?;
    }
    Ok(())
}

/// The conditions of the context of this number: at its nodes in order, then its own.
pub(crate) fn check_context(
    table: &Table,
    i: u32,
    context: &Context,
    out: &mut Scratch,
) -> Result<(), Refusal>
    requires here { slice_get table.now.cert.now.contexts i ≡ Some context.now }
    ensures { result ≡ context_refusal table.now.image.now table.now.cfg.now table.now.cert.now i context.now }
{
    let nodes = nodes_of(table.cert, i);
    check_nodes(table, i, context, nodes, out)?;
    let counted = is_counted(table, context, nodes);
    demand(counted, at_context(i, Condition::SUMMARY_COVERS))?;
    let covered = are_returns_covered(table, context, nodes);
    demand(covered, at_context(i, Condition::USER_STATE_COVERS))
}
