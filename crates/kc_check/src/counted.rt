//! C16 and C17 at the nodes of a context: its summary covers their writes and the latches at its returns, and the user
//! state covers its returns to the user. This project's own.

ghost use Rattle.std.specs.Prelude.{◌≡◌};
ghost use Rattle.kc_cert.specs.Code.{insn_at};
ghost use Rattle.kc_cert.specs.Conditions.{is_node_counted, is_user_covered};
ghost use Rattle.kc_cert.specs.FirstRefusal.{of_insn, of_nodes};
ghost use Rattle.kc_state.specs.AbsEvents.{HasStack};
ghost use Rattle.kc_state.specs.Key.{IsKey};

use crate::placed::place;
use crate::table::Table;
use kc_cert::{Certificate, Context, Node};
use kc_lattice::Domain;
use kc_placed::{PlacedNode, is_return, is_user_after_covered, latches_after, written_by};
use kc_regions::Config;
use kc_state::Summary;

fn is_node_counted(cfg: &Config, summary: &Summary, p: &PlacedNode) -> bool
    requires stack { HasStack cfg.now p.now.key }
    ensures { result ≡ is_node_counted cfg.now summary.now p.now }
{
    written_by(cfg, p).leq(&summary.clobber)
        && (!is_return(p) || latches_after(p).leq(&summary.latches))
}

fn is_user_covered(cert: &Certificate, p: &PlacedNode) -> bool
    ensures { result ≡ is_user_covered cert.now p.now }
{
    p.key.kernel || !is_return(p) || is_user_after_covered(p, &cert.user)
}

// C16 at a node, where there is an instruction.
fn is_counted_at(table: &Table, context: &Context, node: &Node) -> bool
    requires key { IsKey table.now.cert.now.stacks context.now.key }
    ensures { result ≡ of_insn (is_node_counted table.now.cfg.now context.now.summary) context.now node.now
        (insn_at table.now.image.now node.now.site.at) }
{
    match place(table.image, context, node) {
        Some(p) => is_node_counted(table.cfg, &context.summary, &p),
        None => true,
    }
}

// C17 at a node, where there is an instruction: a context that interrupts the kernel doesn't return to the user.
#[tactic(auto, using(crate::proofs::CountedLemmas::kernel_covered))]
fn is_covered_at(table: &Table, context: &Context, node: &Node) -> bool
    ensures { result ≡ of_insn (is_user_covered table.now.cert.now) context.now node.now
        (insn_at table.now.image.now node.now.site.at) }
{
    if context.key.kernel {
        return true;
    }
    match place(table.image, context, node) {
        Some(p) => is_user_covered(table.cert, &p),
        None => true,
    }
}

/// C16: the context's summary covers what its nodes may write, and the latches at its returns.
pub(crate) fn are_nodes_counted(table: &Table, context: &Context, nodes: &[Node]) -> bool
    requires key { IsKey table.now.cert.now.stacks context.now.key }
    ensures { result ≡ of_nodes table.now.image.now (is_node_counted table.now.cfg.now context.now.summary) context.now
        nodes.now }
{
    for node in nodes {
        if !is_counted_at(table, context, node) {
            return false;
        }
    }
    true
}

/// C17: the user state covers what is known after the context's returns to the user.
pub(crate) fn are_returns_covered(table: &Table, context: &Context, nodes: &[Node]) -> bool
    ensures { result ≡ of_nodes table.now.image.now (is_user_covered table.now.cert.now) context.now nodes.now }
{
    for node in nodes {
        if !is_covered_at(table, context, node) {
            return false;
        }
    }
    true
}
