//! C13: each successor is covered. This project's own.

ghost use Rattle.std.specs.Prelude.{◌≡◌};
ghost use Rattle.kc_cert.specs.Conditions.{are_covered};
ghost use Rattle.kc_cert.specs.Placed.{before_insn, sites_after};
ghost use Rattle.kc_cert.specs.Table.{covers};

use crate::table::Table;
use kc_placed::PlacedNode;
use kc_state::{AbsState, Site, Succ};

fn covers_insn(table: &Table, i: u32, at: u64, state: &AbsState) -> bool
    ensures { result ≡ covers table.now.cert.now i (before_insn at) state.now }
{
    table.covers(i, &Site { at, inside: false }, state)
}

/// C13: context `i` covers the state at each successor.
pub(crate) fn are_covered(
    table: &Table,
    i: u32,
    p: &PlacedNode,
    succ: Succ,
    state: &AbsState,
) -> bool
    ensures { result ≡ are_covered table.now.cert.now i (record { sites = sites_after p.now succ; state = state.now }) }
{
    match succ {
        Succ::Falls => covers_insn(table, i, p.next(), state),
        Succ::Jumps(target) => covers_insn(table, i, target, state),
        Succ::Branches(target) => {
            covers_insn(table, i, p.next(), state) && covers_insn(table, i, target, state)
        }
        Succ::Calls(_) => {
            let body = Site {
                at: p.site.at,
                inside: true,
            };
            table.covers(i, &body, state)
        }
        Succ::Returns => true,
    }
}
