//! C6 to C12: the conditions on an instruction, and where the program goes on from it. This project's own.

ghost use Rattle.kc_placed.specs.Goes.{GoesOn};
ghost use Rattle.kc_state.specs.AbsEvents.{HasStack};

use crate::placed::PlacedNode;
use kc_regions::Config;
use kc_state::{Condition, Scratch, Succ};
use kc_transfer::{leave_abs, transfer};

/// Where the program goes on, with what is known there in `out.out`: after an instruction, or after the end of a
/// handler, which goes on as an instruction does that falls through, or doesn't. Else the first of C6 to C12 that
/// fails.
pub fn go_on(cfg: &Config, p: &PlacedNode, out: &mut Scratch) -> Result<Succ, Condition>
    requires stack { HasStack cfg.now p.now.key }
    ensures goes { GoesOn cfg.now p.now result out.new.out }
{
    if p.site.inside {
        let leaves = leave_abs(cfg, p.key, p.state, &p.insn, out);
        Ok(if leaves { Succ::Falls } else { Succ::Returns })
    } else {
        transfer(cfg, p.key, p.state, &p.insn, p.len, p.site.at, out)
    }
}
