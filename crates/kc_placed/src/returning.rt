//! Returns, and the latches after them. This project's own.

ghost use Rattle.std.specs.Prelude.{◌≡◌};
ghost use Rattle.kc_cert.specs.Placed.{is_return, is_return_insn, latches_after};

use crate::placed::PlacedNode;
use kc_insn::Insn;
use kc_space::{Latches, Tri};

/// Whether the instruction is an IRETQ or a SYSRETQ.
pub fn is_return_insn(insn: &Insn) -> bool
    ensures value { result ≡ is_return_insn insn.now }
{
    match *insn {
        Insn::Iretq | Insn::Sysretq => true,
        _ => false,
    }
}

/// Whether the node is a return; the body of a handler isn't.
pub fn is_return(p: &PlacedNode) -> bool
    ensures value { result ≡ is_return p.now }
{
    !p.site.inside && is_return_insn(&p.insn)
}

/// The latches after a return: the gap after an STI is over, and IRETQ opens NMIs.
pub fn latches_after(p: &PlacedNode) -> Latches
    ensures value { result ≡ latches_after p.now }
{
    let latches = p.state.latches;
    Latches {
        nmi_blocked: match p.insn {
            Insn::Iretq => Tri::No,
            _ => latches.nmi_blocked,
        },
        shadow: Tri::No,
        mcip: latches.mcip,
    }
}
