//! Which events may come while the user runs.

ghost use Rattle.std.specs.Prelude.{◌≡◌};
ghost use Rattle.kc_state.specs.AbsEvents.{may_be_clear, comes_from_user, user_comes};
ghost use Rattle.kc_absevent.specs.Covers.{CoversUserEvents};
ghost use Rattle.kc_absevent.specs.Sets.{has_vector, IsSetOf};

use crate::event_set::EventSet;
use kc_regions::{Config, Gate};
use kc_space::Tri;
use kc_state::UserState;

// The vectors of NMIs and machine checks.
pub(crate) const NMI: u8 = 2;

pub(crate) const MACHINE_CHECK: u8 = 18;

// Whether the latch may be clear.
pub(crate) fn may_be_clear(latch: Tri) -> bool
    ensures { result ≡ may_be_clear latch }
{
    latch != Tri::Yes
}

fn comes_from_user(user: &UserState, gate: &Gate) -> bool
    ensures { result ≡ comes_from_user user.now gate.now }
{
    if gate.vector == NMI {
        may_be_clear(user.nmi_blocked)
    } else if gate.vector == MACHINE_CHECK {
        may_be_clear(user.mcip)
    } else {
        true
    }
}

/// The vectors of the events that may come while the user runs: those of all gates, but for an NMI or a
/// machine check whose latch is set. SYSCALL, which has no vector, always may. It takes no memory.
#[tactic(auto, using(crate::proofs::GateLemmas::walked_none, crate::proofs::GateLemmas::walked_added, crate::proofs::GateLemmas::walked_kept, crate::proofs::GateLemmas::walked_all))]
pub fn user_events(cfg: &Config, user: &UserState) -> EventSet
    ensures value { IsSetOf result.vectors (user_comes cfg.now user.now) }
    // Each event that the machine allows while the user runs, where the user state describes it, is in the set.
    ensures covers { CoversUserEvents cfg.now user.now result.vectors }
{
    cfg.tell();
    let mut events = EventSet::new();
    for gate in cfg.gates.as_slice() {
        if comes_from_user(user, gate) {
            events.add(gate.vector);
        }
    }
    events
}
