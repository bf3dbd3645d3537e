//! C17: what is known while the user runs after a return to it. This project's own.

ghost use Rattle.std.specs.Prelude.{[], ◌≡◌};
ghost use Rattle.kc_cert.specs.Placed.{user_after};
ghost use Rattle.kc_state.specs.AbsDelivery.{entered_slot};
ghost use Rattle.kc_state.specs.User.{user_below};

use crate::covered::are_slots_covered;
use crate::placed::PlacedNode;
use crate::returning::latches_after;
use kc_frames::Change;
use kc_lattice::Domain;
use kc_state::UserState;
use kc_value::Value;

/// What a return to the user leaves of slots: 0 to 39 lose their symbols, and of the others nothing is known.
pub struct Plain;

impl Change<Value> for Plain {
    ghost changed = { λ s i old. entered_slot [] i old };

    fn at(&self, i: u16, old: &Value) -> Value {
        if i < 40 { old.plain() } else { Value::top() }
    }

    // What isn't known stays unknown.
    fn keeps(&self, _i: u16, old: &Value) -> bool {
        old.is_top()
    }
}

/// Whether the user state covers what is known after a return at this node. It takes no memory.
pub fn is_user_after_covered(p: &PlacedNode, user: &UserState) -> bool
    ensures value { result ≡ user_below (user_after p.now) user.now }
{
    let latches = latches_after(p);
    latches.nmi_blocked.leq(&user.nmi_blocked)
        && latches.mcip.leq(&user.mcip)
        && are_slots_covered(&p.state.slots, &Plain, &user.slots)
}

/// Makes the user state what is known after a return at this node. It takes no memory.
pub fn put_user_after(p: &PlacedNode, user: &mut UserState)
    ensures value { user.new ≡ user_after p.now }
{
    let latches = latches_after(p);
    user.nmi_blocked = latches.nmi_blocked;
    user.mcip = latches.mcip;
    user.slots.copy_from(&p.state.slots);
    user.slots.redo(&Plain);
}
