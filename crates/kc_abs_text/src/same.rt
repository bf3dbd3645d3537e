//! Whether two states are the same.

use kc_frames::Slots;
use kc_state::{AbsState, UserState};
use kc_value::Value;

fn are_same_slots(one: &Slots<Value>, other: &Slots<Value>) -> bool {
    for i in 0..296u16 {
        if one.get(i) != other.get(i) {
            return false;
        }
    }
    true
}

/// Whether the same is known in both.
pub fn is_same_state(one: &AbsState, other: &AbsState) -> bool {
    one.regs == other.regs
        && one.flags == other.flags
        && one.gs == other.gs
        && one.map == other.map
        && one.latches == other.latches
        && one.floors == other.floors
        && are_same_slots(&one.slots, &other.slots)
}

/// Whether the same is known in both.
pub fn is_same_user(one: &UserState, other: &UserState) -> bool {
    one.nmi_blocked == other.nmi_blocked
        && one.mcip == other.mcip
        && are_same_slots(&one.slots, &other.slots)
}
