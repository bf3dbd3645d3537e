//! States written into a record of a certificate.

ghost use Rattle.std.specs.Prelude.{◌≡◌, ◌+◌, ◌≤◌, ◌++◌, cond, length, take, flat_map};
ghost use Rattle.kc_plain.specs.Appended.{Appended};
ghost use Rattle.kc_frames.specs.Slots.{slot_count};
ghost use Rattle.kc_certfields.specs.Room.{HasRoom, GrowsAtMost};
ghost use Rattle.kc_certfields.specs.Spelling.{value_bytes, floor_bytes, is_value_top, known_slots, slot_bytes, slot_records, slots_bytes, state_bytes, user_bytes};

use crate::put::{Record, put_floor, put_latches, put_u8, put_u16, put_value};
use crate::slots::{SLOTS, is_top};
use kc_frames::{Floor, Slots};
use kc_state::{AbsState, UserState};
use kc_value::Value;

/// Adds values.
fn put_values(out: &mut Record, values: &[Value])
    requires count { length values.now ≤ 16 }
    requires room { HasRoom out.old.items 464 }
    ensures text { Appended out.old.items out.new.items (flat_map value_bytes values.now) }
    ensures len { GrowsAtMost out.old.items out.new.items 464 }
{
    for value in values {
        put_value(out, value);
    }
}

/// Adds floors.
fn put_floors(out: &mut Record, floors: &[Floor])
    requires count { length floors.now ≤ 16 }
    requires room { HasRoom out.old.items 144 }
    ensures text { Appended out.old.items out.new.items (flat_map floor_bytes floors.now) }
    ensures len { GrowsAtMost out.old.items out.new.items 144 }
{
    for floor in floors {
        put_floor(out, *floor);
    }
}

/// Adds a slot with its index, where it isn't top.
fn put_slot(out: &mut Record, index: u16, value: &Value)
    requires room { HasRoom out.old.items 31 }
    ensures text { Appended out.old.items out.new.items (slot_bytes index value.now) }
    ensures len { GrowsAtMost out.old.items out.new.items 31 }
{
    if !is_top(value) {
        put_u16(out, index);
        put_value(out, value);
    }
}

/// 1 for a value that isn't top, and 0 for the top.
fn known(value: &Value) -> u16
    ensures count { result ≡ cond (is_value_top value.now) 0 1 }
{
    if is_top(value) { 0 } else { 1 }
}

/// How many slots aren't top.
fn count_known(slots: &Slots<Value>) -> u16
    ensures count { result ≡ known_slots slots.now }
    ensures most { result ≤ slot_count }
{
    slots.whole();
    let mut count = 0;
    for i in 0..SLOTS {
        count += known(slots.get(i));
    }
    count
}

/// Adds the slots that aren't top.
fn put_slots(out: &mut Record, slots: &Slots<Value>)
    requires room { HasRoom out.old.items 9178 }
    ensures text { Appended out.old.items out.new.items (slots_bytes slots.now) }
    ensures len { GrowsAtMost out.old.items out.new.items 9178 }
{
    slots.whole();
    put_u16(out, count_known(slots));
    for i in 0..SLOTS {
        put_slot(out, i, slots.get(i));
    }
}

/// Adds a state with the floors of so many stacks.
pub fn put_state(out: &mut Record, state: &AbsState, stacks: u8)
    requires stacks { stacks ≤ 16 }
    requires room { HasRoom out.old.items 9820 }
    ensures text { Appended out.old.items out.new.items (state_bytes stacks state.now) }
    ensures len { GrowsAtMost out.old.items out.new.items 9820 }
{
    put_values(out, &state.regs);
    put_value(out, &state.flags);
    put_u8(out, state.gs.number());
    put_u8(out, state.map.number());
    put_latches(out, &state.latches);
    put_floors(out, &state.floors.at[..stacks as usize]);
    put_slots(out, &state.slots);
}

/// Adds what is known while the user runs.
pub fn put_user(out: &mut Record, user: &UserState)
    requires room { HasRoom out.old.items 9180 }
    ensures text { Appended out.old.items out.new.items (user_bytes user.now) }
    ensures len { GrowsAtMost out.old.items out.new.items 9180 }
{
    put_u8(out, user.nmi_blocked.number());
    put_u8(out, user.mcip.number());
    put_slots(out, &user.slots);
}
