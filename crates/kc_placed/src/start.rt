//! C3: what is known while the user runs first. This project's own.

ghost use Rattle.std.specs.Prelude.{◌≡◌};
ghost use Rattle.kc_cert.specs.Conditions.{start_slot, start_user};
ghost use Rattle.kc_lattice.specs.Rows.{rows_below};
ghost use Rattle.kc_state.specs.User.{user_below};
ghost use Rattle.kc_value.specs.Value.{value_below};

use crate::covered::are_slots_covered;
use kc_frames::{Change, Slots};
use kc_lattice::Domain;
use kc_regions::Config;
use kc_space::Tri;
use kc_state::{UserState, number_value};
use kc_value::Value;

// RSP0, the ISTs and the description's words have the values that it gives.
#[derive(Drop)]
struct Start<'a> {
    cfg: &'a Config,
}

impl<'a> Change<Value> for Start<'a> {
    ghost changed = { λ s i old. start_slot s.cfg.now i };

    fn at(&self, i: u16, _old: &Value) -> Value {
        let cfg = self.cfg;
        if i == 0 {
            number_value(cfg, cfg.cpu.rsp0)
        } else if i < 8 {
            number_value(cfg, cfg.cpu.ist[usize::from(i - 1)])
        } else {
            match cfg.words.get(usize::from(i - 8)) {
                Some(word) => number_value(cfg, word.value),
                None => Value::top(),
            }
        }
    }

    // Of the slots after the description's words nothing is known.
    fn keeps(&self, i: u16, old: &Value) -> bool {
        let cfg = self.cfg;
        usize::from(i) >= cfg.words.len() + 8 && old.is_top()
    }
}

// Whether the values at the start are covered.
fn are_values_covered(cfg: &Config, slots: &Slots<Value>) -> bool
    ensures { result ≡ rows_below value_below (start_user cfg.now).slots slots.now }
{
    slots.whole();
    are_slots_covered(slots, &Start { cfg }, slots)
}

/// C3: whether the user state covers the start, at which no latch is set. It takes no memory.
pub fn is_start_covered(cfg: &Config, user: &UserState) -> bool
    ensures value { result ≡ user_below (start_user cfg.now) user.now }
{
    Tri::No.leq(&user.nmi_blocked)
        && Tri::No.leq(&user.mcip)
        && are_values_covered(cfg, &user.slots)
}

// Makes the slots those at the start.
fn put_start_slots(cfg: &Config, slots: &mut Slots<Value>)
    ensures { slots.new ≡ (start_user cfg.now).slots }
{
    slots.whole();
    slots.redo(&Start { cfg });
}

/// Makes the user state the least that C3 allows: what is known at the start. It takes no memory.
pub fn put_start_user(cfg: &Config, user: &mut UserState)
    ensures value { user.new ≡ start_user cfg.now }
{
    user.nmi_blocked = Tri::No;
    user.mcip = Tri::No;
    put_start_slots(cfg, &mut user.slots);
}
