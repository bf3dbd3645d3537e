//! What is known of the machine while the user runs, this project's own.

ghost use Rattle.std.specs.Prelude.{◌≡◌, IfOk, IsTrue, ◌↔◌};
ghost use Rattle.kc_lattice.specs.Laws.{AllAlike};
ghost use Rattle.kc_state.specs.User.{IsUserState, user_below, user_joined, user_top, top_of_user, user_rank};
ghost use Rattle.kc_state.specs.UserLaws.{user_laws};

use kc_frames::Slots;
use kc_lattice::Domain;
use kc_plain::NoMemory;
use kc_space::Tri;
use kc_value::Value;
use std::alloc::Global;

/// Two latches and the tracked words; of slots only the first 40 may be other than top.
#[derive(Drop)]
pub struct UserState {
    pub nmi_blocked: Tri,
    pub mcip: Tri,
    pub slots: Slots<Value>,
}

impl UserState {
    /// The top: nothing is known.
    pub fn new(alloc: Global) -> Result<UserState, NoMemory>
        ensures top { IfOk result (λ user. user ≡ user_top) }
    {
        Ok(UserState {
            nmi_blocked: Tri::Any,
            mcip: Tri::Any,
            slots: Slots::new(alloc, Value::top())?,
        })
    }

    /// Makes it equal to `other`. It takes no memory.
    pub fn copy_from(&mut self, other: &UserState)
        ensures value { self.new ≡ other.now }
    {
        self.nmi_blocked = other.nmi_blocked;
        self.mcip = other.mcip;
        self.slots.copy_from(&other.slots);
    }
}

impl Domain for UserState {
    ghost valid = { IsUserState };

    ghost alike = { AllAlike };

    ghost below = { user_below };

    ghost joined = { user_joined };

    ghost top_of = { top_of_user };

    ghost rank = { user_rank };

    ghost laws = { user_laws };

    fn leq(&self, other: &UserState) -> bool {
        self.nmi_blocked.leq(&other.nmi_blocked)
            && self.mcip.leq(&other.mcip)
            && self.slots.leq(&other.slots)
    }

    fn join(&mut self, other: &UserState) {
        self.slots.whole();
        other.slots.whole();
        self.nmi_blocked.join(&other.nmi_blocked);
        self.mcip.join(&other.mcip);
        self.slots.join(&other.slots);
    }

    fn is_top(&self) -> bool {
        self.nmi_blocked.is_top() && self.mcip.is_top() && self.slots.is_top()
    }

    fn set_top(&mut self) {
        self.nmi_blocked.set_top();
        self.mcip.set_top();
        self.slots.set_top();
    }

    fn tell(&self) {
        self.slots.tell();
    }
}
