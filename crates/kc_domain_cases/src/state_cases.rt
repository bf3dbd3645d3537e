//! The order and the joins of states.

use kc_abs_text::{answer, is_same_state, is_same_user, state, user};
use kc_lattice::Domain;
use kc_regions::Config;
use kc_state::{AbsState, UserState};

/// Room for the states of a case.
#[derive(Drop)]
pub(crate) struct Room {
    pub(crate) left: AbsState,
    pub(crate) right: AbsState,
    pub(crate) user: UserState,
    pub(crate) other: UserState,
}

impl Room {
    pub(crate) fn state_agrees(
        &mut self,
        cfg: &Config,
        name: &str,
        arguments: &str,
        due: &str,
    ) -> Option<bool> {
        let (left, right) = arguments.split_once(" | ")?;
        state(cfg, left, &mut self.left)?;
        state(cfg, right, &mut self.right)?;
        match name {
            "leq" => Some(self.left.leq(&self.right) == answer(due)?),
            "join" => self.state_joins(cfg, due),
            _ => None,
        }
    }

    fn state_joins(&mut self, cfg: &Config, due: &str) -> Option<bool> {
        self.left.join(&self.right);
        state(cfg, due, &mut self.right)?;
        Some(is_same_state(&self.left, &self.right))
    }

    pub(crate) fn user_agrees(
        &mut self,
        cfg: &Config,
        name: &str,
        arguments: &str,
        due: &str,
    ) -> Option<bool> {
        let (left, right) = arguments.split_once(" | ")?;
        user(cfg, left, &mut self.user)?;
        user(cfg, right, &mut self.other)?;
        match name {
            "leq" => Some(self.user.leq(&self.other) == answer(due)?),
            "join" => self.user_joins(cfg, due),
            _ => None,
        }
    }

    fn user_joins(&mut self, cfg: &Config, due: &str) -> Option<bool> {
        self.user.join(&self.other);
        user(cfg, due, &mut self.other)?;
        Some(is_same_user(&self.user, &self.other))
    }
}
