//! A case by its line.

use kc_abs_text::{key, state};
use kc_case_files::{Descriptions, Judge};
use kc_plain::NoMemory;
use kc_regions::Config;
use kc_state::{AbsState, Key, Scratch, UserState};
use kc_transfer::has_stack;
use std::alloc::Global;

/// Cases of events, with room for their states.
#[derive(Drop)]
pub struct EventCases {
    pub(crate) before: AbsState,
    pub(crate) due: AbsState,
    pub(crate) user: UserState,
    pub(crate) out: Scratch,
}

impl EventCases {
    /// With states of which nothing is known.
    pub fn new(alloc: Global) -> Result<EventCases, NoMemory> {
        Ok(EventCases {
            before: AbsState::new(alloc)?,
            due: AbsState::new(alloc)?,
            user: UserState::new(alloc)?,
            out: Scratch::new(alloc)?,
        })
    }

    fn call_agrees(
        &mut self,
        cfg: &Config,
        call: &str,
        arguments: &str,
        due: &str,
    ) -> Option<bool> {
        match call {
            "uevents" => self.user_events_agree(cfg, arguments, due),
            "user" => self.user_delivery_agrees(cfg, arguments, due),
            _ => {
                let (context, rest) = arguments.split_once(" | ")?;
                let (before, rest) = rest.split_once(" | ")?;
                state(cfg, before, &mut self.before)?;
                self.kernel_agrees(cfg, call, &key(context)?, rest, due)
            }
        }
    }

    // What stands behind the state before.
    fn kernel_agrees(
        &mut self,
        cfg: &Config,
        call: &str,
        key: &Key,
        rest: &str,
        due: &str,
    ) -> Option<bool> {
        if !has_stack(cfg, key) {
            return None;
        }
        match call {
            "events" => self.events_agree(cfg, key, rest.split_once(" | ")?, due),
            "deliver" => self.delivery_agrees(cfg, key, rest, due),
            "after" => self.return_leaves(cfg, key, rest.split_once(" | ")?, due),
            "return" => self.return_agrees(cfg, key, rest, due),
            _ => None,
        }
    }
}

impl Judge for EventCases {
    fn agrees(&mut self, all: &Descriptions, line: &str) -> Option<bool> {
        let (text, due) = line.split_once(" -> ")?;
        let (call, rest) = text.split_once(' ')?;
        let (config, arguments) = rest.split_once(" | ")?;
        self.call_agrees(all.get(config)?, call, arguments, due)
    }
}
