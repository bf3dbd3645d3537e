//! A case by its line.

use crate::access_cases::may_agrees;
use crate::frame_cases::{clobber_agrees, floor_agrees, summary_agrees};
use crate::place_cases::{home_agrees, loc_agrees, place_agrees, shift_agrees, well_formed_agrees};
use crate::state_cases::Room;
use crate::{bits_cases, space_cases, value_cases};
use kc_case_files::{Descriptions, Judge};
use kc_plain::NoMemory;
use kc_regions::Config;
use kc_state::{AbsState, UserState};
use std::alloc::Global;

/// Cases of the domains, with room for their states.
#[derive(Drop)]
pub struct DomainCases {
    room: Room,
}

impl DomainCases {
    /// With states of which nothing is known.
    pub fn new(alloc: Global) -> Result<DomainCases, NoMemory> {
        Ok(DomainCases {
            room: Room {
                left: AbsState::new(alloc)?,
                right: AbsState::new(alloc)?,
                user: UserState::new(alloc)?,
                other: UserState::new(alloc)?,
            },
        })
    }

    // `KIND.NAME ARGUMENTS -> RESULT`.
    fn domain_agrees(
        &mut self,
        all: &Descriptions,
        call: (&str, &str),
        arguments: &str,
        due: &str,
    ) -> Option<bool> {
        let (kind, name) = call;
        match kind {
            "bits" => bits_cases::agrees(name, arguments, due),
            "value" => value_cases::agrees(all, name, arguments, due),
            "floor" => floor_agrees(name, arguments, due),
            "clobber" => clobber_agrees(name, arguments, due),
            "summary" => summary_agrees(name, arguments, due),
            "state" => self.room.state_agrees(all.get("s1")?, name, arguments, due),
            "user" => self.room.user_agrees(all.get("s1")?, name, arguments, due),
            _ => space_cases::agrees(kind, name, arguments, due),
        }
    }

    // `CALL CONFIG | ARGUMENTS -> RESULT`.
    fn call_agrees(
        &mut self,
        cfg: &Config,
        call: &str,
        arguments: &str,
        due: &str,
    ) -> Option<bool> {
        match call {
            "place" => place_agrees(cfg, arguments, due),
            "home" => home_agrees(cfg, arguments, due),
            "wellformed" => well_formed_agrees(cfg, arguments, due),
            "shift" => shift_agrees(cfg, arguments, due),
            "may" => may_agrees(cfg, arguments, due),
            "clear" => self.room.clear_agrees(cfg, arguments, due),
            "load" => self.room.load_agrees(cfg, arguments, due),
            "store" => self.room.store_agrees(cfg, arguments, due),
            _ => None,
        }
    }
}

impl Judge for DomainCases {
    fn agrees(&mut self, all: &Descriptions, line: &str) -> Option<bool> {
        let (call, rest) = line.split_once(' ')?;
        let (arguments, due) = rest.split_once(" -> ")?;
        if call == "loc" {
            return loc_agrees(all.get("s1")?, arguments, due);
        }
        match call.split_once('.') {
            Some(name) => self.domain_agrees(all, name, arguments, due),
            None => {
                let (config, arguments) = arguments.split_once(" | ")?;
                self.call_agrees(all.get(config)?, call, arguments, due)
            }
        }
    }
}
