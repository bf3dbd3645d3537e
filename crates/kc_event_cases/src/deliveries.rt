//! Deliveries.

ghost use Rattle.std.specs.Prelude.{IsSome, IfSome};
ghost use Rattle.kc_regions.specs.Lookup.{gate_of};
ghost use Rattle.kc_state.specs.AbsEvents.{HasStack};

use crate::event_cases::EventCases;
use kc_abs_text::{Code, code_at, is_same_state, key, site, state, user, with_all};
use kc_absevent::{deliver_abs, deliver_user};
use kc_regions::Config;
use kc_state::{Condition, Key, Site};

// The vector, where it has a gate.
fn gated(cfg: &Config, text: &str) -> Option<u8>
    ensures { IfSome result (λ v. IsSome (gate_of cfg.now.gates v)) }
{
    let vector = u8::from_str_radix(text, 10).ok()?;
    match cfg.gate(vector) {
        Some(_) => Some(vector),
        None => None,
    }
}

// A vector that has a gate, or `syscall`.
fn entry(cfg: &Config, text: &str) -> Option<Option<u8>>
    ensures { IfSome result (λ e. IfSome e (λ v. IsSome (gate_of cfg.now.gates v))) }
{
    match text {
        "syscall" => Some(None),
        _ => Some(Some(gated(cfg, text)?)),
    }
}

impl EventCases {
    /// `SITE | CODE | VECTOR -> KEY ; CHANGES`, or `no`.
    pub(crate) fn delivery_agrees(
        &mut self,
        cfg: &Config,
        key: &Key,
        rest: &str,
        due: &str,
    ) -> Option<bool>
        requires stack { HasStack cfg.now key.now }
    {
        let (place, rest) = rest.split_once(" | ")?;
        let (bytes, vector) = rest.split_once(" | ")?;
        let site = site(place)?;
        let code = code_at(site.at, bytes)?;
        let found = self.delivered(cfg, key, &site, &code, vector)?;
        self.enters(cfg, found, due)
    }

    fn delivered(
        &mut self,
        cfg: &Config,
        key: &Key,
        site: &Site,
        code: &Code,
        vector: &str,
    ) -> Option<Result<Key, Condition>>
        requires stack { HasStack cfg.now key.now }
    {
        let vector = gated(cfg, vector)?;
        let Self { before, out, .. } = self;
        Some(deliver_abs(cfg, key, site, before, &code.insn, vector, out))
    }

    /// `USER | VECTOR -> KEY ; CHANGES`, or `no`; `syscall` has no vector.
    pub(crate) fn user_delivery_agrees(
        &mut self,
        cfg: &Config,
        arguments: &str,
        due: &str,
    ) -> Option<bool> {
        let (text, vector) = arguments.split_once(" | ")?;
        user(cfg, text, &mut self.user)?;
        let entry = entry(cfg, vector)?;
        let found = deliver_user(cfg, &self.user, entry, &mut self.out);
        self.enters(cfg, found, due)
    }

    // Whether the answer is this, and the state at the entry `entered` with these changes.
    fn enters(&mut self, cfg: &Config, found: Result<Key, Condition>, due: &str) -> Option<bool> {
        match due.split_once(" ; ") {
            Some((entered, changes)) => {
                state(cfg, "entered", &mut self.due)?;
                with_all(cfg, &mut self.due, changes)?;
                Some(found == Ok(key(entered)?) && is_same_state(&self.out.out, &self.due))
            }
            None if due == "no" => Some(found == Err(Condition::EVENT_COVERED)),
            None => None,
        }
    }
}
