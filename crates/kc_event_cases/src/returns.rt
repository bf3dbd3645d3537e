//! Returns.

ghost use Rattle.kc_state.specs.AbsEvents.{HasStack};

use crate::event_cases::EventCases;
use kc_abs_text::{answer, code_at, is_same_state, site, summary, with_all};
use kc_absevent::{after_return, return_ok};
use kc_regions::Config;
use kc_state::Key;

impl EventCases {
    /// `SITE | SUMMARY -> CHANGES`.
    pub(crate) fn return_leaves(
        &mut self,
        cfg: &Config,
        key: &Key,
        place: (&str, &str),
        due: &str,
    ) -> Option<bool>
        requires stack { HasStack cfg.now key.now }
    {
        let (site, summary) = (site(place.0)?, summary(place.1)?);
        after_return(cfg, key, &site, &self.before, &summary, &mut self.out);
        self.due.copy_from(&self.before);
        with_all(cfg, &mut self.due, due)?;
        Some(is_same_state(&self.out.back, &self.due))
    }

    /// `CODE -> ANSWER`.
    pub(crate) fn return_agrees(
        &self,
        cfg: &Config,
        key: &Key,
        bytes: &str,
        due: &str,
    ) -> Option<bool>
        requires stack { HasStack cfg.now key.now }
    {
        let code = code_at(0, bytes)?;
        Some(return_ok(cfg, key, &self.before, &code.insn) == answer(due)?)
    }
}
