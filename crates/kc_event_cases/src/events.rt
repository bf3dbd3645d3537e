//! Which events may come.

ghost use Rattle.kc_state.specs.AbsEvents.{HasStack};

use crate::event_cases::EventCases;
use kc_abs_text::{code_at, site, user};
use kc_absevent::{EventSet, events_at, user_events};
use kc_regions::Config;
use kc_state::Key;

// The set of these vectors in decimal digits, apart by blanks; `-` is none.
fn vectors(text: &str) -> Option<EventSet> {
    let mut all = EventSet::new();
    if text != "-" {
        for vector in text.split(' ') {
            all.add(u8::from_str_radix(vector, 10).ok()?);
        }
    }
    Some(all)
}

impl EventCases {
    /// `SITE | CODE -> VECTORS`.
    pub(crate) fn events_agree(
        &self,
        cfg: &Config,
        key: &Key,
        place: (&str, &str),
        due: &str,
    ) -> Option<bool>
        requires stack { HasStack cfg.now key.now }
    {
        let site = site(place.0)?;
        let code = code_at(site.at, place.1)?;
        let found = events_at(cfg, key, &site, &self.before, &code.insn, code.len);
        Some(found == vectors(due)?)
    }

    /// `USER -> VECTORS syscall`.
    pub(crate) fn user_events_agree(
        &mut self,
        cfg: &Config,
        text: &str,
        due: &str,
    ) -> Option<bool> {
        user(cfg, text, &mut self.user)?;
        let due = match due.strip_suffix("syscall")?.trim_end() {
            "" => EventSet::new(),
            list => vectors(list)?,
        };
        Some(user_events(cfg, &self.user) == due)
    }
}
