//! Loads and stores.

use crate::state_cases::Room;
use kc_abs_text::{count, is_same_state, key, location, state, value, with_all};
use kc_regions::Config;
use kc_state::{Key, Location, Moment, cpu_of, load_at, store};
use kc_value::Value;
use kc_words::Width;

fn width(text: &str) -> Option<Width> {
    match text {
        "1" => Some(Width::Byte),
        "4" => Some(Width::Long),
        "8" => Some(Width::Quad),
        _ => None,
    }
}

impl Room {
    /// `KEY | STATE | LOC SIZE -> VALUE`.
    pub(crate) fn load_agrees(&mut self, cfg: &Config, arguments: &str, due: &str) -> Option<bool> {
        let (context, rest) = arguments.split_once(" | ")?;
        let (before, case) = rest.split_once(" | ")?;
        let (at, length) = case.rsplit_once(' ')?;
        state(cfg, before, &mut self.left)?;
        let (key, at) = (key(context)?, location(at)?);
        let found = self.loaded(cfg, &key, width(length)?, at);
        Some(found == value(cfg, due)?)
    }

    fn loaded(&self, cfg: &Config, key: &Key, width: Width, at: Option<Location>) -> Value {
        let cpu = cpu_of(&self.left);
        let m = Moment {
            cfg,
            key,
            cpu: &cpu,
            slots: &self.left.slots,
            next: 0,
        };
        load_at(&m, width, at)
    }

    /// `KEY | STATE | LOC SIZE VALUE -> CHANGES`.
    pub(crate) fn store_agrees(
        &mut self,
        cfg: &Config,
        arguments: &str,
        due: &str,
    ) -> Option<bool> {
        let (context, rest) = arguments.split_once(" | ")?;
        let (before, case) = rest.split_once(" | ")?;
        state(cfg, before, &mut self.left)?;
        self.right.copy_from(&self.left);
        self.put(cfg, context, case)?;
        with_all(cfg, &mut self.right, due)?;
        Some(is_same_state(&self.left, &self.right))
    }

    // Stores the value of a case.
    fn put(&mut self, cfg: &Config, context: &str, case: &str) -> Option<()> {
        let (case, v) = case.rsplit_once(' ')?;
        let (at, length) = case.rsplit_once(' ')?;
        let size = u8::try_from(count(length)?).ok()?;
        let (key, at, v) = (key(context)?, location(at)??, value(cfg, v)?);
        store(cfg, &key, &mut self.left.slots, at, size, &v);
        Some(())
    }
}
