//! Which bytes may be accessed and which are clear.

use crate::state_cases::Room;
use kc_abs_text::{answer, count, key, location, map_location, state};
use kc_regions::{Config, Touch};
use kc_state::{clear, may};

fn size(text: &str) -> Option<u8> {
    u8::try_from(count(text)?).ok()
}

fn touch(text: &str) -> Option<Touch> {
    match text {
        "fetch" => Some(Touch::Fetch),
        "read" => Some(Touch::Read),
        "write" => Some(Touch::Write),
        _ => None,
    }
}

/// `KEY | MAP LOC SIZE TOUCH -> ANSWER`.
pub(crate) fn may_agrees(cfg: &Config, arguments: &str, due: &str) -> Option<bool> {
    let (context, case) = arguments.split_once(" | ")?;
    let (case, right) = case.rsplit_once(' ')?;
    let (case, length) = case.rsplit_once(' ')?;
    let (space, at) = map_location(case)?;
    let key = key(context)?;
    let (size, touch) = (size(length)?, touch(right)?);
    let found = match at {
        Some(at) => may(cfg, &key, space, at, size, touch),
        None => false,
    };
    Some(found == answer(due)?)
}

impl Room {
    /// `KEY | STATE | LOC SIZE -> ANSWER`.
    pub(crate) fn clear_agrees(
        &mut self,
        cfg: &Config,
        arguments: &str,
        due: &str,
    ) -> Option<bool> {
        let (context, rest) = arguments.split_once(" | ")?;
        let (before, case) = rest.split_once(" | ")?;
        let (at, length) = case.rsplit_once(' ')?;
        state(cfg, before, &mut self.left)?;
        let at = location(at)??;
        let found = clear(cfg, &key(context)?, &self.left.floors, at, size(length)?);
        Some(found == answer(due)?)
    }
}
