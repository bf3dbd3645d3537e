//! Where values point and where frames stand.

use crate::well_formed::is_well_formed;
use kc_abs_text::{Shift, answer, key, location, moved, stack_number, value};
use kc_regions::Config;
use kc_state::{home, loc, place, shift, shift_down};
use kc_value::Value;

/// `KEY | VALUE -> LOC`.
pub(crate) fn loc_agrees(cfg: &Config, arguments: &str, due: &str) -> Option<bool> {
    let (context, v) = arguments.split_once(" | ")?;
    Some(loc(&key(context)?, &value(cfg, v)?) == location(due)?)
}

/// `KEY | VALUE -> STACK`.
pub(crate) fn place_agrees(cfg: &Config, arguments: &str, due: &str) -> Option<bool> {
    let (context, v) = arguments.split_once(" | ")?;
    Some(place(cfg, &key(context)?, &value(cfg, v)?) == stack_number(due)?)
}

/// `KEY -> STACK`.
pub(crate) fn home_agrees(cfg: &Config, argument: &str, due: &str) -> Option<bool> {
    Some(home(cfg, &key(argument)?) == stack_number(due)?)
}

/// `KEY | VALUE -> ANSWER`.
pub(crate) fn well_formed_agrees(cfg: &Config, arguments: &str, due: &str) -> Option<bool> {
    let (context, v) = arguments.split_once(" | ")?;
    Some(is_well_formed(cfg, &key(context)?, &value(cfg, v)?) == answer(due)?)
}

/// `KEY | VALUE N -> VALUE`.
pub(crate) fn shift_agrees(cfg: &Config, arguments: &str, due: &str) -> Option<bool> {
    let (context, case) = arguments.split_once(" | ")?;
    let (v, by) = case.split_once(' ')?;
    Some(shifted(cfg, context, &value(cfg, v)?, moved(by)?)? == value(cfg, due)?)
}

fn shifted(cfg: &Config, context: &str, v: &Value, by: Shift) -> Option<Value> {
    let key = key(context)?;
    match by {
        Shift::Up(c) => Some(shift(cfg, &key, v, c)),
        Shift::Down(c) => Some(shift_down(cfg, &key, v, c)),
    }
}
