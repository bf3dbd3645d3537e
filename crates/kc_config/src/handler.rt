//! The tables `handler`.

ghost use Rattle.std.specs.Prelude.{◌≡◌, ◌≤◌, ◌%◌, None, IfOk, IfSome, codes};
ghost use Rattle.std.specs.List.{list_all, list_any};
ghost use Rattle.std.specs.Str.{bytes_eq};
ghost use Rattle.kc_config.specs.Faults.{Reads};
ghost use Rattle.kc_config.specs.Keys.{number_in, or_default, word};
ghost use Rattle.kc_config.specs.Tables.{handler, events, is_event, after_if_of, is_handler_stack, is_frame, some};
ghost use Rattle.kc_config.specs.Seen.{seen};
ghost use Rattle.kc_regions.specs.Ranges.{IsHandlerInRange, IsFrame};

use crate::fault::ConfigFault;
use crate::keys::Reader;
use kc_regions::{AfterIf, Handler};

/// Which events may come inside a handler.
#[derive(Clone, Copy, PartialEq, Eq, Debug)]
pub(crate) struct Events {
    pub(crate) irq: bool,
    pub(crate) debug: bool,
    pub(crate) fault: bool,
}

#[tactic(auto, unfolding(crate::specs::Keys::number_in))]
fn read_handler_stack(table: &Reader<'_>) -> Result<u32, ConfigFault>
    ensures read { Reads (λ n. n) result (number_in is_handler_stack (seen table.now) (codes "stack")) }
    ensures in_range { IfOk result (λ n. (n ≤ 65536) × (n % 8 ≡ 0)) }
{
    let stack = table.number("stack")?;
    if stack <= 65_536 && stack % 8 == 0 {
        Ok(stack as u32)
    } else {
        Err(table.out_of_range("stack"))
    }
}

#[tactic(auto, unfolding(crate::specs::Keys::number_in))]
fn read_frame(table: &Reader<'_>) -> Result<u32, ConfigFault>
    ensures read { Reads (λ n. n) result (number_in is_frame (seen table.now) (codes "frame")) }
    ensures in_range { IfOk result IsFrame }
{
    let frame = table.number("frame")?;
    if 8 <= frame && frame <= 4_096 && frame % 8 == 0 {
        Ok(frame as u32)
    } else {
        Err(table.out_of_range("frame"))
    }
}

/// Where the saved user words lie, where the handler may edit them.
fn read_optional_frame(table: &Reader<'_>) -> Result<Option<u32>, ConfigFault>
    ensures read { Reads (λ n. n) result (or_default (seen table.now) (codes "frame") None
        (some (number_in is_frame (seen table.now) (codes "frame")))) }
    ensures in_range { IfOk result (λ n. IfSome n IsFrame) }
{
    if table.has("frame") {
        Ok(Some(read_frame(table)?))
    } else {
        Ok(None)
    }
}

fn is_event(text: &str) -> bool
    ensures { result ≡ is_event text.now }
{
    text == "irq" || text == "debug" || text == "fault"
}

fn are_events(texts: &[&str]) -> bool
    ensures { result ≡ list_all (λ t. is_event t.now) texts.now }
{
    texts.iter().all(|text| is_event(text))
}

fn lists(texts: &[&str], event: &str) -> bool
    ensures { result ≡ list_any (λ t. bytes_eq t.now event.now) texts.now }
{
    texts.iter().any(|text| *text == event)
}

/// The events that may come inside the handler.
#[tactic(auto, unfolding(crate::specs::Tables::events))]
fn read_events(table: &Reader<'_>) -> Result<Events, ConfigFault>
    ensures { Reads (λ e. e) result (events (seen table.now)) }
{
    let texts = table.texts("events")?;
    if !are_events(&texts) {
        return Err(table.out_of_range("events"));
    }
    Ok(Events {
        irq: lists(&texts, "irq"),
        debug: lists(&texts, "debug"),
        fault: lists(&texts, "fault"),
    })
}

fn after_if_of(text: &str) -> Option<AfterIf>
    ensures { result ≡ after_if_of text.now }
{
    if text == "keep" {
        Some(AfterIf::Keep)
    } else if text == "on" {
        Some(AfterIf::On)
    } else if text == "off" {
        Some(AfterIf::Off)
    } else if text == "any" {
        Some(AfterIf::Any)
    } else {
        None
    }
}

#[tactic(auto, unfolding(crate::specs::Keys::word))]
fn read_after_if(table: &Reader<'_>) -> Result<AfterIf, ConfigFault>
    ensures { Reads (λ a. a) result (word after_if_of (seen table.now) (codes "after_if")) }
{
    match after_if_of(table.text("after_if")?) {
        Some(after_if) => Ok(after_if),
        None => Err(table.out_of_range("after_if")),
    }
}

/// A handler.
#[tactic(auto, unfolding(crate::specs::Tables::handler))]
pub(crate) fn read_handler(table: &Reader<'_>) -> Result<Handler, ConfigFault>
    ensures read { Reads (λ h. h) result (handler (seen table.now)) }
    ensures in_range { IfOk result IsHandlerInRange }
{
    let entry = table.address("entry")?;
    let stack = read_handler_stack(table)?;
    let events = read_events(table)?;
    let after_if = read_after_if(table)?;
    let returns = table.boolean("returns")?;
    let frame = read_optional_frame(table)?;
    table.only_keys()?;
    Ok(Handler {
        entry,
        stack,
        irq: events.irq,
        debug: events.debug,
        fault: events.fault,
        after_if,
        returns,
        frame,
    })
}
