//! Values.

ghost use Rattle.kc_value.specs.Made.{IsPlace};

use crate::order::is_ordered;
use crate::stands_cases::value_stands;
use kc_abs_text::{bits, count, number, value};
use kc_bits::Bits;
use kc_case_files::Descriptions;
use kc_regions::Config;
use kc_state::{derived, number_value};
use kc_value::Value;
use kc_words::{Span, Width};

pub(crate) fn agrees(all: &Descriptions, name: &str, arguments: &str, due: &str) -> Option<bool> {
    match name {
        "leq" | "join" => ordered(all.get("s1")?, name, arguments.split_once(' ')?, due),
        "plain" => is_plain(all.get("s1")?, arguments, due),
        _ => {
            let (config, rest) = arguments.split_once(' ')?;
            agrees_in(all.get(config)?, name, rest, due)
        }
    }
}

fn ordered(cfg: &Config, name: &str, arguments: (&str, &str), due: &str) -> Option<bool> {
    is_ordered(name, arguments, due, |text| value(cfg, text))
}

fn is_plain(cfg: &Config, argument: &str, due: &str) -> Option<bool> {
    Some(value(cfg, argument)?.plain() == value(cfg, due)?)
}

fn agrees_in(cfg: &Config, name: &str, argument: &str, due: &str) -> Option<bool> {
    match name {
        "const" => Some(number_value(cfg, number(argument)?) == value(cfg, due)?),
        "derived" => Some(derived(cfg, &bits(argument)?) == value(cfg, due)?),
        "low" => Some(low(cfg, &value(cfg, argument)?) == value(cfg, due)?),
        "prefix" => Some(prefix(cfg, argument)? == bits(due)?),
        "stands" => value_stands(cfg, argument.split_once(" | ")?, due),
        _ => None,
    }
}

// The stack that holds the number, where the bits know one.
#[tactic(auto, using(kc_state::proofs::StackLemmas::is_place))]
fn place_of(cfg: &Config, bits: &Bits) -> Option<u8>
    ensures { IsPlace result }
{
    cfg.tell();
    match bits.single() {
        Some(n) => cfg.regions.stack_of(n),
        None => None,
    }
}

fn low(cfg: &Config, v: &Value) -> Value {
    v.low(place_of(cfg, &v.bits.cut(Width::Long)))
}

fn prefix(cfg: &Config, stack: &str) -> Option<Bits> {
    let stack = u8::try_from(count(stack)?).ok()?;
    prefix_of(&cfg.regions.stack(stack)?.span)
}

fn prefix_of(span: &Span) -> Option<Bits> {
    if span.from < span.to {
        Some(Bits::prefix(span))
    } else {
        None
    }
}
