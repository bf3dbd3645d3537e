//! Refusals by where a condition fails.

ghost use Rattle.std.specs.Prelude.{◌≡◌};
ghost use Rattle.kc_cert.specs.FirstRefusal.{at_table, at_user, at_context, at_node, at_event, demand};

use kc_cert::{Event, Node, Refusal, Spot};
use kc_state::Condition;

pub(crate) fn at_table(condition: Condition) -> Refusal
    ensures { result ≡ at_table condition.0 }
{
    Refusal {
        condition,
        spot: Spot::Table,
        event: None,
    }
}

pub(crate) fn at_user(event: Event) -> Refusal
    ensures { result ≡ at_user event }
{
    Refusal {
        condition: Condition::EVENT_COVERED,
        spot: Spot::User,
        event: Some(event),
    }
}

pub(crate) fn at_context(i: u32, condition: Condition) -> Refusal
    ensures { result ≡ at_context i condition.0 }
{
    Refusal {
        condition,
        spot: Spot::Context(i),
        event: None,
    }
}

pub(crate) fn at_node(node: &Node, condition: Condition) -> Refusal
    ensures { result ≡ at_node node.now condition }
{
    Refusal {
        condition,
        spot: Spot::Node(node.context, node.site),
        event: None,
    }
}

pub(crate) fn at_event(node: &Node, condition: Condition, vector: u8) -> Refusal
    ensures { result ≡ at_event node.now condition.0 vector }
{
    Refusal {
        condition,
        spot: Spot::Node(node.context, node.site),
        event: Some(Event::Vector(vector)),
    }
}

/// The refusal, where the condition doesn't hold.
pub(crate) fn demand(holds: bool, refusal: Refusal) -> Result<(), Refusal>
    ensures { result ≡ demand holds refusal }
{
    if holds { Ok(()) } else { Err(refusal) }
}
