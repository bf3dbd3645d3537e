//! The line of a refusal: the condition, where it fails, and at which event.

ghost use Rattle.std.specs.Prelude.{◌≡◌, ◌+◌, ◌≤◌, OnOk, OnErr};
ghost use Rattle.kc_plain.specs.Appended.{Appended};
ghost use Rattle.kc_io.specs.Sink.{SinkKept, Writes, Refuses};
ghost use Rattle.kc_regions.specs.Lookup.{gate_of};
ghost use Rattle.kc_state.specs.AbsEvents.{is_gate};
ghost use Rattle.kc_cert.specs.Placed.{is_maskable};
ghost use Rattle.kc_cert.specs.declared.refusal.Spot.TheVariants.{Node};
ghost use Rattle.kc_explain.specs.Lines.{vector_text, event_text, site_text, spot_text, at_event_text, refused_line};
ghost use Rattle.kc_explain.specs.Room.{HasRoom, GrowsAtMost};

use crate::line::{Line, put, put_address, put_count};
use kc_cert::{Event, Refusal, Spot};
use kc_io::{Failed, Sink, write_all};
use kc_regions::Config;
use kc_state::Site;

const DEBUG: u8 = 1;

const NMI: u8 = 2;

const PAGE_FAULT: u8 = 14;

const MACHINE_CHECK: u8 = 18;

/// The least vector of a device.
const FIRST_DEVICE: u8 = 32;

/// Whether the vector has a gate of a device's interrupt.
fn is_interrupt(cfg: &Config, vector: u8) -> bool
    ensures { result ≡ is_gate is_maskable (gate_of cfg.now.gates vector) }
{
    match cfg.gate(vector) {
        Some(gate) => FIRST_DEVICE <= gate.vector && !gate.user,
        None => false,
    }
}

/// Adds the event of a vector.
fn put_vector(line: &mut Line, cfg: &Config, vector: u8)
    requires room { HasRoom line.old.items 15 }
    ensures text { Appended line.old.items line.new.items (vector_text cfg.now vector) }
    ensures len { GrowsAtMost line.old.items line.new.items 15 }
{
    if vector == NMI {
        return put(line, "nmi");
    }
    if vector == DEBUG {
        return put(line, "debug");
    }
    if vector == MACHINE_CHECK {
        return put(line, "check");
    }
    if vector == PAGE_FAULT {
        return put(line, "fault");
    }
    if is_interrupt(cfg, vector) {
        put(line, "irq ");
    } else {
        put(line, "trap ");
    }
    put_count(line, u32::from(vector));
}

/// Adds an event.
fn put_event(line: &mut Line, cfg: &Config, event: Event)
    requires room { HasRoom line.old.items 15 }
    ensures text { Appended line.old.items line.new.items (event_text cfg.now event) }
    ensures len { GrowsAtMost line.old.items line.new.items 15 }
{
    match event {
        Event::Vector(vector) => put_vector(line, cfg, vector),
        Event::Syscall => put(line, "syscall"),
    }
}

/// Adds at which event a condition fails.
fn put_at_event(line: &mut Line, cfg: &Config, event: Option<Event>)
    requires room { HasRoom line.old.items 22 }
    ensures text { Appended line.old.items line.new.items (at_event_text cfg.now event) }
    ensures len { GrowsAtMost line.old.items line.new.items 22 }
{
    if let Some(event) = event {
        put(line, " event ");
        put_event(line, cfg, event);
    }
}

/// Adds the site of a node.
fn put_site(line: &mut Line, site: Site)
    requires room { HasRoom line.old.items 23 }
    ensures text { Appended line.old.items line.new.items (site_text site) }
    ensures len { GrowsAtMost line.old.items line.new.items 23 }
{
    put_address(line, site.at);
    if site.inside {
        put(line, " body");
    }
}

/// Adds the place of a node.
fn put_node(line: &mut Line, context: u32, site: Site)
    requires room { HasRoom line.old.items 46 }
    ensures text { Appended line.old.items line.new.items (spot_text (Node context site)) }
    ensures len { GrowsAtMost line.old.items line.new.items 46 }
{
    put(line, " context ");
    put_count(line, context);
    put(line, " at ");
    put_site(line, site);
}

/// Adds where a condition fails.
fn put_spot(line: &mut Line, spot: Spot)
    requires room { HasRoom line.old.items 46 }
    ensures text { Appended line.old.items line.new.items (spot_text spot) }
    ensures len { GrowsAtMost line.old.items line.new.items 46 }
{
    match spot {
        Spot::Table => {}
        Spot::User => put(line, " user"),
        Spot::Context(context) => {
            put(line, " context ");
            put_count(line, context);
        }
        Spot::Node(context, site) => put_node(line, context, site),
    }
}

/// Adds the line of a refusal.
fn put_refusal(line: &mut Line, cfg: &Config, refusal: &Refusal)
    requires room { HasRoom line.old.items 88 }
    ensures text { Appended line.old.items line.new.items (refused_line cfg.now refusal.now) }
{
    put(line, "refused C");
    put_count(line, u32::from(refusal.condition.0));
    put_spot(line, refusal.spot);
    put_at_event(line, cfg, refusal.event);
    put(line, "\n");
}

/// Writes the line of a refusal without taking memory. `Failed` comes where the sink refused a part of it, and then a
/// prefix of it was added; after `Ok` nothing was refused.
pub fn write_refusal<S: Sink>(cfg: &Config, refusal: &Refusal, out: &mut S) -> Result<(), Failed>
    ensures all { OnOk result (Writes (S.state out.old) (S.state out.new) (refused_line cfg.now refusal.now)) }
    ensures part { OnErr result (Refuses (S.state out.old) (S.state out.new) (refused_line cfg.now refusal.now)) }
    ensures kept { SinkKept (S.state out.old) (S.state out.new) }
{
    let mut line = Line::new();
    put_refusal(&mut line, cfg, refusal);
    write_all(out, &line)
}
