//! The explanation of a refusal.

ghost use Rattle.std.specs.Prelude.{◌≡◌, OnOk, OnErr};
ghost use Rattle.std.specs.Option.{option_copied};
ghost use Rattle.kc_io.specs.Sink.{SinkKept, Writes, Refuses};
ghost use Rattle.kc_cert.specs.Code.{insn_at};
ghost use Rattle.kc_cert.specs.Table.{is_at, node_at, position_numbers};
ghost use Rattle.kc_explain.specs.Explanation.{instruction_text, instruction_line, node_lines, spot_lines, explanation};

use crate::because::write_because;
use crate::known::write_state;
use crate::refused::write_refusal;
use kc_cert::{Certificate, Node, Refusal, Spot, insn_at};
use kc_image::Image;
use kc_insn::Insn;
use kc_io::{Failed, Sink, write_all};
use kc_regions::Config;
use kc_state::Site;
use kc_text::write_insn;

fn numbers(context: u32, site: &Site) -> [u64; 3]
    ensures { result ≡ position_numbers (context, site.now) }
{
    [u64::from(context), site.at, if site.inside { 1 } else { 0 }]
}

/// Whether it is the node of the context at the site.
fn is_at(node: &Node, context: u32, site: &Site) -> bool
    ensures { result ≡ is_at (context, site.now) node.now }
{
    numbers(node.context, &node.site)
        .cmp(&numbers(context, site))
        .is_eq()
}

/// The node of the context at the site, in a certificate whose nodes may have any order.
fn node_at<'a>(cert: &'a Certificate, context: u32, site: &Site) -> Option<&'a Node>
    ensures { option_copied result ≡ node_at cert.now context site.now }
{
    cert.nodes
        .as_slice()
        .iter()
        .find(|node| is_at(node, context, site))
}

/// Writes the text of an instruction, where there is one.
fn write_text<S: Sink>(out: &mut S, found: Option<(Insn, u8)>) -> Result<(), Failed>
    ensures all { OnOk result (Writes (S.state out.old) (S.state out.new) (instruction_text found)) }
    ensures part { OnErr result (Refuses (S.state out.old) (S.state out.new) (instruction_text found)) }
    ensures kept { SinkKept (S.state out.old) (S.state out.new) }
{
    match found {
        Some((insn, _)) => write_insn(out, &insn),
        None => write_all(out, "none".as_bytes()),
    }
}

/// Writes the line of the instruction at this address.
fn write_instruction<S: Sink>(out: &mut S, image: &Image, at: u64) -> Result<(), Failed>
    ensures all { OnOk result (Writes (S.state out.old) (S.state out.new) (instruction_line image.now at)) }
    ensures part { OnErr result (Refuses (S.state out.old) (S.state out.new) (instruction_line image.now at)) }
    ensures kept { SinkKept (S.state out.old) (S.state out.new) }
{
    write_all(out, "instruction ".as_bytes())?;
    write_text(out, insn_at(image, at))?;
    write_all(out, "\n".as_bytes())
}

/// Writes the lines of a node.
fn write_node<S: Sink>(out: &mut S, image: &Image, at: u64, node: &Node) -> Result<(), Failed>
    ensures all { OnOk result (Writes (S.state out.old) (S.state out.new) (node_lines image.now at (Some node.now))) }
    ensures part { OnErr result
        (Refuses (S.state out.old) (S.state out.new) (node_lines image.now at (Some node.now))) }
    ensures kept { SinkKept (S.state out.old) (S.state out.new) }
{
    write_instruction(out, image, at)?;
    write_state(out, &node.state)
}

/// Writes the lines of what is known where a condition fails.
fn write_spot<S: Sink>(
    out: &mut S,
    image: &Image,
    cert: &Certificate,
    spot: &Spot,
) -> Result<(), Failed>
    ensures all { OnOk result (Writes (S.state out.old) (S.state out.new) (spot_lines image.now cert.now spot.now)) }
    ensures part { OnErr result
        (Refuses (S.state out.old) (S.state out.new) (spot_lines image.now cert.now spot.now)) }
    ensures kept { SinkKept (S.state out.old) (S.state out.new) }
{
    match spot {
        Spot::Node(context, site) => match node_at(cert, *context, site) {
            Some(node) => write_node(out, image, site.at, node),
            None => Ok(()),
        },
        _ => Ok(()),
    }
}

/// Writes the explanation of a refusal without taking memory: the line of the refusal; at a node of the certificate its
/// instruction and what is known there; and what the condition asks. `Failed` comes where the sink refused a part of it,
/// and then a prefix of it was added; after `Ok` nothing was refused.
pub fn explain<S: Sink>(
    image: &Image,
    cfg: &Config,
    cert: &Certificate,
    refusal: &Refusal,
    out: &mut S,
) -> Result<(), Failed>
    ensures all { OnOk result
        (Writes (S.state out.old) (S.state out.new) (explanation image.now cfg.now cert.now refusal.now)) }
    ensures part { OnErr result
        (Refuses (S.state out.old) (S.state out.new) (explanation image.now cfg.now cert.now refusal.now)) }
    ensures kept { SinkKept (S.state out.old) (S.state out.new) }
{
    write_refusal(cfg, refusal, out)?;
    write_spot(out, image, cert, &refusal.spot)?;
    write_because(out, refusal.condition)
}
