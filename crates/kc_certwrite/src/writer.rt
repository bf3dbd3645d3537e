//! Writing a certificate in both versions.

ghost use Rattle.std.specs.Prelude.{◌≤◌, flat_map, OnOk, OnErr};
ghost use Rattle.kc_io.specs.Sink.{SinkKept, Writes, Refuses};
ghost use Rattle.kc_certfields.specs.Spelling.{u32_bytes};
ghost use Rattle.kc_certform.specs.CertBytes.{context_bytes, head_bytes, contexts_bytes, node_bytes, CertBytes1};
ghost use Rattle.kc_certform.specs.HasSpelling.{HasSpelling};

use crate::records::{put_context, put_head, put_node};
use kc_cert::{Certificate, Context, Node};
use kc_certfields::Record;
use kc_certform::PLAIN;
use kc_io::{Failed, Sink, write_all};

// What stands before the contexts, and their count.
fn write_head<S: Sink>(out: &mut S, cert: &Certificate, version: u32) -> Result<(), Failed>
    requires { HasSpelling cert.now }
    ensures all { OnOk result (Writes (S.state out.old) (S.state out.new) (head_bytes version cert.now)) }
    ensures part { OnErr result (Refuses (S.state out.old) (S.state out.new) (head_bytes version cert.now)) }
    ensures kept { SinkKept (S.state out.old) (S.state out.new) }
{
    let mut record = Record::new();
    put_head(&mut record, cert, version);
    write_all(out, &record)
}

fn write_context<S: Sink>(out: &mut S, context: &Context) -> Result<(), Failed>
    ensures all { OnOk result (Writes (S.state out.old) (S.state out.new) (context_bytes context.now)) }
    ensures part { OnErr result (Refuses (S.state out.old) (S.state out.new) (context_bytes context.now)) }
    ensures kept { SinkKept (S.state out.old) (S.state out.new) }
{
    let mut record = Record::new();
    put_context(&mut record, context);
    write_all(out, &record)
}

fn write_each_context<S: Sink>(out: &mut S, contexts: &[Context]) -> Result<(), Failed>
    ensures all { OnOk result
        (Writes (S.state out.old) (S.state out.new) (flat_map context_bytes contexts.now)) }
    ensures part { OnErr result
        (Refuses (S.state out.old) (S.state out.new) (flat_map context_bytes contexts.now)) }
    ensures kept { SinkKept (S.state out.old) (S.state out.new) }
{
    for context in contexts {
        write_context(out, context)?;
    }
    Ok(())
}

fn write_count<S: Sink>(out: &mut S, count: u32) -> Result<(), Failed>
    ensures all { OnOk result (Writes (S.state out.old) (S.state out.new) (u32_bytes count)) }
    ensures part { OnErr result (Refuses (S.state out.old) (S.state out.new) (u32_bytes count)) }
    ensures kept { SinkKept (S.state out.old) (S.state out.new) }
{
    write_all(out, &count.to_le_bytes())
}

/// All that stands before the nodes.
pub(crate) fn write_contexts<S: Sink>(
    out: &mut S,
    cert: &Certificate,
    version: u32,
) -> Result<(), Failed>
    requires { HasSpelling cert.now }
    ensures all { OnOk result (Writes (S.state out.old) (S.state out.new) (contexts_bytes version cert.now)) }
    ensures part { OnErr result (Refuses (S.state out.old) (S.state out.new) (contexts_bytes version cert.now)) }
    ensures kept { SinkKept (S.state out.old) (S.state out.new) }
{
    write_head(out, cert, version)?;
    write_each_context(out, cert.contexts.as_slice())?;
    write_count(out, cert.nodes.len() as u32)
}

fn write_node<S: Sink>(out: &mut S, node: &Node, stacks: u8) -> Result<(), Failed>
    requires { stacks ≤ 16 }
    ensures all { OnOk result (Writes (S.state out.old) (S.state out.new) (node_bytes stacks node.now)) }
    ensures part { OnErr result (Refuses (S.state out.old) (S.state out.new) (node_bytes stacks node.now)) }
    ensures kept { SinkKept (S.state out.old) (S.state out.new) }
{
    let mut record = Record::new();
    put_node(&mut record, node, stacks);
    write_all(out, &record)
}

fn write_each_node<S: Sink>(out: &mut S, nodes: &[Node], stacks: u8) -> Result<(), Failed>
    requires { stacks ≤ 16 }
    ensures all { OnOk result
        (Writes (S.state out.old) (S.state out.new) (flat_map (node_bytes stacks) nodes.now)) }
    ensures part { OnErr result
        (Refuses (S.state out.old) (S.state out.new) (flat_map (node_bytes stacks) nodes.now)) }
    ensures kept { SinkKept (S.state out.old) (S.state out.new) }
{
    for node in nodes {
        write_node(out, node, stacks)?;
    }
    Ok(())
}

/// Writes a certificate in version 1. It takes no memory. `Failed` comes at the first refusal, and
/// then a prefix was added.
pub fn write_cert<S: Sink>(out: &mut S, cert: &Certificate) -> Result<(), Failed>
    requires spelling { HasSpelling cert.now }
    ensures all { OnOk result (Writes (S.state out.old) (S.state out.new) (CertBytes1 cert.now)) }
    ensures part { OnErr result (Refuses (S.state out.old) (S.state out.new) (CertBytes1 cert.now)) }
    ensures kept { SinkKept (S.state out.old) (S.state out.new) }
{
    write_contexts(out, cert, PLAIN)?;
    write_each_node(out, cert.nodes.as_slice(), cert.stacks)
}
