//! Writing a certificate in version 2, in which states are shared.

ghost use Rattle.std.specs.Prelude.{◌≡◌, ◌≤◌, ◌<◌, ◌++◌, ◌∷◌, [], length, IfOk, IfErr, OnOk, OnErr};
ghost use Rattle.kc_io.specs.Sink.{SinkKept, Writes, Refuses};
ghost use Rattle.kc_cert.specs.declared.certificate.TheConstants.{MAX_NODES as most_nodes};
ghost use Rattle.kc_certform.specs.CertBytes.{CertBytes2};
ghost use Rattle.kc_certform.specs.HasSpelling.{HasSpelling};
ghost use Rattle.kc_certform.specs.Written.{IsWritten};
ghost use Rattle.kc_certwrite.specs.Shares.{shares_of};
ghost use Rattle.kc_certwrite.specs.ShareSteps.{shared_node_bytes, shared_nodes_bytes, PlansNext};
ghost use Rattle.kc_certwrite.specs.Ends.{EndsBy};

use crate::records::put_shared_node;
use crate::writer::write_contexts;
use kc_cert::{Certificate, Node};
use kc_certfields::Record;
use kc_certform::{Found, SHARED, Written};
use kc_io::{Failed, Sink, write_all};
use kc_plain::NoMemory;
use std::alloc::Global;

/// Why a certificate of version 2 wasn't written.
#[derive(Clone, Copy, PartialEq, Eq, Debug)]
pub enum WriteEnd {
    /// The sink refused a piece; a prefix was added.
    Failed,
    /// Memory ran out; nothing was added.
    NoMemory,
}

impl From<Failed> for WriteEnd {
    ghost use Rattle.std.specs.Prelude.{◌≡◌};
    ghost use Rattle.kc_certwrite.specs.declared.sharing.WriteEnd.TheVariants.{Failed as WriteFailed};

    ghost from_gives = { λ _ e. e ≡ WriteFailed };

    fn from(_: Failed) -> WriteEnd {
        WriteEnd::Failed
    }
}

impl From<NoMemory> for WriteEnd {
    ghost use Rattle.std.specs.Prelude.{◌≡◌};
    ghost use Rattle.kc_certwrite.specs.declared.sharing.WriteEnd.TheVariants.{NoMemory as OutOfMemory};

    ghost from_gives = { λ _ e. e ≡ OutOfMemory };

    fn from(_: NoMemory) -> WriteEnd {
        WriteEnd::NoMemory
    }
}

// A node with its share.
fn write_shared_node<S: Sink>(
    out: &mut S,
    node: &Node,
    share: u32,
    stacks: u8,
) -> Result<(), Failed>
    requires { stacks ≤ 16 }
    ensures all { OnOk result (Writes (S.state out.old) (S.state out.new) (shared_node_bytes stacks node.now share)) }
    ensures part { OnErr result
        (Refuses (S.state out.old) (S.state out.new) (shared_node_bytes stacks node.now share)) }
    ensures kept { SinkKept (S.state out.old) (S.state out.new) }
{
    let mut record = Record::new();
    put_shared_node(&mut record, node, share, stacks);
    write_all(out, &record)
}

// The nodes with their shares.
fn write_shared_nodes<S: Sink>(
    out: &mut S,
    nodes: &[Node],
    shares: &[u32],
    stacks: u8,
) -> Result<(), Failed>
    requires stacks { stacks ≤ 16 }
    requires count { length shares.now ≡ length nodes.now }
    ensures all { OnOk result
        (Writes (S.state out.old) (S.state out.new) (shared_nodes_bytes stacks nodes.now shares.now)) }
    ensures part { OnErr result
        (Refuses (S.state out.old) (S.state out.new) (shared_nodes_bytes stacks nodes.now shares.now)) }
    ensures kept { SinkKept (S.state out.old) (S.state out.new) }
{
    for (node, share) in nodes.iter().zip(shares.iter()) {
        write_shared_node(out, node, *share, stacks)?;
    }
    Ok(())
}

// The share of the node after these: the number of the state that it shares, or 0 where it writes its
// own, which is then among those written.
fn plan_share(written: &mut Written, before: &[Node], node: &Node) -> Result<u32, NoMemory>
    requires written { IsWritten before.now written.old }
    requires few { length before.now < most_nodes }
    ensures next { IfOk result (PlansNext before.now node.now written.old written.new) }
{
    match written.find(before, &node.state) {
        Found::At(share) => Ok(share),
        Found::Gap(gap) => {
            written.add(before.len() as u32, gap)?;
            Ok(0)
        }
    }
}

// The shares of the nodes.
fn plan_shares(alloc: Global, nodes: &[Node]) -> Result<Vec<u32>, NoMemory>
    requires few { length nodes.now ≤ most_nodes }
    ensures shares { IfOk result (λ shares. shares.items ≡ shares_of nodes.now) }
{
    let mut shares = Vec::new(alloc);
    let mut written = Written::new(alloc);
    for i in 0..nodes.len() {
        shares.push(plan_share(&mut written, &nodes[..i], &nodes[i])?)?;
    }
    Ok(shares)
}

// The certificate in version 2, whose nodes have these shares.
fn write_with_shares<S: Sink>(out: &mut S, cert: &Certificate, shares: &[u32]) -> Result<(), Failed>
    requires spelling { HasSpelling cert.now }
    requires shares { shares.now ≡ shares_of cert.now.nodes }
    ensures all { OnOk result (Writes (S.state out.old) (S.state out.new) (CertBytes2 cert.now)) }
    ensures part { OnErr result (Refuses (S.state out.old) (S.state out.new) (CertBytes2 cert.now)) }
    ensures kept { SinkKept (S.state out.old) (S.state out.new) }
{
    write_contexts(out, cert, SHARED)?;
    write_shared_nodes(out, cert.nodes.as_slice(), shares, cert.stacks)
}

/// Writes a certificate in version 2. All memory is taken before the first write.
pub fn write_cert2<S: Sink>(alloc: Global, out: &mut S, cert: &Certificate) -> Result<(), WriteEnd>
    requires spelling { HasSpelling cert.now }
    ensures all { OnOk result (Writes (S.state out.old) (S.state out.new) (CertBytes2 cert.now)) }
    ensures end { IfErr result (EndsBy (S.state out.old) (S.state out.new) (CertBytes2 cert.now)) }
    ensures kept { SinkKept (S.state out.old) (S.state out.new) }
{
    let shares = plan_shares(alloc, cert.nodes.as_slice())?;
    write_with_shares(out, cert, &shares)?;
    Ok(())
}
