//! The records of a certificate: its head, a context, and a node in either version.

ghost use Rattle.std.specs.Prelude.{◌≡◌, ◌+◌, ◌≤◌, cond, length};
ghost use Rattle.kc_plain.specs.Appended.{Appended};
ghost use Rattle.kc_certfields.specs.Room.{HasRoom};
ghost use Rattle.kc_certform.specs.CertBytes.{context_bytes, head_bytes, position_bytes, node_bytes};
ghost use Rattle.kc_certform.specs.HasSpelling.{HasSpelling};
ghost use Rattle.kc_certwrite.specs.ShareSteps.{share_text, shared_node_bytes};

use kc_cert::{Certificate, Context, Node};
use kc_certfields::{
    Record, put_bytes, put_key, put_state, put_summary, put_u8, put_u32, put_u64, put_user,
};
use kc_certform::MAGIC;
use kc_state::AbsState;

/// Adds what stands before the contexts, and their count.
pub(crate) fn put_head(out: &mut Record, cert: &Certificate, version: u32)
    requires spelling { HasSpelling cert.now }
    requires room { HasRoom out.old.items 9261 }
    ensures text { Appended out.old.items out.new.items (head_bytes version cert.now) }
{
    put_bytes(out, &MAGIC);
    put_u32(out, version);
    put_bytes(out, &cert.digests.image);
    put_bytes(out, &cert.digests.config);
    put_u8(out, cert.stacks);
    put_user(out, &cert.user);
    put_u32(out, cert.contexts.len() as u32);
}

/// Adds a context.
pub(crate) fn put_context(out: &mut Record, context: &Context)
    requires room { HasRoom out.old.items 30 }
    ensures text { Appended out.old.items out.new.items (context_bytes context.now) }
{
    put_key(out, &context.key);
    put_summary(out, &context.summary);
}

// 1 for true.
fn bit(b: bool) -> u8
    ensures value { result ≡ cond b 1 0 }
{
    if b { 1 } else { 0 }
}

/// Adds a node's context and site.
fn put_position(out: &mut Record, node: &Node)
    requires room { HasRoom out.old.items 13 }
    ensures text { Appended out.old.items out.new.items (position_bytes node.now) }
    ensures len { length out.new.items ≡ length out.old.items + 13 }
{
    put_u32(out, node.context);
    put_u64(out, node.site.at);
    put_u8(out, bit(node.site.inside));
}

/// Adds a node with its state.
pub(crate) fn put_node(out: &mut Record, node: &Node, stacks: u8)
    requires stacks { stacks ≤ 16 }
    requires room { HasRoom out.old.items 9833 }
    ensures text { Appended out.old.items out.new.items (node_bytes stacks node.now) }
{
    put_position(out, node);
    put_state(out, &node.state, stacks);
}

/// Adds a share, and after 0 the state.
fn put_share(out: &mut Record, share: u32, state: &AbsState, stacks: u8)
    requires stacks { stacks ≤ 16 }
    requires room { HasRoom out.old.items 9824 }
    ensures text { Appended out.old.items out.new.items (share_text stacks state.now share) }
{
    put_u32(out, share);
    if share == 0 {
        put_state(out, state, stacks);
    }
}

/// Adds a node with its share.
pub(crate) fn put_shared_node(out: &mut Record, node: &Node, share: u32, stacks: u8)
    requires stacks { stacks ≤ 16 }
    requires room { HasRoom out.old.items 9837 }
    ensures text { Appended out.old.items out.new.items (shared_node_bytes stacks node.now share) }
{
    put_position(out, node);
    put_share(out, share, &node.state, stacks);
}
