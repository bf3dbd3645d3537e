//! Which contexts return. This project's own.

ghost use Rattle.std.specs.Prelude.{◌≡◌, ℕ, ◌<◌, All, false, replicate, slice_index_or, slice_set, true};
ghost use Rattle.kc_cert.specs.Conditions.{is_return_node, returns};

use kc_cert::{Certificate, MAX_CONTEXTS, Node, insn_at};
use kc_image::Image;
use kc_placed::is_return_insn;
use std::marker::Model;

// Whether the image has an IRETQ or a SYSRETQ at the node.
fn is_return_node(image: &Image, node: &Node) -> bool
    ensures { result ≡ is_return_node image.now node.now }
{
    if node.site.inside {
        return false;
    }
    match insn_at(image, node.site.at) {
        Some((insn, _)) => is_return_insn(&insn),
        None => false,
    }
}

/// For each context whether it returns.
#[derive(Drop)]
pub(crate) struct Returning {
    marks: [bool; MAX_CONTEXTS],
}

impl Model for Returning {
    ghost use Rattle.std.specs.Prelude.{List, Bool};

    ghost Value = { List Bool };

    ghost view = { λ r. r.marks };
}

impl Returning {
    pub(crate) fn of(image: &Image, cert: &Certificate) -> Returning
        requires named { All (λ n. n.context < MAX_CONTEXTS) cert.now.nodes }
        ensures marks { (i : ℕ) → slice_index_or result i false ≡ returns image.now cert.now i }
    {
        let mut all = Returning::none();
        for node in cert.nodes.as_slice() {
            if is_return_node(image, node) {
                all.mark(node.context);
            }
        }
        all
    }

    fn none() -> Returning
        ensures { result ≡ replicate MAX_CONTEXTS false }
    {
        Returning {
            marks: [false; MAX_CONTEXTS],
        }
    }

    fn mark(&mut self, i: u32)
        requires { i < MAX_CONTEXTS }
        ensures { self.new ≡ slice_set self.old i true }
    {
        self.marks[i as usize] = true;
    }

    pub(crate) fn has(&self, i: u32) -> bool
        requires { i < MAX_CONTEXTS }
        ensures { result ≡ slice_index_or self.now i false }
    {
        self.marks[i as usize]
    }
}
