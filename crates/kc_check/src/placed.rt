//! A node of a certificate as its conditions read it.

ghost use Rattle.std.specs.Prelude.{◌≡◌, option_map};
ghost use Rattle.kc_cert.specs.Certified.{placed};
ghost use Rattle.kc_cert.specs.Code.{insn_at};

use kc_cert::{Context, Node};
use kc_image::Image;
use kc_placed::PlacedNode;

/// The node with the instruction at its site, where the image's bytes spell one.
pub(crate) fn place<'a>(
    image: &Image,
    context: &'a Context,
    node: &'a Node,
) -> Option<PlacedNode<'a>>
    ensures { result ≡ option_map (placed context.now node.now) (insn_at image.now node.now.site.at) }
{
    kc_placed::place(image, &context.key, node.site, &node.state)
}
