//! The instruction that an image spells at an address.

ghost use Rattle.std.specs.Prelude.{◌≡◌, ◌≤◌, ℕ, Option, IfSome};
ghost use Rattle.kc_insn.specs.declared.insn.Insn.{Insn as InsnValue};
ghost use Rattle.kc_events.specs.Fetched.{IsAt};

use kc_decode::decode;
use kc_image::Image;
use kc_insn::Insn;

/// The instruction that the image's bytes spell at this address and the number of its bytes, 1 to
/// 15, whatever the regions say. None where they spell none.
pub fn fetch(image: &Image, at: u64) -> Option<(Insn, u8)>
    ensures spelled { IsAt image.now at result }
    // No other instruction is there.
    ensures only { (found : Option (InsnValue × ℕ)) → IsAt image.now at found → found ≡ result }
    ensures length { IfSome result (λ x. (1 ≤ x.1) × (x.1 ≤ 15)) }
{
    let mut bytes = [0; 15];
    let count = image.bytes_at(at, &mut bytes);
    match decode(&bytes[..count], at) {
        Ok(found) => Some(found),
        Err(_) => None,
    }
}
