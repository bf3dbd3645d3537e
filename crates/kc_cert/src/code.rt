//! The instruction at an address, as the conditions read it.

ghost use Rattle.std.specs.Prelude.{◌≡◌, ◌≤◌, ℕ, true, take, length, Option, None, IfSome};
ghost use Rattle.kc_decode.specs.Reading.{decode_at};
ghost use Rattle.kc_insn.specs.Encodable.{is_encodable};
ghost use Rattle.kc_insn.specs.Spells.{Spells};
ghost use Rattle.kc_insn.specs.declared.insn.Insn.{Insn as InsnValue};
ghost use Rattle.kc_events.specs.Fetched.{IsAt};
ghost use Rattle.kc_cert.specs.Code.{insn_at, what_is_read};

use kc_decode::decode;
use kc_image::Image;
use kc_insn::Insn;

// The instruction that a prefix of the bytes spells.
fn read(bytes: &[u8], at: u64) -> Option<(Insn, u8)>
    ensures value { result ≡ what_is_read (decode_at bytes.now at) }
    ensures spelled { IfSome result (λ x. (x.1 ≤ length bytes.now) × Spells (take x.1 bytes.now) at x.0) }
    ensures absent { result ≡ None
        → (n : ℕ) (insn : InsnValue) → n ≤ length bytes.now → ¬ Spells (take n bytes.now) at insn }
    ensures length { IfSome result (λ x. (1 ≤ x.1) × (x.1 ≤ 15)) }
{
    match decode(bytes, at) {
        Ok(found) => Some(found),
        Err(_) => None,
    }
}

/// The instruction that the image's bytes spell at this address, and the number of its bytes, 1 to 15,
/// whatever the regions say. None where they spell none.
pub fn insn_at(image: &Image, at: u64) -> Option<(Insn, u8)>
    ensures value { result ≡ insn_at image.now at }
    ensures spelled { IsAt image.now at result }
    ensures length { IfSome result (λ x. (1 ≤ x.1) × (x.1 ≤ 15)) }
    ensures encodable { IfSome result (λ x. is_encodable x.0 ≡ true) }
{
    let mut bytes = [0; 15];
    let count = image.bytes_at(at, &mut bytes);
    read(&bytes[..count], at)
}
