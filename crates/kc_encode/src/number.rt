//! Numbers in an instruction's bytes (Intel SDM vol. 2, "Displacement and Immediate Bytes").

ghost use Rattle.std.specs.Prelude.{◌≡◌, IsTrue, ◌++◌, ◌∷◌, [], OnOk};
ghost use Rattle.std.specs.Int.{w8, w32, cast_unsigned};
ghost use Rattle.kc_insn.specs.Encodable.{is_immediate, is_signed_long};
ghost use Rattle.kc_encode.specs.Canonical.{is_signed_byte as signed_byte, signed_at as signed_value, one_byte, four_bytes, eight_bytes};

use kc_plain::NoMemory;
use kc_words::Width;

/// Whether a sign-extended byte can hold the number.
#[tactic(auto, unfolding(crate::specs::Canonical::is_signed_byte))]
pub fn is_signed_byte(z: i64) -> bool
    ensures { result ≡ signed_byte z }
{
    -128 <= z && z < 128
}

/// Whether four sign-extended bytes can hold the number.
pub fn is_signed_number(z: i64) -> bool
    ensures { result ≡ is_signed_long z }
{
    -2_147_483_648 <= z && z < 2_147_483_648
}

/// The signed number whose lowest bits are those of an immediate.
#[tactic(auto, unfolding(crate::specs::Canonical::signed_at))]
pub fn signed_at(w: Width, z: i64) -> i64
    requires { IsTrue (is_immediate w z) }
    ensures { result ≡ signed_value w z }
{
    match w {
        Width::Quad => z,
        Width::Byte | Width::Long => i64::from((z as u32).cast_signed()),
    }
}

/// Writes a number in one byte.
#[tactic(auto, unfolding(crate::specs::Canonical::is_signed_byte))]
pub fn put_byte(out: &mut Vec<u8>, z: i64) -> Result<(), NoMemory>
    requires { IsTrue (signed_byte z) }
    ensures { OnOk result (out.new.items ≡ out.old.items ++ one_byte z) }
{
    out.push((z as i8).cast_unsigned())?;
    Ok(())
}

/// Writes a signed number in four bytes.
#[tactic(auto, unfolding(crate::specs::Canonical::four_bytes))]
pub fn put_signed(out: &mut Vec<u8>, z: i64) -> Result<(), NoMemory>
    requires { IsTrue (is_signed_long z) }
    ensures { OnOk result (out.new.items ≡ out.old.items ++ four_bytes z) }
{
    out.extend_from_slice(&(z as i32).to_le_bytes())?;
    Ok(())
}

/// Writes an operand's immediate in four bytes.
#[tactic(auto, unfolding(crate::specs::Canonical::four_bytes))]
pub fn put_immediate(out: &mut Vec<u8>, w: Width, z: i64) -> Result<(), NoMemory>
    requires { IsTrue (is_immediate w z) }
    ensures { OnOk result (out.new.items ≡ out.old.items ++ four_bytes z) }
{
    match w {
        Width::Quad => put_signed(out, z),
        Width::Byte | Width::Long => {
            out.extend_from_slice(&(z as u32).to_le_bytes())?;
            Ok(())
        }
    }
}

/// Writes a number in eight bytes.
#[tactic(auto, unfolding(crate::specs::Canonical::eight_bytes))]
pub fn put_quad(out: &mut Vec<u8>, z: i64) -> Result<(), NoMemory>
    ensures { OnOk result (out.new.items ≡ out.old.items ++ eight_bytes z) }
{
    out.extend_from_slice(&z.to_le_bytes())?;
    Ok(())
}
