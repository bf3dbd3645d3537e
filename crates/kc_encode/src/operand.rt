//! ModRM, SIB and displacement in 64-bit mode (Intel SDM vol. 2, "ModR/M and SIB Bytes").

ghost use Rattle.std.specs.Prelude.{◌≡◌, ◌++◌, ◌∷◌, ◌<◌, IsTrue, OnOk};
ghost use Rattle.kc_insn.specs.declared.insn.Base.TheVariants.{Reg as OnRegister};
ghost use Rattle.kc_encode.specs.Canonical.{is_signed_byte as signed_byte, low as low_bits, mode as mode_field, modrm as modrm_byte, disp_bytes, scale_field as scale_bits, sib as sib_byte, needs_sib as sib_needed, memory as memory_bytes, operand as operand_bytes, gs as gs_prefix, index_high as index_bit, base_high as base_bit, x_of as x_bit, b_of as b_bit};

use crate::number::is_signed_byte;
use crate::rex::{high, low};
use kc_insn::{Base, Mem, Place, Reg};
use kc_plain::NoMemory;

/// The mod field for a displacement from a base register.
#[tactic(auto, unfolding(crate::specs::Canonical::mode))]
fn mode(r: Reg, disp: i32) -> u8
    ensures is { result ≡ mode_field r disp }
    ensures below { result < 3 }
    ensures byte { result ≡ 1 → IsTrue (signed_byte disp) }
{
    if disp == 0 && low(r) != 5 {
        0
    } else if is_signed_byte(i64::from(disp)) {
        1
    } else {
        2
    }
}

#[tactic(auto, unfolding(crate::specs::Canonical::disp_bytes, crate::specs::Canonical::is_signed_byte, crate::specs::Canonical::four_bytes))]
fn put_disp(out: &mut Vec<u8>, mode: u8, disp: i32) -> Result<(), NoMemory>
    requires { mode ≡ 1 → IsTrue (signed_byte disp) }
    ensures { OnOk result (out.new.items ≡ out.old.items ++ disp_bytes mode disp) }
{
    if mode == 0 {
        return Ok(());
    }
    if mode == 1 {
        out.push((disp as i8).cast_unsigned())?;
        return Ok(());
    }
    out.extend_from_slice(&disp.to_le_bytes())?;
    Ok(())
}

fn modrm(mode: u8, reg: u8, rm: u8) -> u8
    requires mode { mode < 4 }
    requires reg { reg < 8 }
    requires rm { rm < 8 }
    ensures { result ≡ modrm_byte mode reg rm }
{
    64 * mode + 8 * reg + rm
}

fn scale_field(scale: u8) -> u8
    ensures is { result ≡ scale_bits scale }
    ensures below { result < 4 }
{
    if scale == 1 {
        0
    } else if scale == 2 {
        1
    } else if scale == 4 {
        2
    } else {
        3
    }
}

#[tactic(auto, unfolding(crate::specs::Canonical::sib))]
fn sib(index: Option<(Reg, u8)>, field: u8) -> u8
    requires { field < 8 }
    ensures { result ≡ sib_byte index field }
{
    match index {
        None => 8 * 4 + field,
        Some((r, scale)) => 64 * scale_field(scale) + 8 * low(r) + field,
    }
}

#[tactic(auto, unfolding(crate::specs::Canonical::needs_sib))]
fn needs_sib(r: Reg, index: Option<(Reg, u8)>) -> bool
    ensures { result ≡ sib_needed r index }
{
    match index {
        None => low(r) == 4,
        Some(_) => true,
    }
}

fn put_with_sib(out: &mut Vec<u8>, reg: u8, r: Reg, mem: Mem) -> Result<(), NoMemory>
    requires { reg < 8 }
    ensures { OnOk result (out.new.items ≡ out.old.items
        ++ modrm_byte (mode_field r mem.disp) reg 4 ∷ sib_byte mem.index (low_bits r) ∷ disp_bytes (mode_field r mem.disp) mem.disp) }
{
    let mode = mode(r, mem.disp);
    out.push(modrm(mode, reg, 4))?;
    out.push(sib(mem.index, low(r)))?;
    put_disp(out, mode, mem.disp)
}

fn put_without_sib(out: &mut Vec<u8>, reg: u8, r: Reg, disp: i32) -> Result<(), NoMemory>
    requires { reg < 8 }
    ensures { OnOk result (out.new.items ≡ out.old.items
        ++ modrm_byte (mode_field r disp) reg (low_bits r) ∷ disp_bytes (mode_field r disp) disp) }
{
    let mode = mode(r, disp);
    out.push(modrm(mode, reg, low(r)))?;
    put_disp(out, mode, disp)
}

/// Writes the bytes of a memory operand whose address begins at what a register holds.
#[tactic(auto, unfolding(crate::specs::Canonical::memory))]
fn put_based(out: &mut Vec<u8>, reg: u8, r: Reg, mem: Mem) -> Result<(), NoMemory>
    requires { reg < 8 }
    ensures { OnOk result (out.new.items ≡ out.old.items ++ memory_bytes reg (OnRegister r) mem.index mem.disp) }
{
    if needs_sib(r, mem.index) {
        put_with_sib(out, reg, r, mem)
    } else {
        put_without_sib(out, reg, r, mem.disp)
    }
}

#[tactic(auto, unfolding(crate::specs::Canonical::memory, crate::specs::Canonical::four_bytes))]
fn put_memory(out: &mut Vec<u8>, reg: u8, mem: Mem) -> Result<(), NoMemory>
    requires { reg < 8 }
    ensures { OnOk result (out.new.items ≡ out.old.items ++ memory_bytes reg mem.base mem.index mem.disp) }
{
    match mem.base {
        Base::Rip => {
            out.push(modrm(0, reg, 5))?;
            out.extend_from_slice(&mem.disp.to_le_bytes())?;
            Ok(())
        }
        Base::Absent => {
            out.push(modrm(0, reg, 4))?;
            out.push(sib(mem.index, 5))?;
            out.extend_from_slice(&mem.disp.to_le_bytes())?;
            Ok(())
        }
        Base::Reg(r) => put_based(out, reg, r, mem),
    }
}

/// Writes the ModRM byte with this reg field, the SIB byte and the displacement.
#[tactic(auto, unfolding(crate::specs::Canonical::operand))]
pub fn put_operand(out: &mut Vec<u8>, reg: u8, rm: Place) -> Result<(), NoMemory>
    requires { reg < 8 }
    ensures { OnOk result (out.new.items ≡ out.old.items ++ operand_bytes reg rm) }
{
    match rm {
        Place::Reg(r) => {
            out.push(modrm(3, reg, low(r)))?;
            Ok(())
        }
        Place::Mem(mem) => put_memory(out, reg, mem),
    }
}

/// Whether the prefix 65 stands.
pub fn gs(rm: Place) -> bool
    ensures { result ≡ gs_prefix rm }
{
    match rm {
        Place::Reg(_) => false,
        Place::Mem(mem) => mem.gs,
    }
}

fn index_high(index: Option<(Reg, u8)>) -> bool
    ensures { result ≡ index_bit index }
{
    match index {
        None => false,
        Some((r, _)) => high(r),
    }
}

fn base_high(base: Base) -> bool
    ensures { result ≡ base_bit base }
{
    match base {
        Base::Absent | Base::Rip => false,
        Base::Reg(r) => high(r),
    }
}

/// REX.X.
pub fn x_of(rm: Place) -> bool
    ensures { result ≡ x_bit rm }
{
    match rm {
        Place::Reg(_) => false,
        Place::Mem(mem) => index_high(mem.index),
    }
}

/// REX.B.
pub fn b_of(rm: Place) -> bool
    ensures { result ≡ b_bit rm }
{
    match rm {
        Place::Reg(r) => high(r),
        Place::Mem(mem) => base_high(mem.base),
    }
}
