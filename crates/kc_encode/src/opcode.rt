//! The opcode lines: prefixes, opcode, and the registers and operands after it (Intel SDM vol. 2,
//! "Instruction Format").

ghost use Rattle.std.specs.Prelude.{◌≡◌, ◌+◌, ◌++◌, ◌<◌, ◌≤◌, OnOk};
ghost use Rattle.kc_insn.specs.Spells.{gs_bytes};
ghost use Rattle.kc_encode.specs.Canonical.{opcode_register, with_register, with_digit, on_register};

use crate::operand::{b_of, gs, put_operand, x_of};
use crate::rex::{high, is_quad, low, put_rex, rex};
use kc_insn::{Place, Reg};
use kc_plain::NoMemory;
use kc_words::Width;

fn put_gs(out: &mut Vec<u8>, gs: bool) -> Result<(), NoMemory>
    ensures { OnOk result (out.new.items ≡ out.old.items ++ gs_bytes gs) }
{
    if gs {
        out.push(0x65)?;
    }
    Ok(())
}

/// Writes an opcode whose last three bits are a register (`+r`).
#[tactic(auto, unfolding(crate::specs::Canonical::opcode_register))]
pub fn put_opcode_register(out: &mut Vec<u8>, w: bool, opcode: u8, r: Reg) -> Result<(), NoMemory>
    requires { opcode + 8 ≤ 256 }
    ensures { OnOk result (out.new.items ≡ out.old.items ++ opcode_register w opcode r) }
{
    put_rex(out, rex(w, false, false, high(r)))?;
    out.push(opcode + low(r))?;
    Ok(())
}

/// Writes a form with a register in the reg field (`/r`).
#[tactic(auto, unfolding(crate::specs::Canonical::with_register))]
pub fn put_with_register(
    out: &mut Vec<u8>,
    w: Width,
    opcode: u8,
    reg: Reg,
    rm: Place,
) -> Result<(), NoMemory>
    ensures { OnOk result (out.new.items ≡ out.old.items ++ with_register w opcode reg rm) }
{
    put_gs(out, gs(rm))?;
    put_rex(out, rex(is_quad(w), high(reg), x_of(rm), b_of(rm)))?;
    out.push(opcode)?;
    put_operand(out, low(reg), rm)
}

/// Writes a form with an opcode extension in the reg field (`/n`).
#[tactic(auto, unfolding(crate::specs::Canonical::with_digit))]
pub fn put_with_digit(
    out: &mut Vec<u8>,
    w: Width,
    opcode: &[u8],
    n: u8,
    rm: Place,
) -> Result<(), NoMemory>
    requires { n < 8 }
    ensures { OnOk result (out.new.items ≡ out.old.items ++ with_digit w opcode.now n rm) }
{
    put_gs(out, gs(rm))?;
    put_rex(out, rex(is_quad(w), false, x_of(rm), b_of(rm)))?;
    out.extend_from_slice(opcode)?;
    put_operand(out, n, rm)
}

/// Writes such a form with a register alone.
#[tactic(auto, unfolding(crate::specs::Canonical::on_register))]
pub fn put_on_register(
    out: &mut Vec<u8>,
    w: bool,
    opcode: &[u8],
    n: u8,
    r: Reg,
) -> Result<(), NoMemory>
    requires { n < 8 }
    ensures { OnOk result (out.new.items ≡ out.old.items ++ on_register w opcode.now n r) }
{
    put_rex(out, rex(w, false, false, high(r)))?;
    out.extend_from_slice(opcode)?;
    put_operand(out, n, Place::Reg(r))
}
