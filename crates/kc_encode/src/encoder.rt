//! The encoder: the chosen spelling of an instruction (Intel SDM vol. 2, "Instruction Format").

ghost use Rattle.std.specs.Prelude.{◌≡◌, ◌++◌, ◌↔◌, IsTrue, false, OnOk, IfOk, Err};
ghost use Rattle.kc_insn.specs.Encodable.{is_encodable};
ghost use Rattle.kc_insn.specs.Spells.{Spells};
ghost use Rattle.kc_encode.specs.Canonical.{canonical_bytes, reaches as reaches_target};
ghost use Rattle.kc_encode.specs.declared.fault.EncodeFault.TheVariants.{OutOfReach};

use crate::fault::EncodeFault;
use crate::forms::{put_arithmetic, put_bit, put_mov, put_pop, put_push, put_test};
use crate::jump::{put_distance, reaches};
use crate::opcode::{put_on_register, put_with_register};
use kc_decode::decode;
use kc_insn::{Insn, Place};
use kc_plain::NoMemory;
use std::alloc::Global;

fn put_bytes(out: &mut Vec<u8>, bytes: &[u8]) -> Result<(), NoMemory>
    ensures { OnOk result (out.new.items ≡ out.old.items ++ bytes.now) }
{
    out.extend_from_slice(bytes)?;
    Ok(())
}

/// Writes the bytes of an instruction.
#[tactic(auto, unfolding(crate::specs::Canonical::canonical_bytes))]
fn put_insn(out: &mut Vec<u8>, insn: Insn, at: u64) -> Result<(), NoMemory>
    requires encodable { IsTrue (is_encodable insn) }
    requires reached { IsTrue (reaches_target insn at) }
    ensures { OnOk result (out.new.items ≡ out.old.items ++ canonical_bytes insn at) }
{
    match insn {
        Insn::Nop => put_bytes(out, &[0x90]),
        Insn::Endbr64 => put_bytes(out, &[0xF3, 0x0F, 0x1E, 0xFA]),
        Insn::Lfence => put_bytes(out, &[0x0F, 0xAE, 0xE8]),
        Insn::Ud2 => put_bytes(out, &[0x0F, 0x0B]),
        Insn::Cld => put_bytes(out, &[0xFC]),
        Insn::Clac => put_bytes(out, &[0x0F, 0x01, 0xCA]),
        Insn::Stac => put_bytes(out, &[0x0F, 0x01, 0xCB]),
        Insn::Cli => put_bytes(out, &[0xFA]),
        Insn::Sti => put_bytes(out, &[0xFB]),
        Insn::Swapgs => put_bytes(out, &[0x0F, 0x01, 0xF8]),
        Insn::Sysretq => put_bytes(out, &[0x48, 0x0F, 0x07]),
        Insn::Iretq => put_bytes(out, &[0x48, 0xCF]),
        Insn::Rdmsr => put_bytes(out, &[0x0F, 0x32]),
        Insn::Wrmsr => put_bytes(out, &[0x0F, 0x30]),
        Insn::Pushfq => put_bytes(out, &[0x9C]),
        Insn::Popfq => put_bytes(out, &[0x9D]),
        Insn::Ret => put_bytes(out, &[0xC3]),
        Insn::ReadCr3(r) => put_on_register(out, false, &[0x0F, 0x20], 3, r),
        Insn::WriteCr3(r) => put_on_register(out, false, &[0x0F, 0x22], 3, r),
        Insn::ReadGs(r) => {
            out.push(0xF3)?;
            put_on_register(out, true, &[0x0F, 0xAE], 1, r)
        }
        Insn::WriteGs(r) => {
            out.push(0xF3)?;
            put_on_register(out, true, &[0x0F, 0xAE], 3, r)
        }
        Insn::Mov(w, p, s) => put_mov(out, w, p, s),
        Insn::Lea(w, r, m) => put_with_register(out, w, 0x8D, r, Place::Mem(m)),
        Insn::Xchg(w, p, r) => put_with_register(out, w, 0x87, r, p),
        Insn::Push(s) => put_push(out, s),
        Insn::Pop(p) => put_pop(out, p),
        Insn::Alu(op, w, p, s) => put_arithmetic(out, op, w, p, s),
        Insn::Test(w, p, s) => put_test(out, w, p, s),
        Insn::Bit(op, w, p, n) => put_bit(out, op, w, p, n),
        Insn::Jcc(c, target) => {
            put_bytes(out, &[0x0F, 0x80 + c])?;
            put_distance(out, at, 6, target)
        }
        Insn::Jmp(target) => {
            out.push(0xE9)?;
            put_distance(out, at, 5, target)
        }
        Insn::Call(target) => {
            out.push(0xE8)?;
            put_distance(out, at, 5, target)
        }
    }
}

/// The chosen bytes are a spelling of the grammar.
pub(crate) fn is_spelled(insn: Insn, at: u64)
    requires encodable { IsTrue (is_encodable insn) }
    requires reached { IsTrue (reaches_target insn at) }
    ensures { Spells (canonical_bytes insn at) at insn }
{}

/// The chosen spelling of an encodable instruction at address `at`, 1 to 15 bytes. Targets are
/// absolute, and distances are taken modulo 2^64.
pub fn encode(alloc: Global, insn: &Insn, at: u64) -> Result<Vec<u8>, EncodeFault>
    requires encodable { IsTrue (is_encodable insn.now) }
    ensures bytes { IfOk result (λ v. v.items ≡ canonical_bytes insn.now at) }
    // These bytes spell the instruction.
    ensures spelled { IfOk result (λ v. Spells v.items at insn.now) }
    // The target's distance isn't a signed 32-bit number.
    ensures out_of_reach { (result ≡ Err OutOfReach) ↔ (reaches_target insn.now at ≡ false) }
{
    if !reaches(*insn, at) {
        return Err(EncodeFault::OutOfReach);
    }
    is_spelled(*insn, at);
    let mut out = Vec::new(alloc);
    match put_insn(&mut out, *insn, at) {
        Ok(()) => Ok(out),
        Err(NoMemory) => Err(EncodeFault::NoMemory),
    }
}

/// Encoding and decoding again gives the instruction back.
pub fn round_trip(alloc: Global, insn: &Insn, at: u64) -> Result<Insn, EncodeFault>
    requires encodable { IsTrue (is_encodable insn.now) }
    ensures found { IfOk result (λ found. found ≡ insn.now) }
    // The target's distance isn't a signed 32-bit number.
    ensures out_of_reach { (result ≡ Err OutOfReach) ↔ (reaches_target insn.now at ≡ false) }
{
    let bytes = encode(alloc, insn, at)?;
    match decode(&bytes, at) {
        Ok((found, _)) => Ok(found),
        Err(_) => unreachable!(),
    }
}
