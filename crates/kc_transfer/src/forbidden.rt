//! C9 and C11: CR3 is loaded with one of its two values, and no instruction or register number is
//! forbidden. This project's own.

ghost use Rattle.std.specs.Prelude.{◌≡◌, ◌&&◌, ◌||◌, if◌then◌else◌};
ghost use Rattle.kc_bits.specs.Bits.{bits_single};
ghost use Rattle.kc_state.specs.AbsEffect.{edx_eax, is_number, mcg_status};
ghost use Rattle.kc_state.specs.Operand.{register};
ghost use Rattle.kc_state.specs.Conditions.{loads_known_cr3, is_canonical, is_user_gs, is_base_number, is_allowed};

use crate::spaces::{
    GS_BASE, KERNEL_GS_BASE, MCG_STATUS, edx_eax, is_number, is_user_gs, map_of, msr_number,
};
use kc_bits::Bits;
use kc_insn::{Insn, Reg};
use kc_space::MapState;
use kc_state::{Moment, value_of};

// Bits 47 to 63.
const UPPER_BITS: u64 = 0xFFFF_8000_0000_0000;

// C9.
pub(crate) fn loads_known_cr3(m: &Moment, insn: &Insn) -> bool
    ensures { result ≡ loads_known_cr3 m.now insn.now }
{
    match *insn {
        Insn::WriteCr3(r) => map_of(m.cfg, value_of(m.cpu, r).bits.single()) != MapState::Any,
        _ => true,
    }
}

// Whether bits 47 to 63 are known alike.
fn is_canonical(b: &Bits) -> bool
    ensures { result ≡ is_canonical b.now }
{
    b.zeros & UPPER_BITS == UPPER_BITS || b.ones & UPPER_BITS == UPPER_BITS
}

// Whether it is the number of a GS base.
fn is_base_number(n: Option<u64>) -> bool
    ensures { result ≡ is_base_number n }
{
    is_number(GS_BASE, n) || is_number(KERNEL_GS_BASE, n)
}

fn may_write_msr(m: &Moment, n: Option<u64>) -> bool
    ensures { result ≡ (if is_base_number n then is_canonical (edx_eax m.now.cpu) else
        (is_number mcg_status n && is_number 0 (bits_single (edx_eax m.now.cpu)))) }
{
    let value = edx_eax(m.cpu);
    if is_base_number(n) {
        is_canonical(&value)
    } else {
        is_number(MCG_STATUS, n) && is_number(0, value.single())
    }
}

fn may_write_gs(m: &Moment, r: Reg) -> bool
    ensures { result ≡ (is_user_gs (register m.now.cpu r).sym || is_canonical (register m.now.cpu r).bits) }
{
    let v = value_of(m.cpu, r);
    is_user_gs(v.sym) || is_canonical(&v.bits)
}

// C11.
pub(crate) fn is_allowed(m: &Moment, insn: &Insn) -> bool
    ensures { result ≡ is_allowed m.now insn.now }
{
    match *insn {
        Insn::Ud2 => false,
        Insn::Rdmsr => {
            let n = msr_number(m.cpu);
            is_base_number(n) || is_number(MCG_STATUS, n)
        }
        Insn::Wrmsr => may_write_msr(m, msr_number(m.cpu)),
        Insn::WriteGs(r) => may_write_gs(m, r),
        Insn::Sysretq => {
            let key = m.key;
            key.syscall
        }
        _ => true,
    }
}
