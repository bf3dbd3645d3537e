//! The breaks of one instruction that no access shows: B6, B7 and B8. This project's own.

ghost use Rattle.std.specs.Prelude.{◌≡◌, IfSome, ◌<◌};
ghost use Rattle.kc_exec.specs.Breaks.{is_canonical as canonical, loads_third_cr3, may_call as call_allowed, miscalls, is_known_msr as known_msr, takes, is_forbidden, break_of};

use crate::before::Before;
use crate::register::value_of;
use crate::system::{
    GS_BASE, KERNEL_GS_BASE, MCG_STATUS, number_of, value_to_write, without_bit_63,
};
use kc_insn::Insn;

/// The numbers of the breaks.
const THIRD_CR3: u8 = 6;

const MISCALL: u8 = 7;

const FORBIDDEN: u8 = 8;

/// Whether bits 47 to 63 are alike.
pub(crate) fn is_canonical(n: u64) -> bool
    ensures { result ≡ canonical n }
{
    n < 1 << 47 || 0xFFFF_8000_0000_0000 <= n
}

fn sets_third_cr3(m: &Before, insn: &Insn) -> bool
    ensures { result ≡ loads_third_cr3 m.now insn.now }
{
    match *insn {
        Insn::WriteCr3(r) => {
            let cfg = m.cfg;
            let cr3 = without_bit_63(value_of(m.cpu, r));
            !(cr3 == cfg.cpu.kernel_cr3 || cr3 == cfg.cpu.user_cr3)
        }
        _ => false,
    }
}

// Whether a handler may be called: on the kernel's GS base and CR3, with RSP in a stack after the push.
fn allows_call(m: &Before) -> bool
    ensures { result ≡ call_allowed m.now }
{
    let cfg = m.cfg;
    m.cpu.gs == cfg.cpu.kernel_gs
        && (m.cpu.cr3 == cfg.cpu.kernel_cr3 && cfg.regions.stack_of(m.rsp_after_push()).is_some())
}

fn calls_wrongly(m: &Before, insn: &Insn) -> bool
    ensures { result ≡ miscalls m.now insn.now }
{
    match *insn {
        Insn::Call(target) => {
            let cfg = m.cfg;
            cfg.handler_of(target).is_some() && !allows_call(m)
        }
        _ => false,
    }
}

fn is_known_msr(number: u64) -> bool
    ensures { result ≡ known_msr number }
{
    number == GS_BASE || (number == KERNEL_GS_BASE || number == MCG_STATUS)
}

// Whether the model-specific register of this number takes the value.
fn can_take(number: u64, v: u64) -> bool
    ensures { result ≡ takes number v }
{
    if number == MCG_STATUS {
        v == 0
    } else {
        is_known_msr(number) && is_canonical(v)
    }
}

fn forbids(m: &Before, insn: &Insn) -> bool
    ensures { result ≡ is_forbidden m.now insn.now }
{
    match *insn {
        Insn::Ud2 => true,
        Insn::Rdmsr => !is_known_msr(number_of(m.cpu)),
        Insn::Wrmsr => !can_take(number_of(m.cpu), value_to_write(m.cpu)),
        Insn::WriteGs(r) => !is_canonical(value_of(m.cpu, r)),
        _ => false,
    }
}

// The number of the break, where there is one.
pub(crate) fn find_break(m: &Before, insn: &Insn) -> Option<u8>
    ensures { result ≡ break_of m.now insn.now }
{
    if sets_third_cr3(m, insn) {
        Some(THIRD_CR3)
    } else if calls_wrongly(m, insn) {
        Some(MISCALL)
    } else if forbids(m, insn) {
        Some(FORBIDDEN)
    } else {
        None
    }
}
