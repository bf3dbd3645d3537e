//! Jcc, JMP, CALL, RET, SYSRETQ and IRETQ (Intel SDM vol. 2).

ghost use Rattle.std.specs.Prelude.{◌≡◌};
ghost use Rattle.kc_insn.specs.declared.insn.Insn.TheVariants.{Jcc, Jmp, Call, Ret, Sysretq, Iretq};
ghost use Rattle.kc_value.specs.Made.{IsPlace};
ghost use Rattle.kc_state.specs.AbsEffect.{abs_row, branch, jump_or_fall, call_or_jump};

use crate::changed::{Changed, go};
use crate::flags::condition_holds;
use crate::stack::{push_of, push_rsp, stack_word};
use kc_space::Tri;
use kc_state::{Moment, Succ, number_value, pop_rsp};

fn branch(holds: Tri, target: u64) -> Succ
    ensures { result ≡ branch holds target }
{
    match holds {
        Tri::Yes => Succ::Jumps(target),
        Tri::No => Succ::Falls,
        Tri::Any => Succ::Branches(target),
    }
}

#[tactic(auto, unfolding(kc_state::specs::AbsEffect::abs_row))]
pub(crate) fn jcc(m: &Moment, code: u8, target: u64) -> Changed
    ensures { result ≡ abs_row m.now (Jcc code target) }
{
    let cpu = m.cpu;
    go(
        m,
        branch(condition_holds(code, &cpu.flags.bits), target),
        m.cpu,
        None,
    )
}

#[tactic(auto, unfolding(kc_state::specs::AbsEffect::abs_row))]
pub(crate) fn jmp(m: &Moment, target: u64) -> Changed
    ensures { result ≡ abs_row m.now (Jmp target) }
{
    go(m, Succ::Jumps(target), m.cpu, None)
}

fn call_or_jump(target: u64, handler: Option<u16>) -> Succ
    ensures { result ≡ call_or_jump target handler }
{
    match handler {
        Some(h) => Succ::Calls(h),
        None => Succ::Jumps(target),
    }
}

#[tactic(auto, unfolding(kc_state::specs::AbsEffect::abs_row))]
pub(crate) fn call(m: &Moment, target: u64) -> Changed
    requires { IsPlace m.now.key.stack }
    ensures { result ≡ abs_row m.now (Call target) }
{
    let cfg = m.cfg;
    go(
        m,
        call_or_jump(target, cfg.handler_of(target)),
        &push_rsp(m),
        push_of(m, &number_value(m.cfg, m.next)),
    )
}

fn jump_or_fall(target: Option<u64>) -> Succ
    ensures { result ≡ jump_or_fall target }
{
    match target {
        Some(target) => Succ::Jumps(target),
        None => Succ::Falls,
    }
}

#[tactic(auto, unfolding(kc_state::specs::AbsEffect::abs_row))]
pub(crate) fn ret(m: &Moment) -> Changed
    ensures { result ≡ abs_row m.now Ret }
{
    go(
        m,
        jump_or_fall(stack_word(m).bits.single()),
        &pop_rsp(m),
        None,
    )
}

#[tactic(auto, unfolding(kc_state::specs::AbsEffect::abs_row))]
pub(crate) fn sysretq(m: &Moment) -> Changed
    ensures { result ≡ abs_row m.now Sysretq }
{
    go(m, Succ::Returns, m.cpu, None)
}

#[tactic(auto, unfolding(kc_state::specs::AbsEffect::abs_row))]
pub(crate) fn iretq(m: &Moment) -> Changed
    ensures { result ≡ abs_row m.now Iretq }
{
    go(m, Succ::Returns, m.cpu, None)
}
