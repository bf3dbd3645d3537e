//! Jcc, JMP, CALL and RET (Intel SDM vol. 2).

ghost use Rattle.std.specs.Prelude.{◌≡◌, Option, ℕ};
ghost use Rattle.kc_exec.specs.Effect.{row, called_mode, kept_registers};
ghost use Rattle.kc_insn.specs.declared.insn.Insn.TheVariants.{Jcc, Jmp, Call as CallTo, Ret};

use crate::before::Before;
use crate::executed::{Executed, go_to};
use crate::flags::condition_holds;
use crate::log::Log;
use crate::register::value_of;
use kc_cpu::{Call, Cpu, Mode};
use kc_insn::Reg;

#[tactic(auto, unfolding(crate::specs::Effect::row))]
pub(crate) fn jcc(m: &Before, code: u8, target: u64) -> Executed
    ensures { result ≡ row m.now (Jcc code target) }
{
    let to = if condition_holds(code, m.cpu.flags) {
        target
    } else {
        m.next
    };
    go_to(m, to, *m.cpu, Log::new(), None)
}

#[tactic(auto, unfolding(crate::specs::Effect::row))]
pub(crate) fn jmp(m: &Before, target: u64) -> Executed
    ensures { result ≡ row m.now (Jmp target) }
{
    go_to(m, target, *m.cpu, Log::new(), None)
}

// RBX, RBP and R12 to R15.
fn kept(cpu: &Cpu) -> [u64; 6]
    ensures { result ≡ kept_registers cpu.now }
{
    [
        value_of(cpu, Reg::RBX),
        value_of(cpu, Reg::RBP),
        value_of(cpu, Reg::R12),
        value_of(cpu, Reg::R13),
        value_of(cpu, Reg::R14),
        value_of(cpu, Reg::R15),
    ]
}

// The mode after a call, inside the handler that begins at its target, where there is one.
fn mode_after_call(m: &Before, handler: Option<u16>) -> Mode
    ensures { result ≡ called_mode m.now handler }
{
    match handler {
        None => m.cpu.mode,
        Some(handler) => Mode::Inside(Call {
            handler,
            rsp: m.rsp_after_push(),
            back: m.next,
            flags: m.cpu.flags,
            kept: kept(m.cpu),
        }),
    }
}

#[tactic(auto, unfolding(crate::specs::Effect::row))]
pub(crate) fn call(m: &Before, target: u64) -> Executed
    ensures { result ≡ row m.now (CallTo target) }
{
    let cfg = m.cfg;
    let mut cpu = m.push_rsp();
    cpu.mode = mode_after_call(m, cfg.handler_of(target));
    go_to(m, target, cpu, Log::new(), m.push(m.next))
}

#[tactic(auto, unfolding(crate::specs::Effect::row))]
pub(crate) fn ret(m: &Before) -> Executed
    ensures { result ≡ row m.now Ret }
{
    go_to(m, m.word(0), m.pop_rsp(), Log::of(m.word_read(0)), None)
}
