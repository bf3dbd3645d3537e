//! The table of what is known after each instruction: the instruction and the function that does it.

ghost use Rattle.std.specs.Prelude.{◌≡◌, true};
ghost use Rattle.kc_insn.specs.Encodable.{is_encodable};
ghost use Rattle.kc_value.specs.Made.{IsPlace};
ghost use Rattle.kc_state.specs.AbsEffect.{abs_row};

use crate::arithmetic::{alu, bit, test};
use crate::branches::{call, iretq, jcc, jmp, ret, sysretq};
use crate::changed::{Changed, go_on};
use crate::moves::{lea, mov, xchg};
use crate::stack::{pop, popfq, push, pushfq};
use crate::system::{
    clac, cld, cli, rdmsr, read_cr3, read_gs, stac, sti, swapgs, write_cr3, write_gs, wrmsr,
};
use kc_insn::Insn;
use kc_state::Moment;

/// What is known after an instruction, whatever condition on it fails.
#[tactic(auto, unfolding(kc_state::specs::AbsEffect::abs_row))]
pub fn abs_row(m: &Moment, insn: &Insn) -> Changed
    requires encodable { is_encodable insn.now ≡ true }
    requires stack { IsPlace m.now.key.stack }
    ensures value { result ≡ abs_row m.now insn.now }
{
    match *insn {
        Insn::Nop | Insn::Endbr64 | Insn::Lfence | Insn::Ud2 => go_on(m, m.cpu, None),
        Insn::Mov(w, dest, src) => mov(m, w, dest, src),
        Insn::Lea(w, dest, src) => lea(m, w, dest, src),
        Insn::Xchg(w, dest, src) => xchg(m, w, dest, src),
        Insn::Push(src) => push(m, src),
        Insn::Pop(dest) => pop(m, dest),
        Insn::Pushfq => pushfq(m),
        Insn::Popfq => popfq(m),
        Insn::Alu(op, w, dest, src) => alu(m, op, w, dest, src),
        Insn::Test(w, dest, src) => test(m, w, dest, src),
        Insn::Bit(op, w, dest, number) => bit(m, op, w, dest, number),
        Insn::Jcc(code, target) => jcc(m, code, target),
        Insn::Jmp(target) => jmp(m, target),
        Insn::Call(target) => call(m, target),
        Insn::Ret => ret(m),
        Insn::Cli => cli(m),
        Insn::Cld => cld(m),
        Insn::Clac => clac(m),
        Insn::Stac => stac(m),
        Insn::Sti => sti(m),
        Insn::Swapgs => swapgs(m),
        Insn::ReadGs(r) => read_gs(m, r),
        Insn::WriteGs(r) => write_gs(m, r),
        Insn::Rdmsr => rdmsr(m),
        Insn::Wrmsr => wrmsr(m),
        Insn::ReadCr3(r) => read_cr3(m, r),
        Insn::WriteCr3(r) => write_cr3(m, r),
        Insn::Sysretq => sysretq(m),
        Insn::Iretq => iretq(m),
    }
}
