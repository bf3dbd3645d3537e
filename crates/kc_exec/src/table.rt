//! The effect table: each instruction and the function that does it.

ghost use Rattle.std.specs.Prelude.{◌≡◌};
ghost use Rattle.kc_exec.specs.Effect.{row};

use crate::arithmetic::{alu, bit, test};
use crate::before::Before;
use crate::branches::{call, jcc, jmp, ret};
use crate::executed::{Executed, go_on_with};
use crate::moves::{lea, mov, xchg};
use crate::returns::{iretq, sysretq};
use crate::stack::{pop, popfq, push, pushfq};
use crate::system::{
    clac, cld, cli, rdmsr, read_cr3, read_gs, stac, sti, swapgs, write_cr3, write_gs, wrmsr,
};
use kc_insn::Insn;

// What the instruction does where no break forbids it.
#[tactic(auto, unfolding(crate::specs::Effect::row))]
pub(crate) fn run_row(m: &Before, insn: &Insn) -> Executed
    ensures { result ≡ row m.now insn.now }
{
    match *insn {
        Insn::Nop | Insn::Endbr64 | Insn::Lfence | Insn::Ud2 => go_on_with(m, *m.cpu),
        Insn::Mov(w, dest, src) => mov(m, w, dest, src),
        Insn::Lea(w, dest, src) => lea(m, w, dest, src),
        Insn::Xchg(w, dest, src) => xchg(m, w, dest, src),
        Insn::Push(src) => push(m, src),
        Insn::Pop(dest) => pop(m, dest),
        Insn::Pushfq => pushfq(m),
        Insn::Popfq => popfq(m),
        Insn::Alu(op, w, dest, src) => alu(m, op, w, dest, src),
        Insn::Test(w, dest, src) => test(m, w, dest, src),
        Insn::Bit(op, w, dest, number) => bit(m, op, w, dest, number),
        Insn::Jcc(code, target) => jcc(m, code, target),
        Insn::Jmp(target) => jmp(m, target),
        Insn::Call(target) => call(m, target),
        Insn::Ret => ret(m),
        Insn::Cli => cli(m),
        Insn::Cld => cld(m),
        Insn::Clac => clac(m),
        Insn::Stac => stac(m),
        Insn::Sti => sti(m),
        Insn::Swapgs => swapgs(m),
        Insn::ReadGs(r) => read_gs(m, r),
        Insn::WriteGs(r) => write_gs(m, r),
        Insn::Rdmsr => rdmsr(m),
        Insn::Wrmsr => wrmsr(m),
        Insn::ReadCr3(r) => read_cr3(m, r),
        Insn::WriteCr3(r) => write_cr3(m, r),
        Insn::Sysretq => sysretq(m),
        Insn::Iretq => iretq(m),
    }
}
