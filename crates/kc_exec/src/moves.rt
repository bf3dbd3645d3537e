//! MOV, LEA and XCHG (Intel SDM vol. 2).

ghost use Rattle.std.specs.Prelude.{◌≡◌};
ghost use Rattle.kc_exec.specs.Effect.{row};
ghost use Rattle.kc_insn.specs.declared.insn.Insn.TheVariants.{Mov, Lea, Xchg};

use crate::before::Before;
use crate::executed::{Executed, go_on, go_on_with, put_result};
use crate::register::put_register;
use kc_insn::{Mem, Place, Reg, Source};
use kc_words::Width;

#[tactic(auto, unfolding(crate::specs::Effect::row))]
pub(crate) fn mov(m: &Before, w: Width, dest: Place, src: Source) -> Executed
    ensures { result ≡ row m.now (Mov w dest src) }
{
    let v = m.source(w, src);
    let cpu = put_result(m.cpu, dest, v);
    go_on(m, cpu, m.source_reads(w, src), m.write_to(w, dest, v))
}

#[tactic(auto, unfolding(crate::specs::Effect::row))]
pub(crate) fn lea(m: &Before, w: Width, dest: Reg, src: Mem) -> Executed
    ensures { result ≡ row m.now (Lea w dest src) }
{
    go_on_with(m, put_register(m.cpu, dest, w.cut(m.offset(src))))
}

#[tactic(auto, unfolding(crate::specs::Effect::row))]
pub(crate) fn xchg(m: &Before, w: Width, dest: Place, src: Reg) -> Executed
    ensures { result ≡ row m.now (Xchg w dest src) }
{
    let old = m.place(w, dest);
    let v = m.source(w, Source::Reg(src));
    let cpu = put_register(&put_result(m.cpu, dest, v), src, old);
    go_on(m, cpu, m.place_reads(w, dest), m.write_to(w, dest, v))
}
