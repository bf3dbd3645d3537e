//! MOV, LEA and XCHG (Intel SDM vol. 2).

ghost use Rattle.std.specs.Prelude.{◌≡◌};
ghost use Rattle.kc_insn.specs.Fields.{source_of};
ghost use Rattle.kc_insn.specs.declared.insn.Insn.TheVariants.{Mov, Lea, Xchg};
ghost use Rattle.kc_state.specs.AbsEffect.{abs_row};
ghost use Rattle.kc_state.specs.Scaled.{HasScale, IsScaled};

use crate::changed::{Changed, go_on};
use crate::moment::at_width;
use crate::operand::{destination, operand};
use crate::registers::put_register;
use crate::results::{put_result, store_to};
use kc_insn::{Mem, Place, Reg, Source};
use kc_state::{Moment, effective};
use kc_words::Width;

#[tactic(auto, unfolding(kc_state::specs::AbsEffect::abs_row))]
pub(crate) fn mov(m: &Moment, w: Width, dest: Place, src: Source) -> Changed
    requires dest { HasScale (source_of dest) }
    requires src { HasScale src }
    ensures { result ≡ abs_row m.now (Mov w dest src) }
{
    let v = operand(m, w, src);
    go_on(
        m,
        &put_result(m, w, dest, &v, m.cpu),
        store_to(m, w, dest, &v),
    )
}

#[tactic(auto, unfolding(kc_state::specs::AbsEffect::abs_row))]
pub(crate) fn lea(m: &Moment, w: Width, dest: Reg, src: Mem) -> Changed
    requires { IsScaled src.index }
    ensures { result ≡ abs_row m.now (Lea w dest src) }
{
    let v = at_width(m.cfg, w, &effective(m, src));
    go_on(m, &put_register(m.cpu, dest, &v), None)
}

#[tactic(auto, unfolding(kc_state::specs::AbsEffect::abs_row))]
pub(crate) fn xchg(m: &Moment, w: Width, dest: Place, src: Reg) -> Changed
    requires { HasScale (source_of dest) }
    ensures { result ≡ abs_row m.now (Xchg w dest src) }
{
    let old = at_width(m.cfg, w, &destination(m, w, dest));
    let v = operand(m, w, Source::Reg(src));
    let cpu = put_result(m, w, dest, &v, m.cpu);
    go_on(m, &put_register(&cpu, src, &old), store_to(m, w, dest, &v))
}
