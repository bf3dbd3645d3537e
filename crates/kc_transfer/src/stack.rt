//! PUSH, POP, PUSHFQ and POPFQ (Intel SDM vol. 2).

ghost use Rattle.std.specs.Prelude.{◌≡◌};
ghost use Rattle.kc_insn.specs.Fields.{source_of};
ghost use Rattle.kc_insn.specs.declared.insn.Insn.TheVariants.{Push, Pop, Pushfq, Popfq};
ghost use Rattle.kc_value.specs.Made.{IsPlace};
ghost use Rattle.kc_state.specs.AbsEffect.{abs_row, with_pushed_rsp, push_of, stack_word, loaded_flags};
ghost use Rattle.kc_state.specs.Scaled.{HasScale};

use crate::changed::{Changed, Store, go_on};
use crate::operand::{load_by, operand};
use crate::registers::put_register;
use crate::results::{put_result, store_to, with_flags};
use kc_bits::Bits;
use kc_insn::{Place, Reg, Source};
use kc_state::{AbsCpu, Moment, loc, pop_rsp, pushed, value_of};
use kc_value::Value;
use kc_words::Width;

// The processor with RSP as a push leaves it.
pub(crate) fn push_rsp(m: &Moment) -> AbsCpu
    requires { IsPlace m.now.key.stack }
    ensures { result ≡ with_pushed_rsp m.now }
{
    put_register(m.cpu, Reg::RSP, &pushed(m))
}

// The store of a push.
pub(crate) fn push_of(m: &Moment, v: &Value) -> Option<Store>
    requires { IsPlace m.now.key.stack }
    ensures { result ≡ push_of m.now v.now }
{
    Some(Store {
        at: loc(m.key, &pushed(m)),
        size: 8,
        value: *v,
        gs: false,
    })
}

// The word at RSP.
pub(crate) fn stack_word(m: &Moment) -> Value
    ensures { result ≡ stack_word m.now }
{
    load_by(m, Width::Quad, &value_of(m.cpu, Reg::RSP))
}

#[tactic(auto, unfolding(kc_state::specs::AbsEffect::abs_row))]
pub(crate) fn push(m: &Moment, src: Source) -> Changed
    requires stack { IsPlace m.now.key.stack }
    requires src { HasScale src }
    ensures { result ≡ abs_row m.now (Push src) }
{
    let v = operand(m, Width::Quad, src);
    go_on(m, &push_rsp(m), push_of(m, &v))
}

// The store into memory takes its address with RSP as the pop leaves it.
#[tactic(auto, unfolding(kc_state::specs::AbsEffect::abs_row))]
pub(crate) fn pop(m: &Moment, dest: Place) -> Changed
    requires { HasScale (source_of dest) }
    ensures { result ≡ abs_row m.now (Pop dest) }
{
    let v = stack_word(m);
    let popped = pop_rsp(m);
    let after = Moment {
        cfg: m.cfg,
        key: m.key,
        cpu: &popped,
        slots: m.slots,
        next: m.next,
    };
    let store = store_to(&after, Width::Quad, dest, &v);
    go_on(m, &put_result(m, Width::Quad, dest, &v, &popped), store)
}

#[tactic(auto, unfolding(kc_state::specs::AbsEffect::abs_row))]
pub(crate) fn pushfq(m: &Moment) -> Changed
    requires { IsPlace m.now.key.stack }
    ensures { result ≡ abs_row m.now Pushfq }
{
    let cpu = m.cpu;
    go_on(m, &push_rsp(m), push_of(m, &cpu.flags))
}

// RFLAGS as POPFQ loads it of a word: the flags in the mask, with bit 1 set.
fn loaded_flags(b: &Bits) -> Bits
    ensures { result ≡ loaded_flags b.now }
{
    Bits {
        zeros: b.zeros & 0x24_0FD5 | !0x24_0FD7,
        ones: b.ones & 0x24_0FD5 | 2,
    }
}

#[tactic(auto, unfolding(kc_state::specs::AbsEffect::abs_row))]
pub(crate) fn popfq(m: &Moment) -> Changed
    ensures { result ≡ abs_row m.now Popfq }
{
    let flags = loaded_flags(&stack_word(m).bits);
    go_on(m, &with_flags(m, &flags, &pop_rsp(m)), None)
}
