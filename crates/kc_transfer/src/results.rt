//! Where results go, this project's own.

ghost use Rattle.std.specs.Prelude.{◌≡◌, ◌/◌};
ghost use Rattle.kc_insn.specs.Fields.{source_of};
ghost use Rattle.kc_words.specs.Flags.{bits_of};
ghost use Rattle.kc_state.specs.AbsEffect.{with_flags, with_result, store_of, operated};
ghost use Rattle.kc_state.specs.Scaled.{HasScale};

use crate::changed::{Changed, Store, go_on};
use crate::moment::{at_width, bits_value};
use crate::registers::put_register;
use kc_bits::Bits;
use kc_insn::Place;
use kc_state::{AbsCpu, Moment, linear, loc};
use kc_value::Value;
use kc_words::Width;

// How many bytes an operand of this width has.
pub(crate) fn size_of(w: Width) -> u8
    ensures { result ≡ bits_of w / 8 }
{
    match w {
        Width::Byte => 1,
        Width::Long => 4,
        Width::Quad => 8,
    }
}

// The processor with these flags known.
pub(crate) fn with_flags(m: &Moment, flags: &Bits, cpu: &AbsCpu) -> AbsCpu
    ensures { result ≡ with_flags m.now flags.now cpu.now }
{
    let mut after = *cpu;
    after.flags = bits_value(m.cfg, flags);
    after
}

// The processor with a result in the operand, where that is a register.
pub(crate) fn put_result(m: &Moment, w: Width, dest: Place, v: &Value, cpu: &AbsCpu) -> AbsCpu
    ensures { result ≡ with_result m.now w dest v.now cpu.now }
{
    match dest {
        Place::Reg(r) => put_register(cpu, r, &at_width(m.cfg, w, v)),
        Place::Mem(_) => *cpu,
    }
}

// The store of a result into the operand, where that is in memory.
pub(crate) fn store_to(m: &Moment, w: Width, dest: Place, v: &Value) -> Option<Store>
    requires { HasScale (source_of dest) }
    ensures { result ≡ store_of m.now w dest v.now }
{
    match dest {
        Place::Reg(_) => None,
        Place::Mem(mem) => Some(Store {
            at: loc(m.key, &linear(m, mem)),
            size: size_of(w),
            value: *v,
            gs: mem.gs,
        }),
    }
}

// An operation's flags, and its result, where it isn't dropped, in the destination.
pub(crate) fn finish(
    m: &Moment,
    w: Width,
    dest: Place,
    flags: &Bits,
    outcome: Option<Value>,
) -> Changed
    requires { HasScale (source_of dest) }
    ensures { result ≡ operated m.now w dest flags.now outcome }
{
    let cpu = with_flags(m, flags, m.cpu);
    match outcome {
        None => go_on(m, &cpu, None),
        Some(v) => go_on(
            m,
            &put_result(m, w, dest, &v, &cpu),
            store_to(m, w, dest, &v),
        ),
    }
}
