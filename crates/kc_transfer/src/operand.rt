//! What is known of an instruction's operands (Intel SDM vol. 1, "Operand Addressing").

ghost use Rattle.std.specs.Prelude.{◌≡◌};
ghost use Rattle.kc_insn.specs.Fields.{source_of};
ghost use Rattle.kc_state.specs.Operand.{load_by, operand, destination};
ghost use Rattle.kc_state.specs.Scaled.{HasScale};

use crate::moment::at_width;
use kc_insn::{Place, Source};
use kc_state::{Moment, linear, load_at, loc, number_value, value_of};
use kc_value::Value;
use kc_words::Width;

// What is known of the bytes to which a value points.
pub(crate) fn load_by(m: &Moment, w: Width, v: &Value) -> Value
    ensures { result ≡ load_by m.now w v.now }
{
    load_at(m, w, loc(m.key, v))
}

// The operand at this width.
pub(crate) fn operand(m: &Moment, w: Width, src: Source) -> Value
    requires { HasScale src }
    ensures { result ≡ operand m.now w src }
{
    match src {
        Source::Reg(r) => at_width(m.cfg, w, &value_of(m.cpu, r)),
        Source::Mem(mem) => load_by(m, w, &linear(m, mem)),
        Source::Imm(z) => number_value(m.cfg, w.cut(z.cast_unsigned())),
    }
}

// An operand that may be written, as one that is read.
pub(crate) fn as_source(place: Place) -> Source
    ensures { result ≡ source_of place }
{
    match place {
        Place::Reg(r) => Source::Reg(r),
        Place::Mem(mem) => Source::Mem(mem),
    }
}

// The same of an operand that may be written.
pub(crate) fn destination(m: &Moment, w: Width, dest: Place) -> Value
    requires { HasScale (source_of dest) }
    ensures { result ≡ destination m.now w dest }
{
    operand(m, w, as_source(dest))
}
