//! Values of known bits, and what operands take of values. This project's own.

ghost use Rattle.std.specs.Prelude.{◌≡◌};
ghost use Rattle.kc_state.specs.Operand.{bits_value, at_width};

use kc_bits::Bits;
use kc_regions::Config;
use kc_state::derived;
use kc_value::Value;
use kc_words::Width;

// What these bits alone say.
pub(crate) fn bits_value(cfg: &Config, bits: &Bits) -> Value
    ensures { result ≡ bits_value cfg.now bits.now }
{
    derived(cfg, bits)
}

// What an operand of this width takes of a value.
pub(crate) fn at_width(cfg: &Config, w: Width, v: &Value) -> Value
    ensures { result ≡ at_width cfg.now w v.now }
{
    match w {
        Width::Quad => *v,
        Width::Long => bits_value(cfg, &v.bits.cut(Width::Long)),
        Width::Byte => bits_value(cfg, &v.bits.cut(Width::Byte)),
    }
}
