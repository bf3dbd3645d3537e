//! What is known of an instruction's operands and their addresses (Intel SDM vol. 1, "Operand
//! Addressing").

ghost use Rattle.std.specs.Prelude.{◌≡◌, true};
ghost use Rattle.kc_state.specs.Operand.{base_value, scaled_bits, indexed_bits, effective, with_gs_base, linear, load_at};
ghost use Rattle.kc_state.specs.Scaled.{is_scale, IsScaled};

use crate::location::{Location, loc};
use crate::moment::{Moment, bits_value, number_value, value_of};
use crate::shifts::shift;
use crate::slot::load;
use kc_bits::Bits;
use kc_insn::{Base, Mem, Reg};
use kc_space::Who;
use kc_value::Value;
use kc_words::Width;

fn base_value(m: &Moment, base: Base) -> Value
    ensures { result ≡ base_value m.now base }
{
    match base {
        Base::Absent => number_value(m.cfg, 0),
        Base::Rip => number_value(m.cfg, m.next),
        Base::Reg(r) => value_of(m.cpu, r),
    }
}

// The bits of a word times the scale.
fn scaled_bits(b: &Bits, scale: u8) -> Bits
    requires { is_scale scale ≡ true }
    ensures { result ≡ scaled_bits b.now scale }
{
    let by = u64::from(scale);
    Bits {
        zeros: b.zeros.wrapping_mul(by) + (by - 1),
        ones: b.ones.wrapping_mul(by),
    }
}

// The bits of base, index times scale, and displacement, summed in this order.
fn indexed_bits(m: &Moment, mem: Mem, index: Reg, scale: u8) -> Bits
    requires { is_scale scale ≡ true }
    ensures { result ≡ indexed_bits m.now mem (index, scale) }
{
    base_value(m, mem.base)
        .bits
        .add(&scaled_bits(&value_of(m.cpu, index).bits, scale))
        .add(&Bits::of(i64::from(mem.disp).cast_unsigned()))
}

/// The address of the operand without the active GS base.
pub fn effective(m: &Moment, mem: Mem) -> Value
    requires scale { IsScaled mem.index }
    ensures value { result ≡ effective m.now mem }
{
    match mem.index {
        None => shift(m.cfg, m.key, &base_value(m, mem.base), i64::from(mem.disp)),
        Some((index, scale)) => bits_value(m.cfg, &indexed_bits(m, mem, index, scale)),
    }
}

fn with_gs_base(m: &Moment, v: &Value) -> Value
    ensures { result ≡ with_gs_base m.now m.now.cpu.gs.active v.now }
{
    match m.cpu.gs.active {
        Who::Kernel => {
            let cfg = m.cfg;
            bits_value(m.cfg, &v.bits.add(&Bits::of(cfg.cpu.kernel_gs)))
        }
        Who::User | Who::Any => Value::top(),
    }
}

/// The address of the operand.
pub fn linear(m: &Moment, mem: Mem) -> Value
    requires scale { IsScaled mem.index }
    ensures value { result ≡ linear m.now mem }
{
    let address = effective(m, mem);
    if mem.gs {
        with_gs_base(m, &address)
    } else {
        address
    }
}

/// What is known of the bytes at a location.
pub fn load_at(m: &Moment, w: Width, at: Option<Location>) -> Value
    ensures value { result ≡ load_at m.now w at }
{
    match at {
        Some(l) => load(m.cfg, m.key, m.slots, l, w),
        None => Value::top(),
    }
}
