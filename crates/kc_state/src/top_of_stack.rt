//! RSP as a push and a pop leave it, and the words above it (Intel SDM vol. 1, "Stack Behavior in 64-Bit
//! Mode").

ghost use Rattle.std.specs.Prelude.{◌≡◌, ◌<◌, ◌≤◌, ◌^◌};
ghost use Rattle.kc_value.specs.Made.{IsPlace};
ghost use Rattle.kc_state.specs.AbsEffect.{only_stack, on_stack, pushed, with_popped_rsp};
ghost use Rattle.kc_state.specs.Calls.{moved_up};
ghost use Rattle.kc_state.specs.Conditions.{stack_location};
ghost use Rattle.kc_state.specs.Location.{location_of};
ghost use Rattle.kc_state.specs.Operand.{with_register};

use crate::cpu::AbsCpu;
use crate::key::Key;
use crate::location::{Location, loc};
use crate::moment::{Moment, value_of};
use crate::shifts::shift;
use kc_insn::Reg;
use kc_value::Value;

/// `n` bytes above a location: addresses wrap, and offsets do as signed words.
pub fn moved_up(l: Location, n: u32) -> Location
    ensures value { result ≡ moved_up l n }
{
    match l {
        Location::Number(a) => Location::Number(a.wrapping_add(u64::from(n))),
        Location::Relative(k) => Location::Relative(k.wrapping_add(i64::from(n))),
    }
}

/// Where word `i` of those on the stack lies.
pub fn stack_location(m: &Moment, i: u8) -> Option<Location>
    ensures value { result ≡ stack_location m.now i }
{
    match loc(m.key, &value_of(m.cpu, Reg::RSP)) {
        Some(l) => Some(moved_up(l, 8 * u32::from(i))),
        None => None,
    }
}

// The set of this stack alone, and of all places where there is none.
fn only_stack(stack: Option<u8>) -> u32
    requires { IsPlace stack }
    ensures value { result ≡ only_stack stack }
    ensures bound { result < 2 ^ 17 }
{
    match stack {
        Some(s) => 1 << s,
        None => 0x1_FFFF,
    }
}

// Where RSP is an offset, it lies in the stack of the key.
fn on_stack(key: &Key, v: &Value) -> Value
    requires { IsPlace key.now.stack }
    ensures { result ≡ on_stack key.now v.now (location_of key.now v.now) }
{
    match loc(key, v) {
        Some(Location::Relative(_)) => Value {
            sym: v.sym,
            bits: v.bits,
            stacks: only_stack(key.stack),
        },
        Some(Location::Number(_)) | None => *v,
    }
}

/// RSP after a push.
pub fn pushed(m: &Moment) -> Value
    requires stack { IsPlace m.now.key.stack }
    ensures value { result ≡ pushed m.now }
{
    on_stack(m.key, &shift(m.cfg, m.key, &value_of(m.cpu, Reg::RSP), -8))
}

/// The processor with RSP as a pop leaves it.
pub fn pop_rsp(m: &Moment) -> AbsCpu
    ensures value { result ≡ with_popped_rsp m.now }
{
    let mut after = *m.cpu;
    after.regs[4] = shift(m.cfg, m.key, &value_of(m.cpu, Reg::RSP), 8);
    after
}
