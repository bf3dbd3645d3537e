//! What is known before an instruction, this project's own.

ghost use Rattle.std.specs.Prelude.{◌≡◌};
ghost use Rattle.kc_regions.specs.Region.{stack_of};
ghost use Rattle.kc_value.specs.Made.{IsPlace};
ghost use Rattle.kc_state.specs.Operand.{number_value, bits_value, register};
ghost use Rattle.kc_state.specs.Moment.{cpu_of};

use crate::cpu::AbsCpu;
use crate::key::Key;
use crate::shifts::derived;
use crate::state::AbsState;
use kc_bits::Bits;
use kc_frames::Slots;
use kc_insn::Reg;
use kc_regions::Config;
use kc_value::Value;
use std::marker::Model;

/// What is known before an instruction: of the processor and of the tracked words, in a context with
/// this key.
#[derive(Drop)]
pub struct Moment<'a> {
    pub cfg: &'a Config,
    pub key: &'a Key,
    pub cpu: &'a AbsCpu,
    pub slots: &'a Slots<Value>,
    /// The address after the instruction.
    pub next: u64,
}

impl<'a> Model for Moment<'a> {
    ghost use Rattle.kc_state.specs.Operand.{AbsMoment};

    ghost Value = { AbsMoment };

    ghost view = { λ m. record {
      d = m.cfg.now;
      key = m.key.now;
      cpu = m.cpu.now;
      slots = m.slots.now;
      next =
          m.next;
    } };
}

/// The processor of a state.
pub fn cpu_of(state: &AbsState) -> AbsCpu
    ensures value { result ≡ cpu_of state.now }
{
    AbsCpu {
        regs: state.regs,
        flags: state.flags,
        gs: state.gs,
        map: state.map,
        latches: state.latches,
    }
}

// The stack that holds `n`.
fn place_of(cfg: &Config, n: u64) -> Option<u8>
    ensures value { result ≡ stack_of cfg.now.regions n }
    ensures place { IsPlace result }
{
    cfg.regions.stack_of(n)
}

/// The number `n` at its own place.
pub fn number_value(cfg: &Config, n: u64) -> Value
    ensures value { result ≡ number_value cfg.now n }
{
    Value::constant(n, place_of(cfg, n))
}

// What these bits alone say.
pub(crate) fn bits_value(cfg: &Config, bits: &Bits) -> Value
    ensures { result ≡ bits_value cfg.now bits.now }
{
    derived(cfg, bits)
}

/// What is known of the register; nothing for a number that names none.
pub fn value_of(cpu: &AbsCpu, r: Reg) -> Value
    ensures value { result ≡ register cpu.now r }
{
    match cpu.regs.get(r.0 as usize) {
        Some(v) => *v,
        None => Value::top(),
    }
}
