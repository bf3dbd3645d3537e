//! What is known after the end of a handler. This project's own.

ghost use Rattle.std.specs.Prelude.{◌≡◌, true, IsTrue, ◌↔◌, IfSome, is_some, Option};
ghost use Rattle.kc_insn.specs.Encodable.{is_encodable};
ghost use Rattle.kc_state.specs.WellFormed.{IsStateWellFormed};
ghost use Rattle.kc_state.specs.Calls.{left_if, left_flags, left_registers, left, left_of, after_handler};
ghost use Rattle.kc_transfer.specs.Covers.{CoversEnds};

use crate::handler_call::called_handler;
use crate::moment::bits_value;
use kc_bits::Bits;
use kc_insn::Insn;
use kc_lattice::Domain;
use kc_regions::{AfterIf, Config, Handler};
use kc_state::{AbsState, Key, Scratch, shift};
use kc_value::Value;

// What is known of IF.
fn left_if(b: &Bits, after_if: AfterIf) -> Bits
    ensures { result ≡ left_if b.now after_if }
{
    match after_if {
        AfterIf::Keep => Bits {
            zeros: b.zeros & 0x200,
            ones: b.ones & 0x200,
        },
        AfterIf::On => Bits {
            zeros: 0,
            ones: 0x200,
        },
        AfterIf::Off => Bits {
            zeros: 0x200,
            ones: 0,
        },
        AfterIf::Any => Bits { zeros: 0, ones: 0 },
    }
}

// RFLAGS in the model's mask, with bit 1 set, DF clear, and IF as the handler says.
fn left_flags(b: &Bits, after_if: AfterIf) -> Bits
    ensures { result ≡ left_flags b.now after_if }
{
    b.tell();
    let flag = left_if(b, after_if);
    Bits {
        zeros: !0x24_0FD7 | 0x400 | flag.zeros,
        ones: 2 | flag.ones,
    }
}

// RBX, RBP and R12 to R15 stay, RSP is as before the push, and of the others nothing is known.
fn left_registers(cfg: &Config, key: &Key, regs: &[Value; 16]) -> [Value; 16]
    ensures { result ≡ left_registers cfg.now key.now regs.now }
{
    let any = Value::top();
    [
        any,
        any,
        any,
        regs[3],
        shift(cfg, key, &regs[4], 8),
        regs[5],
        any,
        any,
        any,
        any,
        any,
        any,
        regs[12],
        regs[13],
        regs[14],
        regs[15],
    ]
}

// The state at the body becomes that after the handler's end.
fn leave(cfg: &Config, key: &Key, h: &Handler, state: &AbsState, out: &mut AbsState)
    ensures { out.new ≡ left cfg.now key.now h.now state.now }
{
    out.copy_from(state);
    out.regs = left_registers(cfg, key, &state.regs);
    out.flags = bits_value(cfg, &left_flags(&state.flags.bits, h.after_if));
}

fn leave_of(
    cfg: &Config,
    key: &Key,
    state: &AbsState,
    handler: Option<Handler>,
    out: &mut AbsState,
) -> bool
    ensures is { result ≡ is_some (left_of cfg.now key.now state.now handler) }
    ensures value { IfSome (left_of cfg.now key.now state.now handler) (λ s. out.new ≡ s) }
{
    match handler {
        Some(h) if h.returns => {
            leave(cfg, key, &h, state, out);
            true
        }
        _ => false,
    }
}

// The state after the end of the handler that the instruction calls, if it calls one that returns.
fn leave_called(cfg: &Config, key: &Key, state: &AbsState, insn: &Insn, out: &mut AbsState) -> bool
    requires encodable { is_encodable insn.now ≡ true }
    ensures is { result ≡ is_some (after_handler cfg.now key.now state.now insn.now) }
    ensures value { IfSome (after_handler cfg.now key.now state.now insn.now) (λ s. out.new ≡ s) }
{
    match *insn {
        Insn::Call(target) => leave_of(cfg, key, state, called_handler(cfg, target), out),
        _ => false,
    }
}

/// Whether `insn` calls a handler that returns; then `out.out` is the state after the handler's end,
/// where `state` is that at its body, and well-formed where that is. It takes no memory.
pub fn leave_abs(cfg: &Config, key: &Key, state: &AbsState, insn: &Insn, out: &mut Scratch) -> bool
    requires encodable { is_encodable insn.now ≡ true }
    ensures is { result ≡ is_some (after_handler cfg.now key.now state.now insn.now) }
    ensures value { IfSome (after_handler cfg.now key.now state.now insn.now) (λ s. out.new.out ≡ s) }
    ensures back { out.new.back ≡ out.old.back }
    ensures well_formed { IsStateWellFormed cfg.now key.now state.now
        → IfSome (after_handler cfg.now key.now state.now insn.now) (IsStateWellFormed cfg.now key.now) }
    // Where the state describes the machine while the handler runs, its end is covered.
    ensures covers { CoversEnds cfg.now key.now state.now insn.now result out.new.out }
{
    cfg.tell();
    state.tell();
    leave_called(cfg, key, state, insn, &mut out.out)
}
