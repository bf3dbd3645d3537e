//! C12: a return restores the interrupted context. This project's own.

ghost use Rattle.std.specs.Prelude.{◌≡◌, ◌<◌, ◌==◌, ◌||◌};
ghost use Rattle.kc_space.specs.Spaces.{is_same_who, is_same_map};
ghost use Rattle.kc_state.specs.AbsEffect.{is_number};
ghost use Rattle.kc_state.specs.Conditions.{is_entry, frame_word, due_cs, is_due, due_ss, frame_restores, are_entries, rest_restores, restores};

use crate::exact::is_entry;
use crate::moment::{Moment, value_of};
use crate::operand::load_at;
use crate::top_of_stack::stack_location;
use kc_insn::{Insn, Reg};
use kc_value::Value;
use kc_words::Width;

// The numbers of RIP, RFLAGS, CS and SS among the words of an interrupted processor, after the
// registers'.
const RIP: u8 = 16;

const RFLAGS: u8 = 17;

const CS: u8 = 18;

const SS: u8 = 19;

const RSP: u8 = 4;

// Whether a number is known and is this one.
fn is_number(n: u64, known: Option<u64>) -> bool
    ensures { result ≡ is_number n known }
{
    match known {
        Some(m) => m == n,
        None => false,
    }
}

// Word `i` of those on the stack.
fn frame_word(m: &Moment, i: u8) -> Value
    ensures { result ≡ frame_word m.now i }
{
    load_at(m, Width::Quad, stack_location(m, i))
}

// The CS that a return has to load, where there is one alone.
fn due_cs(m: &Moment) -> Option<u16>
    ensures { result ≡ due_cs m.now }
{
    let (cfg, key) = (m.cfg, m.key);
    if key.kernel {
        Some(cfg.cpu.star_kernel)
    } else if key.syscall || cfg.cpu.user_cs32.is_none() {
        Some(cfg.user_cs64())
    } else {
        None
    }
}

// The same of SS.
fn due_ss(m: &Moment) -> Option<u16>
    ensures { result ≡ due_ss m.now }
{
    let (cfg, key) = (m.cfg, m.key);
    if key.kernel {
        None
    } else {
        Some(cfg.user_ss())
    }
}

// Whether the value is the constant that is due.
fn is_due(v: &Value, due: Option<u16>) -> bool
    ensures { result ≡ is_due v.now due }
{
    match due {
        Some(n) => is_number(u64::from(n), v.bits.single()),
        None => false,
    }
}

fn frame_restores(m: &Moment) -> bool
    ensures { result ≡ frame_restores m.now }
{
    let (cs, ss) = (frame_word(m, 1), frame_word(m, 4));
    is_entry(&frame_word(m, 0), RIP)
        && ((is_entry(&cs, CS) || is_due(&cs, due_cs(m)))
            && (is_entry(&frame_word(m, 2), RFLAGS)
                && (is_entry(&frame_word(m, 3), RSP)
                    && (is_entry(&ss, SS) || is_due(&ss, due_ss(m))))))
}

// Whether the value of register `w` is its own, or it is RSP.
fn is_own(v: &Value, w: u8) -> bool
    ensures { result ≡ ((w == 4) || is_entry v.now w) }
{
    w == RSP || is_entry(v, w)
}

// Whether each register but RSP is its own.
#[tactic(auto, using(crate::proofs::EntryLemmas::entries_step, crate::proofs::EntryLemmas::entries_end))]
fn are_entries(regs: &[Value; 16]) -> bool
    ensures { result ≡ are_entries 0 regs.now }
{
    for w in 0..16u8 {
        if !is_own(&regs[w as usize], w) {
            return false;
        }
    }
    true
}

// Whether GS pair and map are the key's, and for a return into the kernel each register but RSP is its
// own.
fn rest_restores(m: &Moment) -> bool
    ensures { result ≡ rest_restores m.now }
{
    let (cpu, key) = (m.cpu, m.key);
    (cpu.gs.active == key.gs.active && (cpu.gs.inactive == key.gs.inactive && cpu.map == key.map))
        && (!key.kernel || are_entries(&cpu.regs))
}

fn registers_restore(m: &Moment) -> bool
    ensures { result ≡ restores m.now Insn.Sysretq }
{
    (is_entry(&value_of(m.cpu, Reg::RCX), RIP)
        && (is_entry(&value_of(m.cpu, Reg::R11), RFLAGS)
            && is_entry(&value_of(m.cpu, Reg::RSP), RSP)))
        && rest_restores(m)
}

/// C12: IRETQ and SYSRETQ load the words of the interrupted processor, and GS bases, CR3 and, for the
/// kernel, the other registers are its own.
pub fn restores(m: &Moment, insn: &Insn) -> bool
    ensures value { result ≡ restores m.now insn.now }
{
    match *insn {
        Insn::Iretq => frame_restores(m) && rest_restores(m),
        Insn::Sysretq => registers_restore(m),
        _ => true,
    }
}
