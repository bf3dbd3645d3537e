//! Which turn may come in a state.

ghost use Rattle.std.specs.Prelude.{◌≡◌, ◌↔◌, ℕ, ◌-◌, ◌+◌, ◌%◌, ◌^◌, ◌<◌, IsTrue, All, Any, Option, Some, None, false, slice_get};
ghost use Rattle.kc_insn.specs.declared.insn.Insn.{Insn as InsnValue};
ghost use Rattle.kc_regions.specs.declared.region.Kind.TheVariants as kind;
ghost use Rattle.kc_cpu.specs.declared.cpu.Mode.TheVariants.{User as InUser, Code as InCode};
ghost use Rattle.kc_exec.specs.Breaks.{effect as effect_of};
ghost use Rattle.kc_exec.specs.Execution.{moment, data_accesses};
ghost use Rattle.kc_events.specs.Fetched.{IsAt};
ghost use Rattle.kc_events.specs.Allowed.{IsAllowed, IsOpen, IsDevice, IsTrap, IsNoisyText, MayFault, TakesDebug, TakesFault, IsTouched, is_iretq as iretq, faulting, LiesIn, MayUser, MayTrap, MaySyscall, MayCome, pushes_code, has_own_turn};

use crate::fetched::fetch;
use crate::handler::{may_body, may_leave};
use crate::processor::user_cpu;
use crate::turn::{Turn, UserSet};
use kc_cpu::{Cpu, Mode};
use kc_exec::{Access, Before, Log, State, admitted, effect};
use kc_image::Image;
use kc_insn::Insn;
use kc_regions::{Config, Handler, Kind};

/// The least vector of a device.
const FIRST_DEVICE: u8 = 32;

/// IF's place in RFLAGS.
const INTERRUPTS: u32 = 9;

/// Whether the vector's delivery pushes an error code (Intel SDM vol. 3A, "Error Code").
pub(crate) fn has_code(vector: u8) -> bool
    ensures { result ≡ pushes_code vector }
{
    10 <= vector && vector <= 14 || (vector == 17 || vector == 21)
}

// Debug exceptions, NMIs, page faults and machine checks have turns of their own.
fn is_own_turn(vector: u8) -> bool
    ensures { result ≡ has_own_turn vector }
{
    vector == 1 || (vector == 2 || (vector == 14 || vector == 18))
}

// The handler that runs.
pub(crate) fn running(cfg: &Config, number: u16) -> Option<Handler>
    ensures { result ≡ slice_get cfg.now.handlers number }
{
    cfg.handlers.get(number as usize).copied()
}

fn is_open(state: &State) -> bool
    ensures { IsTrue result ↔ IsOpen state.now }
{
    (state.cpu.flags >> INTERRUPTS) & 1 == 1 && !state.latch.shadow
}

fn is_device(cfg: &Config, vector: u8) -> bool
    ensures { IsTrue result ↔ IsDevice cfg.now vector }
{
    match cfg.gate(vector) {
        Some(gate) => FIRST_DEVICE <= vector && !gate.user,
        None => false,
    }
}

fn is_trap(cfg: &Config, vector: u8) -> bool
    ensures { IsTrue result ↔ IsTrap cfg.now vector }
{
    match cfg.gate(vector) {
        Some(gate) => vector < FIRST_DEVICE && !is_own_turn(vector) || gate.user,
        None => false,
    }
}

fn is_noisy_text(cfg: &Config, at: u64) -> bool
    ensures { IsTrue result ↔ IsNoisyText cfg.now at }
{
    match cfg.regions.of(at) {
        Some(region) => region.kind == Kind::Text && !region.quiet,
        None => false,
    }
}

fn takes_debug(cfg: &Config, cpu: &Cpu) -> bool
    ensures { IsTrue result ↔ TakesDebug cfg.now cpu.now.rip cpu.now.mode }
{
    match cpu.mode {
        Mode::User => true,
        Mode::Code => is_noisy_text(cfg, cpu.rip),
        Mode::Inside(call) => match running(cfg, call.handler) {
            Some(handler) => handler.debug,
            None => false,
        },
    }
}

// Whether the byte at `at` is one of the access's.
fn touches(access: &Access, at: u64) -> bool
    ensures { IsTrue result ↔ IsTouched at access.now }
{
    at.wrapping_sub(access.at) < access.size as u64
}

// Whether one of the accesses has the byte.
fn touch_byte(accesses: &[Access], at: u64) -> bool
    ensures { IsTrue result ↔ Any (IsTouched at) accesses.now }
{
    accesses.iter().any(|access| touches(access, at))
}

fn is_iretq(insn: &Insn) -> bool
    ensures { result ≡ iretq insn.now }
{
    match insn {
        Insn::Iretq => true,
        _ => false,
    }
}

// Whether the instruction reads or writes the byte.
fn accesses_byte(cfg: &Config, state: &State, insn: &Insn, len: u8, at: u64) -> bool
    ensures { let m = moment cfg.now state.now.cpu state.now.latch state.now.mem.bytes len in
        IsTrue result ↔ Any (IsTouched at) (data_accesses (effect_of m insn.now)) }
{
    let before = Before::new(cfg, &state.cpu, &state.latch, &state.mem, len);
    let mut log = Log::new();
    effect(&before, insn).list_accesses(&state.cpu, len, &mut log);
    match log.items() {
        [_fetch, data @ ..] => touch_byte(data, at),
        [] => false,
    }
}

// Whether the instruction at RIP accesses the byte; an IRETQ's accesses don't count.
fn faults_at(cfg: &Config, image: &Image, state: &State, at: u64) -> bool
    ensures { (found : Option (InsnValue × ℕ)) → IsAt image.now state.now.cpu.rip found →
        (IsTrue result ↔ Any (IsTouched at) (faulting cfg.now state.now found)) }
{
    match fetch(image, state.cpu.rip) {
        None => false,
        Some((insn, len)) => !is_iretq(&insn) && accesses_byte(cfg, state, &insn, len, at),
    }
}

fn may_fault(cfg: &Config, at: u64) -> bool
    ensures { IsTrue result ↔ MayFault cfg.now at }
{
    match cfg.regions.of(at) {
        Some(region) => region.may_fault,
        None => false,
    }
}

fn takes_fault(cfg: &Config, image: &Image, state: &State, at: u64) -> bool
    ensures { (found : Option (InsnValue × ℕ)) → IsAt image.now state.now.cpu.rip found →
        (IsTrue result ↔ TakesFault cfg.now found state.now at state.now.cpu.mode) }
{
    match state.cpu.mode {
        Mode::User => true,
        Mode::Code => may_fault(cfg, at) && faults_at(cfg, image, state, at),
        Mode::Inside(call) => match running(cfg, call.handler) {
            Some(handler) => handler.fault,
            None => false,
        },
    }
}

fn is_user_byte(cfg: &Config, at: u64) -> bool
    ensures { IsTrue result ↔ LiesIn cfg.now kind.User at }
{
    match cfg.regions.of(at) {
        Some(region) => region.kind == Kind::User,
        None => false,
    }
}

fn are_user_bytes(cfg: &Config, writes: &[(u64, u8)]) -> bool
    ensures { IsTrue result ↔ All (λ w. LiesIn cfg.now kind.User w.0) writes.now }
{
    writes.iter().all(|write| is_user_byte(cfg, write.0))
}

fn is_user(cpu: &Cpu) -> bool
    ensures { IsTrue result ↔ (cpu.now.mode ≡ InUser) }
{
    match cpu.mode {
        Mode::User => true,
        Mode::Code | Mode::Inside(_) => false,
    }
}

fn runs_code(cpu: &Cpu) -> bool
    ensures { IsTrue result ↔ (cpu.now.mode ≡ InCode) }
{
    match cpu.mode {
        Mode::Code => true,
        Mode::User | Mode::Inside(_) => false,
    }
}

fn may_user(cfg: &Config, state: &State, set: &UserSet) -> bool
    ensures { IsTrue result ↔ MayUser cfg.now state.now set.now }
{
    is_user(&state.cpu)
        && (admitted(cfg, &user_cpu(&state.cpu, set)) && are_user_bytes(cfg, set.writes.as_slice()))
}

fn may_trap(cfg: &Config, cpu: &Cpu, vector: u8, code: u32) -> bool
    ensures { IsTrue result ↔ MayTrap cfg.now cpu.now.mode vector code }
{
    is_user(cpu) && is_trap(cfg, vector) && (has_code(vector) || code == 0)
}

fn may_syscall(cfg: &Config, cpu: &Cpu) -> bool
    ensures { IsTrue result ↔ MaySyscall cfg.now cpu.now }
{
    is_user(cpu) && cpu.cs == cfg.user_cs64()
}

// Whether the turn may come in a state that isn't stopped.
fn may_come(cfg: &Config, image: &Image, state: &State, turn: &Turn) -> bool
    ensures { (found : Option (InsnValue × ℕ)) → IsAt image.now state.now.cpu.rip found →
        (IsTrue result ↔ MayCome cfg.now found state.now turn.now) }
{
    match turn {
        Turn::Go => runs_code(&state.cpu),
        Turn::Irq(vector) => is_device(cfg, *vector) && is_open(state),
        Turn::Nmi => !state.latch.nmi_blocked,
        Turn::Debug => takes_debug(cfg, &state.cpu),
        Turn::Check => !state.latch.mcip,
        Turn::Fault(at, _) => takes_fault(cfg, image, state, *at),
        Turn::Trap(vector, code) => may_trap(cfg, &state.cpu, *vector, *code),
        Turn::Syscall => may_syscall(cfg, &state.cpu),
        Turn::User(set) => may_user(cfg, state, set),
        Turn::Body(set) => may_body(cfg, state, set),
        Turn::Leave(set) => may_leave(cfg, state, set),
    }
}

/// Whether the turn may come in this state, by the table of turns: no turn may in a stopped one. It
/// takes no memory.
pub fn allowed(cfg: &Config, image: &Image, state: &State, turn: &Turn) -> bool
    ensures exact { (found : Option (InsnValue × ℕ)) → IsAt image.now state.now.cpu.rip found →
        (IsTrue result ↔ IsAllowed cfg.now found state.now turn.now) }
{
    if state.stopped {
        return false;
    }
    may_come(cfg, image, state, turn)
}
