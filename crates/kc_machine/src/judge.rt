//! What is judged of the accesses and bytes of a turn: the guard, and the breaks B2, B3 and B4.

ghost use Rattle.std.specs.Prelude.{◌≡◌, ◌≢◌, ℕ, ◌<◌, IsTrue, ◌↔◌, false, true, Contains, Any, length, nat_lt, position};
ghost use Rattle.kc_regions.specs.declared.touch.Touch.TheVariants.{Write as ForWrite};
ghost use Rattle.kc_regions.specs.Permission.{permits};
ghost use Rattle.kc_exec.specs.declared.access.Access.{Access as AccessValue};
ghost use Rattle.kc_exec.specs.declared.state.State.{State};
ghost use Rattle.kc_exec.specs.Execution.{guarded};
ghost use Rattle.kc_exec.specs.Live.{IsLive};
ghost use Rattle.kc_exec.specs.Operand.{plus};
ghost use Rattle.kc_events.specs.Attempt.{Attempt};
ghost use Rattle.kc_events.specs.Breaks.{judged, IsOf};
ghost use Rattle.kc_machine.specs.JudgeSteps.{IsTrialOf, IsJudged, HasLiveByte, HasLiveWrite};

use crate::end::StepEnd;
use crate::one_region::{are_in_one, are_plain};
use kc_cpu::Cpu;
use kc_exec::{Access, Activation, Touch, is_live, meets_guard};
use kc_regions::Config;

/// B2: the active GS base that goes into an address isn't the kernel's.
const OTHER_GS: u8 = 2;

/// B3: an absent or forbidden byte.
const FORBIDDEN_BYTE: u8 = 3;

/// B4: a live stack byte is written.
const LIVE_BYTE: u8 = 4;

/// What a turn does before it is judged.
#[derive(Clone, Copy)]
pub(crate) struct Trial<'a> {
    /// The processor before the turn.
    pub(crate) cpu: &'a Cpu,
    /// The activations whose stack bytes are live.
    pub(crate) chain: &'a [Activation],
    pub(crate) accesses: &'a [Access],
    /// Bytes that a handler writes, by their addresses, and words of the user's frame.
    pub(crate) writes: &'a [(u64, u8)],
    pub(crate) words: &'a [(u64, u64)],
}

fn touches_guard(cfg: &Config, access: &Access) -> bool
    ensures { result ≡ guarded cfg.now.regions access.now.at access.now.size }
{
    meets_guard(cfg, &[*access])
}

// The index of the first access that has a byte in a guard.
fn first_in_guard(cfg: &Config, accesses: &[Access]) -> Option<usize>
    ensures { result ≡ position (λ a. guarded cfg.now.regions a.at a.size) accesses.now }
{
    accesses
        .iter()
        .position(|access| touches_guard(cfg, access))
}

// The accesses before the first that has a byte in a guard.
fn before_guard<'a>(cfg: &Config, accesses: &'a [Access]) -> &'a [Access]
    ensures { result.now ≡ judged cfg.now accesses.now }
{
    match first_in_guard(cfg, accesses) {
        Some(n) => &accesses[..n],
        None => accesses,
    }
}

fn uses_other_gs(cfg: &Config, cpu: &Cpu, accesses: &[Access]) -> bool
    ensures { IsTrue result ↔ ((a : AccessValue) × Contains accesses.now a × (a.gs ≡ true)
        × (cpu.now.gs ≢ cfg.now.cpu.kernel_gs)) }
{
    cpu.gs != cfg.cpu.kernel_gs && accesses.iter().any(|access| access.gs)
}

// Whether a byte of the access lies in no region that is present and has the right.
fn is_forbidden(cfg: &Config, cr3: u64, access: &Access) -> bool
    ensures { IsTrue result ↔ ((x : ℕ) × IsOf access.now x × (permits cfg.now cr3 access.now.touch x ≡ false)) }
{
    for i in 0..access.size {
        if !cfg.permits(cr3, access.touch, access.at.wrapping_add(i as u64)) {
            return true;
        }
    }
    false
}

// The accesses before the first that has a byte in a guard: all of them where each is plain.
fn front_of<'a>(cfg: &Config, accesses: &'a [Access], plain: bool) -> &'a [Access]
    requires { IsTrue plain → judged cfg.now accesses.now ≡ accesses.now }
    ensures { result.now ≡ judged cfg.now accesses.now }
{
    if plain {
        accesses
    } else {
        before_guard(cfg, accesses)
    }
}

fn touches_forbidden(cfg: &Config, cr3: u64, accesses: &[Access]) -> bool
    ensures { IsTrue result ↔ Any (λ a. (x : ℕ) × IsOf a x × (permits cfg.now cr3 a.touch x ≡ false)) accesses.now }
{
    accesses.iter().any(|access| is_forbidden(cfg, cr3, access))
}

// Whether an access has an absent or forbidden byte: none does where each is plain.
fn has_forbidden(cfg: &Config, cr3: u64, accesses: &[Access], plain: bool) -> bool
    requires { IsTrue plain
        → ¬ Any (λ a. (x : ℕ) × IsOf a x × (permits cfg.now cr3 a.touch x ≡ false)) accesses.now }
    ensures { IsTrue result ↔ Any (λ a. (x : ℕ) × IsOf a x × (permits cfg.now cr3 a.touch x ≡ false)) accesses.now }
{
    !plain && touches_forbidden(cfg, cr3, accesses)
}

// Whether one of so many bytes from `at` on is live, one after another.
fn finds_live_byte(cfg: &Config, chain: &[Activation], at: u64, size: u8) -> bool
    ensures { IsTrue result ↔ HasLiveByte cfg.now chain.now at size }
{
    for i in 0..size {
        if is_live(cfg, chain, at.wrapping_add(i as u64)) {
            return true;
        }
    }
    false
}

// Whether one of so many bytes from `at` on is live. In one region the last one is, if any is.
fn has_live_byte(cfg: &Config, chain: &[Activation], at: u64, size: u8) -> bool
    ensures { IsTrue result ↔ HasLiveByte cfg.now chain.now at size }
{
    if are_in_one(cfg, at, size) {
        cfg.tell();
        is_live(cfg, chain, at.wrapping_add(size as u64 - 1))
    } else {
        finds_live_byte(cfg, chain, at, size)
    }
}

fn is_write(touch: Touch) -> bool
    ensures { IsTrue result ↔ (touch ≡ ForWrite) }
{
    match touch {
        Touch::Write => true,
        Touch::Fetch | Touch::Read => false,
    }
}

fn write_is_live(cfg: &Config, chain: &[Activation], access: &Access) -> bool
    ensures { IsTrue result ↔ ((access.now.touch ≡ ForWrite)
        × HasLiveByte cfg.now chain.now access.now.at access.now.size) }
{
    is_write(access.touch) && has_live_byte(cfg, chain, access.at, access.size)
}

fn writes_are_live(cfg: &Config, chain: &[Activation], accesses: &[Access]) -> bool
    ensures { IsTrue result ↔ Any (λ a. (a.touch ≡ ForWrite) × HasLiveByte cfg.now chain.now a.at a.size) accesses.now }
{
    accesses
        .iter()
        .any(|access| write_is_live(cfg, chain, access))
}

fn bytes_are_live(cfg: &Config, chain: &[Activation], writes: &[(u64, u8)]) -> bool
    ensures { IsTrue result ↔ Any (λ w. IsLive cfg.now chain.now w.0) writes.now }
{
    writes.iter().any(|write| is_live(cfg, chain, write.0))
}

fn words_are_live(cfg: &Config, chain: &[Activation], words: &[(u64, u64)]) -> bool
    ensures { IsTrue result ↔ Any (λ w. HasLiveByte cfg.now chain.now w.0 8) words.now }
{
    words
        .iter()
        .any(|word| has_live_byte(cfg, chain, word.0, 8))
}

// Whether the front isn't all of the accesses.
fn is_cut(front: &[Access], accesses: &[Access]) -> bool
    ensures { result ≡ nat_lt (length front.now) (length accesses.now) }
{
    front.len() < accesses.len()
}

// Whether a byte is live that the turn writes by a judged access, or, where nothing stops it, besides.
fn writes_live(cfg: &Config, trial: &Trial, judged: &[Access], stops: bool) -> bool
    ensures { IsTrue result ↔ HasLiveWrite cfg.now trial.now.chain.now judged.now stops trial.now.writes.now
        trial.now.words.now }
{
    writes_are_live(cfg, trial.chain, judged)
        || !stops
            && (bytes_are_live(cfg, trial.chain, trial.writes)
                || words_are_live(cfg, trial.chain, trial.words))
}

/// The end of a turn that stops, or breaks B2, B3 or B4: the least break. Nothing where it may go on.
pub(crate) fn judge(cfg: &Config, trial: &Trial) -> Option<StepEnd>
    ensures { (S : State) (t : Attempt) → IsTrialOf cfg.now S t trial.now.cpu.now trial.now.chain.now
        trial.now.accesses.now trial.now.writes.now trial.now.words.now
        → IsJudged cfg.now S t result }
{
    let plain = are_plain(cfg, trial.cpu.cr3, trial.accesses);
    let judged = front_of(cfg, trial.accesses, plain);
    let stops = is_cut(judged, trial.accesses);
    if uses_other_gs(cfg, trial.cpu, judged) {
        Some(StepEnd::Broke(OTHER_GS))
    } else if has_forbidden(cfg, trial.cpu.cr3, judged, plain) {
        Some(StepEnd::Broke(FORBIDDEN_BYTE))
    } else if writes_live(cfg, trial, judged, stops) {
        Some(StepEnd::Broke(LIVE_BYTE))
    } else if stops {
        Some(StepEnd::Stopped)
    } else {
        None
    }
}
