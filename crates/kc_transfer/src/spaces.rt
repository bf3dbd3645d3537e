//! What is known of the GS bases, of model-specific registers and of CR3, and whose a value is. This
//! project's own.

ghost use Rattle.std.specs.Prelude.{◌≡◌, ◌+◌, ◌*◌, ◌%◌, ◌^◌, Option, ◌==◌, if◌then◌else◌};
ghost use Rattle.kc_state.specs.AbsEffect.{user_base, gs_value, is_symbol_user_gs, is_number, who_by, who_of, msr_number, mcg_bits, msr_bits, upper, edx_eax, who_of_bits, cr3_value, map_of};

use kc_bits::Bits;
use kc_insn::Reg;
use kc_regions::Config;
use kc_space::{MapState, Tri, Who};
use kc_state::{AbsCpu, Moment, number_value, value_of};
use kc_value::{Sym, Value};
use kc_words::Width;

/// The numbers of IA32_GS_BASE, IA32_KERNEL_GS_BASE and IA32_MCG_STATUS (Intel SDM vol. 4). The
/// definitions have them again, so that a wrong one shows.
pub(crate) const GS_BASE: u64 = 0xC000_0101;

pub(crate) const KERNEL_GS_BASE: u64 = 0xC000_0102;

pub(crate) const MCG_STATUS: u64 = 0x17A;

// Bits 47 to 63.
const UPPER_BITS: u64 = 0xFFFF_8000_0000_0000;

// The set of places with that outside all stacks alone.
const OUTSIDE: u32 = 0x1_0000;

const ALL_PLACES: u32 = 0x1_FFFF;

// 2^32.
const HALF: u64 = 0x1_0000_0000;

// The user's GS base, where user code may write it or not.
fn user_base(writes: bool) -> Value
    ensures { result ≡ user_base writes }
{
    if writes {
        Value {
            sym: Sym::UserGs,
            bits: Bits { zeros: 0, ones: 0 },
            stacks: ALL_PLACES,
        }
    } else {
        Value {
            sym: Sym::UserGs,
            bits: Bits {
                zeros: UPPER_BITS,
                ones: 0,
            },
            stacks: OUTSIDE,
        }
    }
}

// What is known of a GS base that is this one's.
pub(crate) fn gs_value(cfg: &Config, who: Who) -> Value
    ensures { result ≡ gs_value cfg.now who }
{
    match who {
        Who::Kernel => number_value(cfg, cfg.cpu.kernel_gs),
        Who::User => user_base(cfg.cpu.user_gs_writes),
        Who::Any => Value::top(),
    }
}

pub(crate) fn is_user_gs(sym: Sym) -> bool
    ensures { result ≡ is_symbol_user_gs sym }
{
    matches!(sym, Sym::UserGs)
}

// Whether a number is known and is this one.
pub(crate) fn is_number(n: u64, known: Option<u64>) -> bool
    ensures { result ≡ is_number n known }
{
    match known {
        Some(m) => m == n,
        None => false,
    }
}

fn who_by(kernel: bool, user: bool) -> Who
    ensures { result ≡ who_by kernel user }
{
    if kernel {
        Who::Kernel
    } else if user {
        Who::User
    } else {
        Who::Any
    }
}

// Whose base a value is.
pub(crate) fn who_of(cfg: &Config, v: &Value) -> Who
    ensures { result ≡ who_of cfg.now v.now }
{
    who_by(
        is_number(cfg.cpu.kernel_gs, v.bits.single()),
        is_user_gs(v.sym),
    )
}

// The number in ECX.
pub(crate) fn msr_number(cpu: &AbsCpu) -> Option<u64>
    ensures { result ≡ msr_number cpu.now }
{
    value_of(cpu, Reg::RCX).bits.cut(Width::Long).single()
}

// MCIP is bit 2.
fn mcg_bits(mcip: Tri) -> Bits
    ensures { result ≡ mcg_bits mcip }
{
    match mcip {
        Tri::No => Bits::of(0),
        Tri::Yes => Bits::of(4),
        Tri::Any => Bits { zeros: !4, ones: 0 },
    }
}

// What is known of the model-specific register of this number.
pub(crate) fn msr_bits(m: &Moment, n: Option<u64>) -> Bits
    ensures { result ≡ msr_bits m.now n }
{
    let cpu = m.cpu;
    if is_number(GS_BASE, n) {
        gs_value(m.cfg, cpu.gs.active).bits
    } else if is_number(KERNEL_GS_BASE, n) {
        gs_value(m.cfg, cpu.gs.inactive).bits
    } else if is_number(MCG_STATUS, n) {
        mcg_bits(cpu.latches.mcip)
    } else {
        Bits { zeros: 0, ones: 0 }
    }
}

// The upper 32 bits as a number.
pub(crate) fn upper(b: &Bits) -> Bits
    ensures { result ≡ upper b.now }
{
    Bits {
        zeros: (b.zeros >> 32) + 0xFFFF_FFFF_0000_0000,
        ones: b.ones >> 32,
    }
}

// The low 32 bits of `high` above those of `low`.
fn joined_halves(high: &Bits, low: &Bits) -> Bits
    ensures { result ≡ record {
      zeros = high.now.zeros % 2 ^ 32 * 2 ^ 32 + low.now.zeros % 2 ^ 32;
      ones =
          high.now.ones % 2 ^ 32 * 2 ^ 32 + low.now.ones % 2 ^ 32;
    } }
{
    Bits {
        zeros: high.zeros % HALF * HALF + low.zeros % HALF,
        ones: high.ones % HALF * HALF + low.ones % HALF,
    }
}

// EDX:EAX.
pub(crate) fn edx_eax(cpu: &AbsCpu) -> Bits
    ensures { result ≡ edx_eax cpu.now }
{
    joined_halves(&value_of(cpu, Reg::RDX).bits, &value_of(cpu, Reg::RAX).bits)
}

pub(crate) fn who_of_bits(cfg: &Config, b: &Bits) -> Who
    ensures { result ≡ who_of_bits cfg.now b.now }
{
    who_by(is_number(cfg.cpu.kernel_gs, b.single()), false)
}

// What is known of CR3 that names this map.
pub(crate) fn cr3_value(cfg: &Config, map: MapState) -> Value
    ensures { result ≡ cr3_value cfg.now map }
{
    match map {
        MapState::Kernel => number_value(cfg, cfg.cpu.kernel_cr3),
        MapState::User => number_value(cfg, cfg.cpu.user_cr3),
        MapState::Any => Value::top(),
    }
}

// The map that a value of CR3 names: bit 63 isn't stored.
pub(crate) fn map_of(cfg: &Config, known: Option<u64>) -> MapState
    ensures { result ≡ map_of cfg.now known }
{
    match known {
        Some(n) => map_of_number(cfg, n % (1 << 63)),
        None => MapState::Any,
    }
}

fn map_of_number(cfg: &Config, n: u64) -> MapState
    ensures { result ≡ (if n == cfg.now.cpu.kernel_cr3 then MapState.Kernel else if n == cfg.now.cpu.user_cr3 then
        MapState.User else MapState.Any) }
{
    if n == cfg.cpu.kernel_cr3 {
        MapState::Kernel
    } else if n == cfg.cpu.user_cr3 {
        MapState::User
    } else {
        MapState::Any
    }
}
