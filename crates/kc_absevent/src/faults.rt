//! Whether an instruction's data accesses may raise a page fault. This project's own.

ghost use Rattle.std.specs.Prelude.{◌≡◌, ◌/◌, true, Option};
ghost use Rattle.std.specs.List.{list_any};
ghost use Rattle.kc_insn.specs.Fields.{source_of};
ghost use Rattle.kc_words.specs.Flags.{bits_of};
ghost use Rattle.kc_words.specs.declared.width.Width.TheVariants.{Quad};
ghost use Rattle.kc_value.specs.Made.{IsPlace};
ghost use Rattle.kc_state.specs.AbsEffect.{pushed, with_popped_rsp};
ghost use Rattle.kc_state.specs.Location.{location_of};
ghost use Rattle.kc_state.specs.Operand.{linear};
ghost use Rattle.kc_state.specs.Scaled.{IsScaled, HasScale};
ghost use Rattle.kc_insn.specs.Encodable.{is_encodable};
ghost use Rattle.kc_regions.specs.Permission.{passes};
ghost use Rattle.kc_regions.specs.Region.{region_of};
ghost use Rattle.kc_state.specs.Conditions.{stack_region, read_of, stack_read};
ghost use Rattle.kc_state.specs.AbsEvents.{may_fault_bytes, may_fault_at, faults, may_fault};

use kc_insn::{AluOp, Insn, Mem, Place, Reg, Source};
use kc_regions::Config;
use kc_state::{Key, Location, Moment, linear, loc, pop_rsp, pushed, stack_location};
use kc_words::Width;

fn may_fault_byte(cfg: &Config, a: u64) -> bool
    ensures { result ≡ passes (λ r. r.may_fault) (region_of cfg.now.regions a) }
{
    match cfg.regions.of(a) {
        Some(region) => region.may_fault,
        None => false,
    }
}

#[tactic(auto, using(crate::proofs::ByteLemmas::may_fault_first, crate::proofs::ByteLemmas::may_fault_none))]
fn may_fault_bytes(cfg: &Config, a: u64, size: u8) -> bool
    ensures { result ≡ may_fault_bytes cfg.now a size }
{
    let mut at = a;
    let mut left = size;
    while left > 0 {
        if may_fault_byte(cfg, at) {
            return true;
        }
        at = at.wrapping_add(1);
        left -= 1;
    }
    false
}

fn may_fault_stack(cfg: &Config, stack: Option<u8>) -> bool
    ensures { result ≡ passes (λ r. r.may_fault) (stack_region cfg.now stack) }
{
    match stack {
        Some(s) => match cfg.regions.stack(s) {
            Some(region) => region.may_fault,
            None => false,
        },
        None => false,
    }
}

fn may_fault_at(cfg: &Config, key: &Key, at: Option<Location>, size: u8) -> bool
    ensures { result ≡ may_fault_at cfg.now key.now at size }
{
    match at {
        Some(Location::Number(a)) => may_fault_bytes(cfg, a, size),
        Some(Location::Relative(_)) => may_fault_stack(cfg, key.stack),
        None => true,
    }
}

fn size_of(w: Width) -> u8
    ensures { result ≡ bits_of w / 8 }
{
    match w {
        Width::Byte => 1,
        Width::Long => 4,
        Width::Quad => 8,
    }
}

fn memory_faults(m: &Moment, w: Width, mem: Mem) -> bool
    requires { IsScaled mem.index }
    ensures { result ≡ may_fault_at m.now.d m.now.key (location_of m.now.key (linear m.now mem)) (bits_of w / 8) }
{
    may_fault_at(m.cfg, m.key, loc(m.key, &linear(m, mem)), size_of(w))
}

fn source_faults(m: &Moment, w: Width, src: Source) -> bool
    requires { HasScale src }
    ensures { result ≡ list_any (faults m.now) (read_of m.now w src) }
{
    match src {
        Source::Mem(mem) => memory_faults(m, w, mem),
        Source::Reg(_) | Source::Imm(_) => false,
    }
}

fn place_faults(m: &Moment, w: Width, dest: Place) -> bool
    requires { HasScale (source_of dest) }
    ensures { result ≡ list_any (faults m.now) (read_of m.now w (source_of dest)) }
{
    match dest {
        Place::Mem(mem) => memory_faults(m, w, mem),
        Place::Reg(_) => false,
    }
}

// The word at RSP.
fn pop_faults(m: &Moment) -> bool
    ensures { result ≡ faults m.now (stack_read m.now 0) }
{
    may_fault_at(m.cfg, m.key, stack_location(m, 0), 8)
}

// The word that a push stores.
fn push_faults(m: &Moment) -> bool
    requires { IsPlace m.now.key.stack }
    ensures { result ≡ may_fault_at m.now.d m.now.key (location_of m.now.key (pushed m.now)) 8 }
{
    may_fault_at(m.cfg, m.key, loc(m.key, &pushed(m)), 8)
}

fn popped_place_faults(m: &Moment, dest: Place) -> bool
    requires { HasScale (source_of dest) }
    ensures { result ≡ list_any (faults m.now) (read_of (record m.now { cpu = with_popped_rsp m.now }) Quad
        (source_of dest)) }
{
    let popped = pop_rsp(m);
    let after = Moment {
        cfg: m.cfg,
        key: m.key,
        cpu: &popped,
        slots: m.slots,
        next: m.next,
    };
    place_faults(&after, Width::Quad, dest)
}

/// Whether a data access of the instruction may raise a page fault; those of IRETQ don't count.
#[tactic(auto, unfolding(kc_state::specs::AbsEffect::abs_row), using(crate::proofs::FaultLemmas::mov_faults, crate::proofs::FaultLemmas::xchg_faults, crate::proofs::FaultLemmas::push_each, crate::proofs::FaultLemmas::pop_each, crate::proofs::FaultLemmas::popfq_faults, crate::proofs::FaultLemmas::ret_faults, crate::proofs::FaultLemmas::pushfq_faults, crate::proofs::FaultLemmas::call_faults, crate::proofs::FaultLemmas::alu_faults, crate::proofs::FaultLemmas::test_faults, crate::proofs::FaultLemmas::bit_faults))]
pub(crate) fn may_fault(m: &Moment, insn: &Insn) -> bool
    requires encodable { is_encodable insn.now ≡ true }
    requires stack { IsPlace m.now.key.stack }
    ensures { result ≡ may_fault m.now insn.now }
{
    match *insn {
        Insn::Mov(w, dest, src) => source_faults(m, w, src) || place_faults(m, w, dest),
        Insn::Xchg(w, dest, _) | Insn::Bit(_, w, dest, _) => place_faults(m, w, dest),
        Insn::Alu(_, w, dest, src) | Insn::Test(w, dest, src) => {
            place_faults(m, w, dest) || source_faults(m, w, src)
        }
        Insn::Push(src) => source_faults(m, Width::Quad, src) || push_faults(m),
        Insn::Pop(dest) => pop_faults(m) || popped_place_faults(m, dest),
        Insn::Popfq | Insn::Ret => pop_faults(m),
        Insn::Pushfq | Insn::Call(_) => push_faults(m),
        _ => false,
    }
}
