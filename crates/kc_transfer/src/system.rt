//! CLI, STI, CLD, CLAC, STAC, SWAPGS, RDGSBASE, WRGSBASE, RDMSR, WRMSR and the moves from and to CR3
//! (Intel SDM vol. 2).

ghost use Rattle.std.specs.Prelude.{◌≡◌};
ghost use Rattle.kc_insn.specs.declared.insn.Insn.TheVariants.{Cli, Sti, Cld, Clac, Stac, Swapgs, ReadGs, WriteGs, Rdmsr, Wrmsr, ReadCr3, WriteCr3};
ghost use Rattle.kc_state.specs.AbsEffect.{abs_row, with_flags, with_gap, with_msr};
ghost use Rattle.kc_state.specs.Flags.{clear_flag, set_flag};

use crate::changed::{Changed, go_on};
use crate::flags::{clear_flag, known_flag, set_flag, tri_not};
use crate::moment::bits_value;
use crate::registers::put_register;
use crate::results::with_flags;
use crate::spaces::{
    GS_BASE, KERNEL_GS_BASE, MCG_STATUS, cr3_value, edx_eax, gs_value, is_number, map_of, msr_bits,
    msr_number, upper, who_of, who_of_bits,
};
use kc_insn::Reg;
use kc_space::{GsPair, Tri};
use kc_state::{AbsCpu, Moment, value_of};
use kc_words::Width;

// The flags of RFLAGS that single instructions set and clear.
const IF: u64 = 0x200;

const DF: u64 = 0x400;

const AC: u64 = 0x4_0000;

// The processor with the flags of the mask clear.
fn cleared(m: &Moment, mask: u64) -> AbsCpu
    ensures { result ≡ with_flags m.now (clear_flag mask m.now.cpu.flags.bits) m.now.cpu }
{
    let cpu = m.cpu;
    with_flags(m, &clear_flag(mask, &cpu.flags.bits), m.cpu)
}

// The same with them set.
fn with_set(m: &Moment, mask: u64) -> AbsCpu
    ensures { result ≡ with_flags m.now (set_flag mask m.now.cpu.flags.bits) m.now.cpu }
{
    let cpu = m.cpu;
    with_flags(m, &set_flag(mask, &cpu.flags.bits), m.cpu)
}

#[tactic(auto, unfolding(kc_state::specs::AbsEffect::abs_row))]
pub(crate) fn cli(m: &Moment) -> Changed
    ensures { result ≡ abs_row m.now Cli }
{
    go_on(m, &cleared(m, IF), None)
}

#[tactic(auto, unfolding(kc_state::specs::AbsEffect::abs_row))]
pub(crate) fn cld(m: &Moment) -> Changed
    ensures { result ≡ abs_row m.now Cld }
{
    go_on(m, &cleared(m, DF), None)
}

#[tactic(auto, unfolding(kc_state::specs::AbsEffect::abs_row))]
pub(crate) fn clac(m: &Moment) -> Changed
    ensures { result ≡ abs_row m.now Clac }
{
    go_on(m, &cleared(m, AC), None)
}

#[tactic(auto, unfolding(kc_state::specs::AbsEffect::abs_row))]
pub(crate) fn stac(m: &Moment) -> Changed
    ensures { result ≡ abs_row m.now Stac }
{
    go_on(m, &with_set(m, AC), None)
}

// The gap is open where IF was clear.
fn with_gap(m: &Moment, done: &Changed) -> Changed
    ensures { result ≡ with_gap m.now done.now }
{
    let cpu = m.cpu;
    let mut after = *done;
    after.cpu.latches.shadow = tri_not(known_flag(&cpu.flags.bits, 9));
    after
}

#[tactic(auto, unfolding(kc_state::specs::AbsEffect::abs_row))]
pub(crate) fn sti(m: &Moment) -> Changed
    ensures { result ≡ abs_row m.now Sti }
{
    with_gap(m, &go_on(m, &with_set(m, IF), None))
}

#[tactic(auto, unfolding(kc_state::specs::AbsEffect::abs_row))]
pub(crate) fn swapgs(m: &Moment) -> Changed
    ensures { result ≡ abs_row m.now Swapgs }
{
    let mut cpu = *m.cpu;
    cpu.gs = GsPair {
        active: cpu.gs.inactive,
        inactive: cpu.gs.active,
    };
    go_on(m, &cpu, None)
}

#[tactic(auto, unfolding(kc_state::specs::AbsEffect::abs_row))]
pub(crate) fn read_gs(m: &Moment, r: Reg) -> Changed
    ensures { result ≡ abs_row m.now (ReadGs r) }
{
    let cpu = m.cpu;
    go_on(
        m,
        &put_register(m.cpu, r, &gs_value(m.cfg, cpu.gs.active)),
        None,
    )
}

#[tactic(auto, unfolding(kc_state::specs::AbsEffect::abs_row))]
pub(crate) fn write_gs(m: &Moment, r: Reg) -> Changed
    ensures { result ≡ abs_row m.now (WriteGs r) }
{
    let mut cpu = *m.cpu;
    cpu.gs.active = who_of(m.cfg, &value_of(m.cpu, r));
    go_on(m, &cpu, None)
}

#[tactic(auto, unfolding(kc_state::specs::AbsEffect::abs_row))]
pub(crate) fn rdmsr(m: &Moment) -> Changed
    ensures { result ≡ abs_row m.now Rdmsr }
{
    let b = msr_bits(m, msr_number(m.cpu));
    let cpu = put_register(m.cpu, Reg::RDX, &bits_value(m.cfg, &upper(&b)));
    let low = bits_value(m.cfg, &b.cut(Width::Long));
    go_on(m, &put_register(&cpu, Reg::RAX, &low), None)
}

// The processor with EDX:EAX in the model-specific register of this number.
fn with_msr(m: &Moment, n: Option<u64>) -> AbsCpu
    ensures { result ≡ with_msr m.now n }
{
    let mut cpu = *m.cpu;
    if is_number(GS_BASE, n) {
        cpu.gs.active = who_of_bits(m.cfg, &edx_eax(m.cpu));
    } else if is_number(KERNEL_GS_BASE, n) {
        cpu.gs.inactive = who_of_bits(m.cfg, &edx_eax(m.cpu));
    } else if is_number(MCG_STATUS, n) {
        cpu.latches.mcip = Tri::No;
    }
    cpu
}

#[tactic(auto, unfolding(kc_state::specs::AbsEffect::abs_row))]
pub(crate) fn wrmsr(m: &Moment) -> Changed
    ensures { result ≡ abs_row m.now Wrmsr }
{
    go_on(m, &with_msr(m, msr_number(m.cpu)), None)
}

#[tactic(auto, unfolding(kc_state::specs::AbsEffect::abs_row))]
pub(crate) fn read_cr3(m: &Moment, r: Reg) -> Changed
    ensures { result ≡ abs_row m.now (ReadCr3 r) }
{
    let cpu = m.cpu;
    go_on(m, &put_register(m.cpu, r, &cr3_value(m.cfg, cpu.map)), None)
}

#[tactic(auto, unfolding(kc_state::specs::AbsEffect::abs_row))]
pub(crate) fn write_cr3(m: &Moment, r: Reg) -> Changed
    ensures { result ≡ abs_row m.now (WriteCr3 r) }
{
    let mut cpu = *m.cpu;
    cpu.map = map_of(m.cfg, value_of(m.cpu, r).bits.single());
    go_on(m, &cpu, None)
}
