//! The rules between the parts of a description, asked in their order.

ghost use Rattle.std.specs.Prelude.{◌≡◌, ◌≤◌, ◌<◌, ◌^◌, ℕ, length, IfOk, IfErr, slice_index, true, false};
ghost use Rattle.kc_regions.specs.Each.{Each, IsFirstBreaking};
ghost use Rattle.kc_regions.specs.Description.{of_parts};
ghost use Rattle.kc_regions.specs.Ranges.{AreInRange};
ghost use Rattle.kc_regions.specs.CrossRules.{CrossRules, IsFirstCrossFault, AreCr3Apart, IsTssInArea, HasGate, needed_vectors};

use crate::config::{
    CR3_VALUES, CrossFault, ENTRIES, GATES, GUARDS, SIDES, STACKS, TSS, VECTORS, WORDS,
};
use crate::cpu::CpuSetup;
use crate::cross::{
    GuardBelow, NeededGate, NewEntry, NewVector, OnItsSide, StackInBounds, WordPlaced, is_in_area,
};
use crate::each::{Rule, first_breaking};
use crate::entry::{Gate, Handler, Word};
use crate::regions::Regions;

/// The vectors of debug exception, NMI, page fault and machine check.
const NEEDED: [u8; 4] = [1, 2, 14, 18];

/// How many bytes the TSS has.
const TSS_SIZE: u64 = 104;

pub(crate) fn check_rules(
    cpu: &CpuSetup,
    regions: &Regions,
    gates: &[Gate],
    handlers: &[Handler],
    words: &[Word],
) -> Result<(), CrossFault>
    requires { AreInRange (of_parts cpu.now regions.now gates.now handlers.now words.now) }
    ensures ok { IfOk result (λ _. CrossRules (of_parts cpu.now regions.now gates.now handlers.now words.now)) }
    ensures fault { IfErr result (IsFirstCrossFault (of_parts cpu.now regions.now gates.now handlers.now words.now)) }
{
    let list = regions.list();
    check_each(SIDES, &OnItsSide, list)?;
    check_each(STACKS, &StackInBounds, list)?;
    check_each(GUARDS, &GuardBelow { regions: list }, list)?;
    check_cr3_values(cpu, regions)?;
    check_tss(cpu, regions)?;
    check_each(VECTORS, &NewVector, gates)?;
    check_gates(gates)?;
    check_each(ENTRIES, &NewEntry, handlers)?;
    let placed = WordPlaced {
        tss: cpu.tss,
        regions: list,
    };
    check_each(WORDS, &placed, words)
}

fn check_each<T, R: Rule<T>>(number: u8, rule: &R, items: &[T]) -> Result<(), CrossFault>
    requires { length items.now < 2 ^ 16 }
    ensures ok { IfOk result (λ _. Each (R.kept rule.now) items.now) }
    ensures number { IfErr result (λ f. f.rule ≡ number) }
    ensures first { IfErr result (λ f. IsFirstBreaking (R.kept rule.now) items.now f.index) }
{
    match first_breaking(rule, items) {
        Some(i) => Err(CrossFault {
            rule: number,
            index: i as u16,
        }),
        None => Ok(()),
    }
}

fn check_cr3_values(cpu: &CpuSetup, regions: &Regions) -> Result<(), CrossFault>
    ensures ok { IfOk result (λ _. AreCr3Apart cpu.now regions.now) }
    ensures fault { IfErr result (λ f. f ≡ record { rule = CR3_VALUES; index = 0 }) }
    ensures broken { IfErr result (λ _. ¬ AreCr3Apart cpu.now regions.now) }
{
    let apart = cpu.kernel_cr3 != cpu.user_cr3
        && regions.stack_of(cpu.kernel_cr3).is_none()
        && regions.stack_of(cpu.user_cr3).is_none();
    whole(CR3_VALUES, apart)
}

fn check_tss(cpu: &CpuSetup, regions: &Regions) -> Result<(), CrossFault>
    ensures ok { IfOk result (λ _. IsTssInArea cpu.now regions.now) }
    ensures fault { IfErr result (λ f. f ≡ record { rule = TSS; index = 0 }) }
    ensures broken { IfErr result (λ _. ¬ IsTssInArea cpu.now regions.now) }
{
    whole(TSS, is_in_area(regions.list(), cpu.tss, TSS_SIZE))
}

/// A rule on the processor's setup: its fault names no element.
fn whole(number: u8, holds: bool) -> Result<(), CrossFault>
    ensures ok { IfOk result (λ _. holds ≡ true) }
    ensures fault { IfErr result (λ f. f ≡ record { rule = number; index = 0 }) }
    ensures broken { IfErr result (λ _. holds ≡ false) }
{
    if holds {
        Ok(())
    } else {
        Err(CrossFault {
            rule: number,
            index: 0,
        })
    }
}

fn check_gates(gates: &[Gate]) -> Result<(), CrossFault>
    ensures ok { IfOk result (λ _. Each (HasGate gates.now) needed_vectors) }
    ensures number { IfErr result (λ f. f.rule ≡ GATES) }
    ensures first { IfErr result (λ f. (i : ℕ) × IsFirstBreaking (HasGate gates.now) needed_vectors i
        × (f.index ≡ slice_index needed_vectors i)) }
{
    match first_breaking(&NeededGate { gates }, &NEEDED) {
        Some(i) => Err(CrossFault {
            rule: GATES,
            index: NEEDED[i] as u16,
        }),
        None => Ok(()),
    }
}
