//! The conditions on an instruction and the state before it, C4 and C6 to C12. This project's own.

ghost use Rattle.std.specs.Prelude.{◌≡◌, true};
ghost use Rattle.kc_insn.specs.Encodable.{is_encodable};
ghost use Rattle.kc_rules.specs.Rules.{refuse};
ghost use Rattle.kc_value.specs.Made.{IsPlace};
ghost use Rattle.kc_state.specs.AbsStep.{conditions};

use crate::accesses::accesses_of;
use crate::changed::Changed;
use crate::forbidden::{is_allowed, loads_known_cr3};
use crate::handler_call::calls_well;
use crate::permitted::{is_clear, is_permitted, uses_kernel_gs};
use kc_insn::Insn;
use kc_state::{AbsState, Condition, Moment, is_exact, restores};

fn refuse(broken: bool, condition: Condition) -> Result<(), Condition>
    ensures { result ≡ refuse broken condition }
{
    if broken { Err(condition) } else { Ok(()) }
}

// The first condition that fails, by their numbers.
pub(crate) fn check_conditions(
    m: &Moment,
    state: &AbsState,
    insn: &Insn,
    done: &Changed,
) -> Result<(), Condition>
    requires encodable { is_encodable insn.now ≡ true }
    requires stack { IsPlace m.now.key.stack }
    ensures { result ≡ conditions m.now state.now insn.now done.now }
{
    let all = accesses_of(m, insn, done.store);
    let floors = &state.floors;
    refuse(!is_exact(m, false), Condition::EXACT_SPACES)?;
    refuse(!uses_kernel_gs(m, &all), Condition::KERNEL_GS)?;
    refuse(!is_permitted(m, insn, &all), Condition::ACCESS_PERMITTED)?;
    refuse(!is_clear(m, floors, &all), Condition::NO_LIVE_BYTE_WRITTEN)?;
    refuse(!loads_known_cr3(m, insn), Condition::CR3_VALUE)?;
    refuse(!calls_well(m, floors, insn), Condition::HANDLER_CALL)?;
    refuse(!is_allowed(m, insn), Condition::NOTHING_FORBIDDEN)?;
    refuse(!restores(m, insn), Condition::RETURN_TEST)
}
