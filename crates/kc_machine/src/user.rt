//! The turn of user code.

ghost use Rattle.std.specs.Prelude.{◌≡◌};
ghost use Rattle.kc_events.specs.Attempt.{user_step};
ghost use Rattle.kc_machine.specs.Ends.{Ends, listed_after};
ghost use Rattle.kc_machine.specs.JudgeSteps.{BreaksByAccess};

use crate::end::StepEnd;
use kc_events::{UserSet, user_cpu};
use kc_exec::{Log, State};
use kc_plain::NoMemory;
use kc_regions::Config;

/// User code leaves this.
pub(crate) fn user(
    cfg: &Config,
    state: &mut State,
    log: &mut Log,
    set: &UserSet,
) -> Result<StepEnd, NoMemory>
    ensures end { let t = user_step state.old set.now in
        Ends cfg.now state.old t (BreaksByAccess cfg.now state.old t) state.new result }
    ensures accesses { let t = user_step state.old set.now in log.new ≡ listed_after log.old t.accesses result }
{
    state.mem.apply(set.writes.as_slice())?;
    log.clear();
    state.cpu = user_cpu(&state.cpu, set);
    Ok(StepEnd::Done)
}
