//! What the abstract step of an instruction says of the machine's.

ghost use Rattle.kc_step.specs.Covered.{StepIsCovered};
ghost use Rattle.kc_step.specs.Step.{StepBreaksNothing, StepMakesStore};

/// Where the abstract step of an instruction has an answer, the machine's step breaks nothing, whichever
/// instruction it is, and what it writes is the abstract store.
pub fn quiet()
    ensures nothing { StepBreaksNothing }
    ensures store { StepMakesStore }
{}

/// And the machine stops or goes on where the answer says, and the answered state describes it there.
pub fn stepped()
    ensures covered { StepIsCovered }
{}
