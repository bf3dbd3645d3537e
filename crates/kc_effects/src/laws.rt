//! What an image spells, and what the analysis knows after each instruction but a return.

ghost use Rattle.kc_effects.specs.Effects.{FoundIsSpelled, EachRowIsCovered};

/// What an image spells is an instruction with a spelling, whose fields fit their types.
pub fn spelled()
    ensures encodable { FoundIsSpelled }
{}

/// Each instruction but IRETQ and SYSRETQ.
pub fn covered()
    ensures rows { EachRowIsCovered }
{}
