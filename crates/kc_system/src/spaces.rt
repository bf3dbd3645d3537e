//! What is known of GS bases, of CR3 and of model-specific registers: laws on the definitions.

ghost use Rattle.kc_system.specs.Laws.{UserBaseIsCanonical, BaseValueStands, WhoseBaseIsRight, WrittenBaseIsCanonical, Cr3ValueStands, WrittenMapStands, WrittenCr3IsKnown, WrittenBitsCover, StatusBitsCover};

/// The user's GS base is canonical; the values of bases and whose they are; what may be written.
pub fn gs_bases()
    ensures user { UserBaseIsCanonical }
    ensures value { BaseValueStands }
    ensures whose { WhoseBaseIsRight }
    ensures written { WrittenBaseIsCanonical }
{}

/// The values of CR3, and which of the two is written.
pub fn cr3_values()
    ensures value { Cr3ValueStands }
    ensures map { WrittenMapStands }
    ensures known { WrittenCr3IsKnown }
{}

/// EDX:EAX, and IA32_MCG_STATUS with MCIP.
pub fn msr_bits()
    ensures written { WrittenBitsCover }
    ensures status { StatusBitsCover }
{}
