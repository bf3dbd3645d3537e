//! What the events of the analysis say of the machine's.

ghost use Rattle.kc_arrivals.specs.Arrivals.{EventIsAmong, UserEventIsAmong};

/// An event that the machine allows at a site of kernel code is one that the analysis counts with there,
/// where the accesses of the site's instruction are permitted (C7).
pub fn in_kernel()
    ensures among { EventIsAmong }
{}

/// An event that the machine allows while the user runs is one that the analysis counts with.
pub fn in_user()
    ensures among { UserEventIsAmong }
{}
