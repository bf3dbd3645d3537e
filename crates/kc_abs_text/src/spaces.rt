//! GS bases, CR3 and latches.

use kc_space::{GsPair, Latches, MapState, Tri, Who};

/// `K`, `U` or `A`: the kernel's, the user's or any.
pub fn who(text: &str) -> Option<Who> {
    match text {
        "K" => Some(Who::Kernel),
        "U" => Some(Who::User),
        "A" => Some(Who::Any),
        _ => None,
    }
}

/// `K`, `U` or `A`.
pub fn map(text: &str) -> Option<MapState> {
    match text {
        "K" => Some(MapState::Kernel),
        "U" => Some(MapState::User),
        "A" => Some(MapState::Any),
        _ => None,
    }
}

/// `N`, `Y` or `A`: no, yes or any.
pub fn tri(text: &str) -> Option<Tri> {
    match text {
        "N" => Some(Tri::No),
        "Y" => Some(Tri::Yes),
        "A" => Some(Tri::Any),
        _ => None,
    }
}

/// The active GS base and the inactive one.
pub fn gs(text: &str) -> Option<GsPair> {
    Some(GsPair {
        active: who(text.get(0..1)?)?,
        inactive: who(text.get(1..)?)?,
    })
}

/// `nmi_blocked`, `shadow` and `mcip`.
pub fn latches(text: &str) -> Option<Latches> {
    Some(Latches {
        nmi_blocked: tri(text.get(0..1)?)?,
        shadow: tri(text.get(1..2)?)?,
        mcip: tri(text.get(2..)?)?,
    })
}
