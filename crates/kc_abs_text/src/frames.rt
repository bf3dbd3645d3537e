//! Floors, and what an event may write.

use crate::numbers::number;
use crate::spaces::latches;
use kc_frames::{Clobber, Floor};
use kc_state::Summary;

/// `base`, `none` for no live byte, or an address.
pub fn floor(text: &str) -> Option<Floor> {
    match text {
        "base" => Some(Floor::Base),
        "none" => Some(Floor::At(u64::MAX)),
        _ => Some(Floor::At(number(text)?)),
    }
}

/// `stacks=N words=N`, two sets.
pub fn clobber(text: &str) -> Option<Clobber> {
    let (stacks, words) = text.split_once(' ')?;
    sets(
        number(stacks.strip_prefix("stacks=")?)?,
        number(words.strip_prefix("words=")?)?,
    )
}

fn sets(stacks: u64, words: u64) -> Option<Clobber> {
    if stacks <= 0xFFFF && words <= 0xFF_FFFF_FFFF {
        Some(Clobber {
            stacks: stacks as u32,
            words,
        })
    } else {
        None
    }
}

/// What may be written and ` latch=NNN`.
pub fn summary(text: &str) -> Option<Summary> {
    let (written, left) = text.split_once(" latch=")?;
    Some(Summary {
        clobber: clobber(written)?,
        latches: latches(left)?,
    })
}
