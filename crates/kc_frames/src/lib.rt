//! What is known of the stacks' live bytes, of tracked memory words, and of what events may write.
#![tactic(auto)]

mod clobber;
mod first;
mod floor;
mod floors;
mod padding;
mod redo;
mod slots;

pub use clobber::Clobber;
pub use floor::Floor;
pub use floors::Floors;
pub use redo::Change;
pub use slots::Slots;
