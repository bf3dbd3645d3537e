//! Abstract states, the keys of contexts, and where an abstract value points.
#![tactic(auto)]

mod access;
mod condition;
mod cpu;
mod exact;
mod interrupted;
mod key;
mod location;
mod moment;
mod operand;
mod parts;
mod places;
mod returns;
mod scratch;
mod shifts;
mod site;
mod slot;
mod slot_words;
mod state;
mod succ;
mod summary;
mod top_of_stack;
mod user;

pub use access::{clear, is_stack_present, may};
pub use condition::Condition;
pub use cpu::AbsCpu;
pub use exact::is_exact;
pub use interrupted::Interrupted;
pub use key::Key;
pub use location::{Location, loc};
pub use moment::{Moment, cpu_of, number_value, value_of};
pub use operand::{effective, linear, load_at};
pub use parts::{PartChange, redo_parts};
pub use places::{home, place, stack_at};
pub use returns::restores;
pub use scratch::Scratch;
pub use shifts::{derived, is_only_stack, shift, shift_down};
pub use site::Site;
pub use slot::{is_just, load, meets_word, store};
pub use slot_words::{Mark, SlotWords, word_of};
pub use state::AbsState;
pub use succ::Succ;
pub use summary::Summary;
pub use top_of_stack::{moved_up, pop_rsp, pushed, stack_location};
pub use user::UserState;
