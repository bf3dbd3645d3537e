//! Which events may come, their deliveries, and what holds after their returns, over abstract states.
#![tactic(auto)]

mod accesses;
mod after;
mod covered;
mod delivery;
mod entered;
mod entry;
mod event_set;
mod events;
mod faults;
mod floors;
mod interrupted;
mod return_test;
mod stack;
mod user;

pub use after::{after_return, is_state_kept};
pub use delivery::{Interruption, deliver_abs, deliver_user};
pub use entry::Entry;
pub use event_set::EventSet;
pub use events::events_at;
pub use return_test::return_ok;
pub use user::user_events;
