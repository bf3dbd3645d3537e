//! The turns of the machine: which may come, what a delivery does, the breaks, and when an image is
//! safe.
#![tactic(auto)]

mod delivery;
mod fetched;
mod handler;
mod processor;
mod table;
mod turn;

pub use delivery::{DeliverEnd, deliver};
pub use fetched::fetch;
pub use processor::{body_cpu, enter_syscall, leave_cpu, user_cpu};
pub use table::allowed;
pub use turn::{BodySet, Edit, LeaveSet, Trace, Turn, UserSet};
