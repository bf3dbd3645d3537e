//! What the conditions read of a node: its instruction, where the program goes on from it, the order in which its
//! events are asked, what its instruction may write, and what holds at its return.
#![tactic(auto)]

mod covered;
mod goes;
mod order;
mod placed;
mod returning;
mod start;
mod user;
mod written;

pub use covered::are_slots_covered;
pub use goes::go_on;
pub use order::Vectors;
pub use placed::{PlacedNode, calls_handler, is_exact_at, is_text, place};
pub use returning::{is_return, is_return_insn, latches_after};
pub use start::{is_start_covered, put_start_user};
pub use user::{Plain, is_user_after_covered, put_user_after};
pub use written::{home_written, written_by};
