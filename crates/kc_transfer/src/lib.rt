//! What is known after an instruction, and the conditions that the instruction and the state before it
//! have to keep.
#![tactic(auto)]

mod accesses;
mod arithmetic;
mod branches;
mod calls;
mod changed;
mod conditions;
mod edits;
mod flags;
mod forbidden;
mod handler_call;
mod leave;
mod moment;
mod moves;
mod operand;
mod permitted;
mod registers;
mod results;
mod spaces;
mod stack;
mod status;
mod step;
mod system;
mod table;

pub use accesses::{Access, Accesses, accesses_of};
pub use calls::{enter_handler, use_stack};
pub use changed::{Changed, Store};
pub use edits::edit_frame;
pub use kc_state::Succ;
pub use leave::leave_abs;
pub use step::{has_stack, transfer};
pub use table::abs_row;
