//! The text form of what is known in the analysis: values, places, keys and states, as files and tables
//! of cases write them. Nothing here is on the path of the program.
#![tactic(auto)]

mod code;
mod frames;
mod keys;
mod locations;
mod named;
mod numbers;
mod same;
mod spaces;
mod states;
mod users;
mod values;

pub use code::{Code, code_at, site};
pub use frames::{clobber, floor, summary};
pub use keys::key;
pub use locations::{Shift, location, map_location, moved, stack_number};
pub use named::state;
pub use numbers::{answer, count, number, signed};
pub use same::{is_same_state, is_same_user};
pub use spaces::{gs, latches, map, tri, who};
pub use states::with_all;
pub use users::user;
pub use values::{bits, value};
