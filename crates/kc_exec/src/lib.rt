//! What each instruction does: the effect table of the model and the code that equals it, the state
//! of the machine, live bytes, and the processors with which user code may run.
#![tactic(auto)]

mod access;
mod admission;
mod arithmetic;
mod before;
mod branches;
mod breaks;
mod executed;
mod execution;
mod flags;
mod live;
mod log;
mod moves;
mod register;
mod returns;
mod stack;
mod state;
mod system;
mod table;

pub use access::{Access, Write};
pub use admission::admitted;
pub use before::Before;
pub use executed::{ExecEnd, Executed};
pub use execution::{effect, exec, meets_guard};
pub use kc_regions::Touch;
pub use live::is_live;
pub use log::Log;
pub use state::{Activation, State};
