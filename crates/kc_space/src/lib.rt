//! What is known of the GS bases, of CR3 and of the latches.
#![tactic(auto)]

mod env;
mod gs;
mod latches;
mod map;
mod tri;
mod who;

pub use env::SpaceEnv;
pub use gs::GsPair;
pub use latches::Latches;
pub use map::MapState;
pub use tri::Tri;
pub use who::Who;
