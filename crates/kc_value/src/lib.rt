//! Abstract words: a symbol, known bits, and the stacks in which the number may lie.
#![tactic(auto)]

mod env;
mod made;
mod symbol;
mod value;

pub use env::ValueEnv;
pub use symbol::Sym;
pub use value::Value;
