//! Lists and texts that contracts see as plain values, and the answer where memory runs out.
#![tactic(auto)]

mod items;
mod memory;
mod text;

pub use items::Items;
pub use memory::NoMemory;
pub use text::Text;
