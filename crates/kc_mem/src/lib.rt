//! Byte memory of 2^64 addresses, in pages.
#![tactic(auto)]

mod memory;
mod pages;

pub use memory::Memory;
