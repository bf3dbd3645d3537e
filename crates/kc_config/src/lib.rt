//! The description of a kernel, read from its TOML text: the first fault by the order of reading, with
//! the path of its key.
#![tactic(auto)]

mod address;
mod cpu;
mod fault;
mod gate;
mod handler;
mod keys;
mod path;
mod reading;
mod region;
mod top;
mod word;

pub use fault::ConfigFault;
pub use path::KeyPath;
pub use reading::read_config;
