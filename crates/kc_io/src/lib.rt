//! Files that are read and a sink that is written: the traits, objects in memory, the adapters over
//! the real ones, and the loops that read and write all.
#![tactic(auto)]

mod files;
mod host_files;
mod host_sink;
mod memory_files;
mod memory_sink;
mod read;
mod sink;
mod write;

pub use files::{Failed, Files};
pub use host_files::HostFiles;
pub use host_sink::HostSink;
pub use memory_files::MemFiles;
pub use memory_sink::MemSink;
pub use read::{ReadEnd, read_all};
pub use sink::Sink;
pub use write::write_all;
