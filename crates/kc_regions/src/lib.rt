//! The description of a kernel: its regions, gates, handlers, tracked words and processor setup,
//! with the rules that hold between them.
#![tactic(auto)]

mod check;
mod config;
mod cpu;
mod cross;
mod each;
mod entry;
mod laws;
mod order;
mod region;
mod regions;
mod touch;

pub use config::{Config, CrossFault, MAX_GATES, MAX_HANDLERS, MAX_WORDS};
pub use cpu::CpuSetup;
pub use entry::{AfterIf, Gate, Handler, Word};
pub use laws::layout;
pub use region::{Kind, Region};
pub use regions::{MAX_REGIONS, RegionFault, Regions};
pub use touch::Touch;
