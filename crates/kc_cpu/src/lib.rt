//! The processor of the model as plain data (Intel SDM vol. 1, "Basic Program Execution Registers").
#![tactic(auto)]

mod cpu;

pub use cpu::{Call, Cpu, Latch, Mode};
