//! ELF-64 and raw images of kernel code: the loaded bytes by address, and the symbols by name.
#![tactic(auto)]

mod elf;
mod fault;
mod header;
mod image;
mod index;
mod laws;
mod loads;
mod names;
mod raw;
mod sections;
mod segments;
mod symbols;
mod tables;

pub use fault::{ImageFault, ImageKind};
pub use image::{Image, read_image};
pub use laws::ranges_meet_in_an_address;
