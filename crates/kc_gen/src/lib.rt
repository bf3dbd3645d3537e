//! Images and configurations that are made and not read: listings of instructions, the samples, and
//! inputs of any size.
#![tactic(auto)]

mod generated;
mod image;
mod kind;
mod line;
mod listing;
mod parts;
mod samples;
mod texts;

pub use generated::generate;
pub use image::assemble;
pub use kind::Sample;
pub use line::Line;
pub use samples::sample;
