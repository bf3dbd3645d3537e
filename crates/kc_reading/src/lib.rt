//! Laws of readers: when what a reader takes from the beginning of a list of bytes is exactly what a
//! grammar spells, and how such readers are put together. This crate has definitions and laws
//! alone, and no code.
#![tactic(auto)]
