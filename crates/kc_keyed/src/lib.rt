//! Law: rows of keys and values are a finite map.
#![tactic(auto)]

mod laws;

pub use laws::rows_are_a_map;
