//! The exact checker of certificates: it compares the rows of a table, one node and one edge at a time, joins nothing
//! and repairs nothing.
#![tactic(auto)]

mod checker;
mod context;
mod counted;
mod events;
mod form;
mod node;
mod placed;
mod refused;
mod returning;
mod successors;
mod table;
mod user;

pub use checker::check;
