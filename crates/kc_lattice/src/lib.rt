//! Lattices of abstract values: the traits, the lifted pair and list, and the join of a list.
#![tactic(auto)]

mod both;
mod domain;
mod list;
mod row;

pub use both::Both;
pub use domain::{Domain, Meaning};
pub use list::{
    is_top_each, join_all, join_changed, join_each, leq_each, set_top_each, stands_each, tell_each,
};
pub use row::Row;
