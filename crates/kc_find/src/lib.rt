//! The finder: it makes the table of a certificate by rounds, each of which joins the table with all that it demands, until
//! nothing changes.
#![tactic(auto)]

mod contexts;
mod events;
mod finder;
mod ordered;
mod rounds;
mod rows;
mod table;
mod users;
mod visit;

pub use finder::{FindEnd, find};
