//! Values that rise by joins, round by round: each is read as it stood when the round began, until the round ends. It
//! knows no domain: what is joined comes from its callers.
#![tactic(auto)]

mod cell;
mod kept;
mod numbers;
mod rising;
mod rooms;

pub use cell::Cell;
pub use kept::Kept;
pub use numbers::Numbers;
pub use rising::Rising;
pub use rooms::Rooms;
