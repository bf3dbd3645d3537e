//! Cases of known bits, values, spaces, floors and states: a call and its arguments, ` -> `, and the
//! result, a line.
#![tactic(auto)]

mod access_cases;
mod bits_cases;
mod domain_cases;
mod frame_cases;
mod memory_cases;
mod order;
mod place_cases;
mod space_cases;
mod stands_cases;
mod state_cases;
mod value_cases;
mod well_formed;

pub use domain_cases::DomainCases;
pub use well_formed::is_well_formed;
