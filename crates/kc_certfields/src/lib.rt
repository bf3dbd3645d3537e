//! The fields of a certificate, read with their first fault and written: values, slots, floors,
//! states, keys and summaries.
#![tactic(auto)]

mod fault;
mod floors;
mod input;
mod keys;
mod numbers;
mod put;
mod put_states;
mod slots;
mod spaces;
mod states;
#[cfg(test)]
mod tests;
mod values;

pub use fault::{CertFault, CertKind};
pub use input::{Input, refuse_if};
pub use keys::{read_key, read_summary};
pub use numbers::{read_u8, read_u32, read_u64};
pub use put::{LONGEST_RECORD, Record, put_bytes, put_key, put_summary, put_u8, put_u32, put_u64};
pub use put_states::{put_state, put_user};
pub use spaces::read_bit;
pub use states::{read_state, read_user};
