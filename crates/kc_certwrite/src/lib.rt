//! Writing a certificate in both versions.
#![tactic(auto)]

mod laws;
mod records;
mod sharing;
mod writer;

pub use laws::form_has_spelling;
pub use sharing::{WriteEnd, write_cert2};
pub use writer::write_cert;
