//! A certificate's bytes in both versions, read in pieces.
#![tactic(auto)]

mod file;
mod head;
mod list;
mod nodes;
mod progress;
mod reader;
mod table;

pub use file::{CertEnd, read_cert_file};
pub use kc_certfields::{CertFault, CertKind};
pub use reader::{CertReader, read_cert};
