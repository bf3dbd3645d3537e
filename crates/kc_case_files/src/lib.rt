//! Files of cases: lines that make descriptions, and lines that each say a case under one of them.
#![tactic(auto)]

mod case_file;
mod descriptions;

pub use case_file::CaseFile;
pub use descriptions::Descriptions;

/// What answers a case.
pub trait Judge {
    /// Whether the case of this line agrees; nothing where the line isn't read.
    fn agrees(&mut self, all: &Descriptions, line: &str) -> Option<bool>;
}
