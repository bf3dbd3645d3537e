//! Tables whose cases are tried one after another.

use kc_tables::{Case, Unread, case_of};
use std::alloc::Global;
use std::test::Fail;

/// What the cases of a table are tried on.
pub trait Trial {
    /// Whether what comes of a case is as its columns say.
    fn holds(&self, alloc: Global, case: &mut Case<'_>) -> Result<bool, Unread>;
}

/// Tries each case of a table. A failure names the first line whose case isn't as its columns say.
pub fn each_holds<T: Trial>(alloc: Global, trial: &T, table: &str) -> Result<(), Fail> {
    for line in table.lines() {
        if let Some(mut case) = case_of(line) {
            if !trial.holds(alloc, &mut case)? {
                return Err(Fail::new(line));
            }
        }
    }
    Ok(())
}
