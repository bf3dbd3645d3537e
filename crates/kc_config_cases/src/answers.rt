//! The lines of what comes of a description.

use crate::case::Case;
use crate::values::value_at;
use kc_config::ConfigFault;
use kc_regions::Config;
use std::alloc::Global;
use std::io;

/// The line of an accepted description, or the first value that differs.
pub(crate) fn accepted(alloc: Global, case: &Case, config: &Config) -> io::Result<String> {
    for value in &case.values {
        let (path, wanted) = value.as_str().split_once(' ').unwrap_or(("", ""));
        let found = value_at(alloc, config, path)?;
        if found.as_str() != wanted {
            return Ok(format!(in alloc; "{path} {found}")?);
        }
    }
    Ok(String::from_str(alloc, "accepted")?)
}

/// The line of a fault.
pub(crate) fn fault_line(alloc: Global, fault: &ConfigFault) -> io::Result<String> {
    Ok(match fault {
        ConfigFault::Syntax => String::from_str(alloc, "bad config 1 Syntax -")?,
        ConfigFault::Missing(path) => format!(in alloc; "bad config 2 Missing {}", path.text())?,
        ConfigFault::WrongKind(path) => {
            format!(in alloc; "bad config 3 WrongKind {}", path.text())?
        }
        ConfigFault::OutOfRange(path) => {
            format!(in alloc; "bad config 4 OutOfRange {}", path.text())?
        }
        ConfigFault::UnknownKey(path) => {
            format!(in alloc; "bad config 5 UnknownKey {}", path.text())?
        }
        ConfigFault::NoSymbol(path) => format!(in alloc; "bad config 6 NoSymbol {}", path.text())?,
        ConfigFault::Regions(path) => format!(in alloc; "bad config 7 Regions {}", path.text())?,
        ConfigFault::GuardMissing(path) => {
            format!(in alloc; "bad config 8 GuardMissing {}", path.text())?
        }
        ConfigFault::NoMemory => String::from_str(alloc, "no memory")?,
    })
}
