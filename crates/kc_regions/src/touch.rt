//! The right that an access needs.

/// What an access does with its bytes, and so the right that it needs of their regions.
#[derive(Clone, Copy, PartialEq, Eq, Debug)]
pub enum Touch {
    /// Fetches them as code: needs `exec`.
    Fetch,
    /// Reads them: a region that is present may be read.
    Read,
    /// Writes them: needs `write`.
    Write,
}
