//! Why a certificate's bytes are refused, this project's own.

ghost use Rattle.std.specs.Prelude.{◌≡◌};
ghost use Rattle.kc_certfields.specs.Fault.{no_memory};

use kc_plain::NoMemory;
use std::alloc::{AllocError, AllocFailed};

/// The kind of the first fault of a certificate's bytes.
#[derive(Clone, Copy, PartialEq, Eq, Debug)]
pub enum CertKind {
    /// A byte of the magic differs.
    BadMagic = 1,
    /// The version is neither 1 nor 2.
    Version = 2,
    /// The bytes end within a field.
    Short = 3,
    /// Bytes follow the last node.
    Trailing = 4,
    /// A context, node or slot isn't above the one before it, or a state was written before.
    Order = 5,
    /// A field is out of its range.
    Range = 6,
    /// A count is over its limit.
    TooMany = 7,
    /// Memory ran out; nothing is said of the bytes.
    NoMemory = 8,
}

/// The first rule that a certificate's bytes break, and where.
#[derive(Clone, Copy, PartialEq, Eq, Debug)]
pub struct CertFault {
    pub kind: CertKind,
    /// The offset in bytes of the field or record at fault; the number of bytes where they end
    /// within a field; 0 for `NoMemory`.
    pub at: u64,
}

impl From<AllocError> for CertFault {
    ghost from_gives = { λ _ e. e ≡ no_memory };

    fn from(_error: AllocError) -> CertFault {
        CertFault {
            kind: CertKind::NoMemory,
            at: 0,
        }
    }
}

impl<T: Drop> From<AllocFailed<T>> for CertFault {
    ghost from_gives = { λ _ e. e ≡ no_memory };

    fn from(_error: AllocFailed<T>) -> CertFault {
        CertFault {
            kind: CertKind::NoMemory,
            at: 0,
        }
    }
}

impl From<NoMemory> for CertFault {
    ghost from_gives = { λ _ e. e ≡ no_memory };

    fn from(_error: NoMemory) -> CertFault {
        CertFault {
            kind: CertKind::NoMemory,
            at: 0,
        }
    }
}
