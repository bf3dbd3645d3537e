//! Why an image file is refused, this project's own.

ghost use Rattle.std.specs.Prelude.{◌≡◌};
ghost use Rattle.kc_rules.specs.Rules.{refuse};
ghost use Rattle.kc_image.specs.Fault.{fault, no_memory};

use std::alloc::{AllocError, AllocFailed};

/// The kind of an image's first fault.
#[derive(Clone, Copy, PartialEq, Eq, Debug)]
pub enum ImageKind {
    /// One of the first four bytes isn't the ELF magic's.
    BadMagic = 1,
    /// The file isn't of class ELFCLASS64 or isn't little-endian.
    BadClass = 2,
    /// The file isn't of type ET_EXEC.
    BadType = 3,
    /// The machine isn't EM_X86_64.
    BadMachine = 4,
    /// A header or a header table isn't whole or has entries of another size.
    HeaderOut = 5,
    /// A loaded segment passes the file's or the memory's end.
    SegmentOut = 6,
    /// A loaded segment has a byte of an earlier one.
    SegmentsMeet = 7,
    /// A symbol table, its string table or a symbol's name passes its bounds.
    SymbolOut = 8,
    /// Memory ran out; nothing is said of the file.
    NoMemory = 9,
}

/// The first rule that an image file breaks, and its place.
#[derive(Clone, Copy, PartialEq, Eq, Debug)]
pub struct ImageFault {
    pub kind: ImageKind,
    /// The offset in the file, in bytes, of the field, header or symbol at fault; the file's length
    /// where the file is too short; 0 for `NoMemory`.
    pub at: u64,
}

impl From<AllocError> for ImageFault {
    ghost from_gives = { λ _ e. e ≡ no_memory };

    fn from(_error: AllocError) -> ImageFault {
        ImageFault {
            kind: ImageKind::NoMemory,
            at: 0,
        }
    }
}

impl<T: Drop> From<AllocFailed<T>> for ImageFault {
    ghost from_gives = { λ _ e. e ≡ no_memory };

    fn from(_error: AllocFailed<T>) -> ImageFault {
        ImageFault {
            kind: ImageKind::NoMemory,
            at: 0,
        }
    }
}

/// The fault at this place, where the rule is broken.
pub(crate) fn refuse_if(broken: bool, kind: ImageKind, at: u64) -> Result<(), ImageFault>
    ensures { result ≡ refuse broken (fault kind at) }
{
    if broken {
        Err(ImageFault { kind, at })
    } else {
        Ok(())
    }
}
