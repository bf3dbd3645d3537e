//! Accesses: the bytes that an instruction or a delivery touches at once. This project's own.

ghost use Rattle.std.specs.Prelude.{◌≡◌};
ghost use Rattle.kc_exec.specs.Execution.{access_of};

use crate::before::bytes_of;
use kc_regions::Touch;
use kc_words::Width;

/// An access: `size` bytes from `at` on, which wrap at 2^64.
#[derive(Clone, Copy, PartialEq, Eq, Debug)]
pub struct Access {
    pub at: u64,
    /// 1 to 16.
    pub size: u8,
    pub touch: Touch,
    /// Whether the active GS base went into the address.
    pub gs: bool,
}

/// The one write that an instruction may make: the low bytes of `value`, as many as `width` has.
#[derive(Clone, Copy, PartialEq, Eq, Debug)]
pub struct Write {
    pub at: u64,
    pub width: Width,
    pub value: u64,
    /// Whether the active GS base went into the address.
    pub gs: bool,
}

impl Write {
    /// The access that the write is.
    pub fn access(&self) -> Access
        ensures value { result ≡ access_of self.now }
    {
        Access {
            at: self.at,
            size: bytes_of(self.width),
            touch: Touch::Write,
            gs: self.gs,
        }
    }
}
