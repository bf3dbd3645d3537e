//! The status that the program ends with.

ghost use Rattle.std.specs.Prelude.{◌≡◌};
ghost use Rattle.kc_top.specs.Status.{code_of};

/// How a run of the program ends.
#[derive(Clone, Copy, PartialEq, Eq, Debug)]
pub enum Status {
    /// The command did its work; of all but `replay` and `upgrade`: the certificate is accepted.
    Done,
    /// The conditions fail, or no table was found within the limits.
    Refused,
    /// The words are no command.
    Usage,
    /// The image isn't in its form.
    BadImage,
    /// The configuration isn't in its form.
    BadConfig,
    /// The certificate isn't in its form.
    BadCert,
    /// The trace isn't in its form.
    BadTrace,
    /// A file couldn't be read.
    ReadFault,
    /// The output couldn't be written.
    WriteFault,
    /// Memory ran out.
    NoMemory,
    /// A file is larger than its limit.
    TooLarge,
}

impl Status {
    /// The exit code: 0 to 10, in the order of the variants.
    pub fn code(self) -> u8
        ensures code { result ≡ code_of self }
    {
        self as u8
    }
}
