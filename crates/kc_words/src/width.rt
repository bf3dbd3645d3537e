//! Operand widths (Intel SDM vol. 2, "Instruction Format").

ghost use Rattle.std.specs.Prelude.{◌≡◌, ◌==◌};
ghost use Rattle.kc_words.specs.Flags.{bits_of, cut, sign};

/// How many bits of an operand an instruction reads or writes.
#[derive(Clone, Copy, PartialEq, Eq, Debug)]
pub enum Width {
    /// 8 bits.
    Byte,
    /// 32 bits, a doubleword.
    Long,
    /// 64 bits, a quadword.
    Quad,
}

impl Width {
    /// 8, 32 or 64.
    pub fn bits(self) -> u32
        ensures value { result ≡ bits_of self }
    {
        match self {
            Width::Byte => 8,
            Width::Long => 32,
            Width::Quad => 64,
        }
    }

    /// The low bits of `v` that an operand of this width takes, with 0 above them.
    pub fn cut(self, v: u64) -> u64
        ensures value { result ≡ cut self v }
    {
        match self {
            Width::Byte => v & 0xFF,
            Width::Long => v & 0xFFFF_FFFF,
            Width::Quad => v,
        }
    }

    /// Whether the top bit of an operand of this width is set in `v`.
    pub fn is_negative(self, v: u64) -> bool
        ensures is { result ≡ (sign (bits_of self) v == 1) }
    {
        (v >> (self.bits() - 1)) & 1 == 1
    }
}
