//! The REX prefix (Intel SDM vol. 2, "REX Prefixes").

/// The four bits of a REX byte, 0100WRXB.
#[derive(Clone, Copy, PartialEq, Eq, Debug)]
pub struct Rex {
    /// The operand has 64 bits.
    pub w: bool,
    /// Extends the ModRM byte's reg field.
    pub r: bool,
    /// Extends the SIB byte's index field.
    pub x: bool,
    /// Extends the ModRM byte's rm field, the SIB byte's base field or the opcode's register.
    pub b: bool,
}
