//! Regions: parts of the address space with what they are for, this project's own. They stand in
//! place of page tables.

ghost use Rattle.std.specs.Prelude.{◌≡◌};
ghost use Rattle.kc_regions.specs.Region.{is_area, is_guard, is_stack};

use kc_plain::Text;
use kc_words::Span;

/// What a region is for. A description's word for `Plain` is `data`; the other words are the names
/// in lower case.
#[derive(Clone, Copy, PartialEq, Eq, Debug)]
pub enum Kind {
    /// Code.
    Text,
    /// Kernel memory that only entry code and the processor write: the TSS, the IDT, the GDT and
    /// the tracked words lie in areas.
    Area,
    /// Kernel memory that handlers may write.
    Plain,
    /// A kernel stack.
    Stack,
    /// The unmapped bytes below a stack: an access to one of them stops the machine.
    Guard,
    /// User memory.
    User,
}

/// A region of the address space. Every region is present under the kernel's CR3, guards apart.
#[derive(Debug, Drop)]
pub struct Region {
    /// 1 to 32 characters of a to z, 0 to 9 and _.
    pub name: Text,
    /// Its addresses.
    pub span: Span,
    pub kind: Kind,
    /// Whether it is present under the user's CR3 too.
    pub user_map: bool,
    /// Whether it may be written. Never with a text or a guard, and always with a stack.
    pub write: bool,
    /// Whether instructions may be fetched from it. Only with text.
    pub exec: bool,
    /// Whether an access to it may raise a page fault. Never with a guard.
    pub may_fault: bool,
    /// Whether no debug exception comes while RIP lies in it. Only with text.
    pub quiet: bool,
    /// Whether the words under its top are tracked. Only with a stack.
    pub marked: bool,
}

impl Kind {
    /// Whether it is an area.
    pub fn is_area(self) -> bool
        ensures is { result ≡ is_area self }
    {
        matches!(self, Kind::Area)
    }

    /// Whether it is a stack.
    pub fn is_stack(self) -> bool
        ensures is { result ≡ is_stack self }
    {
        matches!(self, Kind::Stack)
    }

    /// Whether it is a guard.
    pub fn is_guard(self) -> bool
        ensures is { result ≡ is_guard self }
    {
        matches!(self, Kind::Guard)
    }
}
