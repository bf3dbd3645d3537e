//! The lines of a trace, and what may stand where.

ghost use Rattle.std.specs.Prelude.{◌≡◌};
ghost use Rattle.kc_trace.specs.Form.{takes_bytes, turns_of, place_after};

use crate::assignment::Assignment;
use kc_plain::Items;

/// A line of a trace. Of its assignments it keeps those that are written.
#[derive(Debug, Drop)]
pub enum Line {
    /// What user code starts with; what isn't assigned is 0, but RFLAGS is 0x202 and CS is that of
    /// 64-bit user code.
    Start(Items<Assignment>),
    /// Bytes that the last line before it, apart from other such lines, writes from this address on.
    Mem(u64, Items<u8>),
    /// So many Go turns.
    Go(u32),
    /// A maskable interrupt of this vector.
    Irq(u8),
    /// A non-maskable interrupt.
    Nmi,
    /// A debug exception.
    Debug,
    /// A machine check.
    Check,
    /// A page fault: the address at fault, and the error code.
    Fault(u64, u32),
    /// An exception that user code raises: its vector, and the error code.
    Trap(u8, u32),
    /// SYSCALL of 64-bit user code.
    Syscall,
    /// A step of user code; what isn't assigned is as at the start.
    User(Items<Assignment>),
    /// A step of a handler; what isn't assigned stays, and an edit that isn't there is none.
    Body(Items<Assignment>),
    /// A handler's return. What isn't assigned stays; RFLAGS then has DF clear and IF as the
    /// handler's contract says.
    Leave(Items<Assignment>),
}

/// What the lines before a place leave: which lines may stand there.
#[derive(Clone, Copy, PartialEq, Eq, Debug)]
pub(crate) struct Place {
    /// A line counted.
    pub(crate) begun: bool,
    /// The last line that counted writes, or is a `mem` line.
    pub(crate) takes_bytes: bool,
    /// So many turns may come.
    pub(crate) left: u32,
}

/// How many turns the line is.
fn turns_of(line: &Line) -> u32
    ensures { result ≡ turns_of line.now }
{
    match line {
        Line::Start(_) | Line::Mem(_, _) => 0,
        Line::Go(count) => *count,
        _ => 1,
    }
}

/// Whether a `mem` line may follow it.
fn takes_bytes(line: &Line) -> bool
    ensures { result ≡ takes_bytes line.now }
{
    matches!(
        line,
        Line::Start(_) | Line::Mem(_, _) | Line::User(_) | Line::Body(_)
    )
}

impl Place {
    /// The place after this line.
    pub(crate) fn after(&self, line: &Line) -> Place
        ensures { result ≡ place_after self.now line.now }
    {
        Place {
            begun: true,
            takes_bytes: takes_bytes(line),
            left: self.left.saturating_sub(turns_of(line)),
        }
    }
}
