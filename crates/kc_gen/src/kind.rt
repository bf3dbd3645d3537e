//! Which sample is meant.

/// A sample (this project's own). Each is a raw image loaded at 0xffffffff81000000.
#[derive(Clone, Copy, PartialEq, Eq, Debug)]
pub enum Sample {
    /// One jump to itself, which every entry leads to.
    S0,
    /// Entries of SYSCALL, interrupts, page faults, debug traps, NMIs and machine checks, with two
    /// address spaces.
    S1,
    /// S1 with an NMI entry that moves its frame to a stack of its own, so that its handler may
    /// fault.
    S2,
}
