//! The conditions that a certificate meets, this project's own.

/// One of the conditions C1 to C17, by its number.
#[derive(Clone, Copy, PartialEq, Eq, Debug)]
pub struct Condition(pub u8);

impl Condition {
    /// C1: the digests are those of the two files.
    pub const DIGESTS: Condition = Condition(1);
    /// C2: keys and nodes are in their form and order, and each context has its entry node.
    pub const TABLE_FORM: Condition = Condition(2);
    /// C3: the user state covers the start.
    pub const START_COVERED: Condition = Condition(3);
    /// C4: the GS pair, CR3 and RSP are exact.
    pub const EXACT_SPACES: Condition = Condition(4);
    /// C5: the instruction is decodable executable text.
    pub const EXECUTABLE_TEXT: Condition = Condition(5);
    /// C6: a GS access uses the kernel's base.
    pub const KERNEL_GS: Condition = Condition(6);
    /// C7: each access is permitted.
    pub const ACCESS_PERMITTED: Condition = Condition(7);
    /// C8: no live stack byte is written.
    pub const NO_LIVE_BYTE_WRITTEN: Condition = Condition(8);
    /// C9: CR3 is loaded with one of its two values.
    pub const CR3_VALUE: Condition = Condition(9);
    /// C10: a handler is called with the kernel's GS base and CR3 and a free stack.
    pub const HANDLER_CALL: Condition = Condition(10);
    /// C11: no instruction or register number is forbidden.
    pub const NOTHING_FORBIDDEN: Condition = Condition(11);
    /// C12: a return restores the interrupted context.
    pub const RETURN_TEST: Condition = Condition(12);
    /// C13: each successor is covered.
    pub const SUCCESSOR_COVERED: Condition = Condition(13);
    /// C14: each event has a permitted frame and a context that covers it.
    pub const EVENT_COVERED: Condition = Condition(14);
    /// C15: the state after each event's return is covered.
    pub const AFTER_RETURN_COVERED: Condition = Condition(15);
    /// C16: the summary covers writes and latches.
    pub const SUMMARY_COVERS: Condition = Condition(16);
    /// C17: the user state covers each return to the user.
    pub const USER_STATE_COVERS: Condition = Condition(17);
}
