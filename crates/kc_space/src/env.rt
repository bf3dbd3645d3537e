//! The two numbers of a space, this project's own.

/// The kernel's number and the user's: two GS bases, or two values of CR3.
#[derive(Clone, Copy, PartialEq, Eq, Debug)]
pub struct SpaceEnv {
    pub kernel: u64,
    pub user: u64,
}
