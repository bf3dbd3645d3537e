//! What the abstract entries mean on the machine.

ghost use Rattle.kc_delivers.specs.Delivered.{SyscallIsCovered, UserDeliveryIsCovered};

/// SYSCALL breaks nothing and never stops; it leads to the configured address, and the abstract state
/// of its entry describes the machine there.
pub fn by_syscall()
    ensures covered { SyscallIsCovered }
{}

/// An event that interrupts the user, where there is an abstract delivery of it, breaks nothing and
/// never stops; it leads through its vector's gate, and the abstract state describes the machine there.
pub fn from_user()
    ensures covered { UserDeliveryIsCovered }
{}
