//! States of kernel code, and of the user.

ghost use Rattle.std.specs.Prelude.{◌≡◌, ◌≤◌};
ghost use Rattle.kc_certfields.specs.Reads.{ReadsOrEnds};
ghost use Rattle.kc_certfields.specs.States.{state_at, user_at};

use crate::fault::CertFault;
use crate::floors::read_floors;
use crate::input::Input;
use crate::slots::{SLOTS, read_slots};
use crate::spaces::{read_gs, read_latches, read_map, read_tri};
use crate::values::{read_registers, read_value};
use kc_state::{AbsState, UserState};
use std::alloc::Global;

// The words that the user's state may know: the TSS's and the configuration's.
const USER_SLOTS: u16 = 40;

/// A state with the floors of so many stacks.
#[tactic(auto, unfolding(crate::specs::States::state_at))]
pub fn read_state(alloc: Global, input: &mut Input<'_>, stacks: u8) -> Result<AbsState, CertFault>
    requires { stacks ≤ 16 }
    ensures read { ReadsOrEnds (λ x. x) (state_at stacks) input.old result input.new }
{
    let regs = read_registers(input)?;
    let flags = read_value(input)?;
    let gs = read_gs(input)?;
    let map = read_map(input)?;
    let latches = read_latches(input)?;
    let floors = read_floors(input, stacks)?;
    let slots = read_slots(alloc, input, SLOTS)?;
    Ok(AbsState {
        regs,
        flags,
        gs,
        map,
        latches,
        floors,
        slots,
    })
}

/// What is known while the user runs.
#[tactic(auto, unfolding(crate::specs::States::user_at))]
pub fn read_user(alloc: Global, input: &mut Input<'_>) -> Result<UserState, CertFault>
    ensures read { ReadsOrEnds (λ x. x) user_at input.old result input.new }
{
    let nmi_blocked = read_tri(input)?;
    let mcip = read_tri(input)?;
    let slots = read_slots(alloc, input, USER_SLOTS)?;
    Ok(UserState {
        nmi_blocked,
        mcip,
        slots,
    })
}
