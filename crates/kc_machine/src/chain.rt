//! The chain of activations, the newest last.

ghost use Rattle.std.specs.Prelude.{◌≡◌, ◌∷◌, ◌++◌, [], OnOk, OnErr};
ghost use Rattle.std.specs.Option.{option_copied};
ghost use Rattle.kc_events.specs.Turns.{made_by_event, made_by_syscall, newest as newest_of, without_newest};
ghost use Rattle.kc_events.specs.Edits.{edited_cpu, with_edit};
ghost use Rattle.kc_machine.specs.Chain.{with_newest, with_base};

use kc_cpu::Cpu;
use kc_events::Edit;
use kc_exec::Activation;
use kc_plain::{Items, NoMemory};

/// RSP's number among the registers.
const RSP: usize = 4;

/// The newest activation.
pub(crate) fn newest(chain: &[Activation]) -> Option<&Activation>
    ensures { option_copied result ≡ newest_of chain.now }
{
    chain.last()
}

/// Adds the activation that the delivery of this vector makes, with a base of 0 until it is known.
pub(crate) fn push_event(
    chain: &mut Items<Activation>,
    cpu: &Cpu,
    vector: u8,
) -> Result<(), NoMemory>
    ensures added { OnOk result (chain.new ≡ chain.old ++ made_by_event cpu.now vector 0 ∷ []) }
    ensures unchanged { OnErr result (chain.new ≡ chain.old) }
{
    chain.push(Activation {
        syscall: false,
        vector,
        saved: *cpu,
        base: 0,
        due: *cpu,
    })
}

/// Adds the activation that SYSCALL makes.
pub(crate) fn push_syscall(chain: &mut Items<Activation>, cpu: &Cpu) -> Result<(), NoMemory>
    ensures added { OnOk result (chain.new ≡ chain.old ++ made_by_syscall cpu.now ∷ []) }
    ensures unchanged { OnErr result (chain.new ≡ chain.old) }
{
    chain.push(Activation {
        syscall: true,
        vector: 0,
        saved: *cpu,
        base: 0,
        due: *cpu,
    })
}

/// Replaces the newest activation.
fn set_newest(chain: &mut Items<Activation>, activation: Activation)
    ensures { chain.new ≡ with_newest activation chain.old }
{
    if let Some(last) = chain.len().checked_sub(1) {
        chain.set(last, activation);
    }
}

/// Gives the newest activation this base.
pub(crate) fn set_base(chain: &mut Items<Activation>, base: u64)
    ensures { chain.new ≡ with_base base chain.old }
{
    match newest(chain.as_slice()) {
        Some(activation) => {
            let mut based = *activation;
            based.base = base;
            set_newest(chain, based);
        }
        None => {}
    }
}

/// The processor that a return restores, with the edited words.
fn edit_cpu(cpu: &Cpu, edit: &Edit) -> Cpu
    ensures { result ≡ edited_cpu edit.now cpu.now }
{
    let mut after = *cpu;
    after.regs[RSP] = edit.rsp.unwrap_or(cpu.regs[RSP]);
    after.rip = edit.rip.unwrap_or(cpu.rip);
    after.flags = edit.flags.unwrap_or(cpu.flags);
    after
}

/// Edits the context that the newest activation's return restores.
pub(crate) fn set_due(chain: &mut Items<Activation>, edit: &Edit)
    ensures { chain.new ≡ with_edit edit.now chain.old }
{
    match newest(chain.as_slice()) {
        Some(activation) => {
            let mut edited = *activation;
            edited.due = edit_cpu(&edited.due, edit);
            set_newest(chain, edited);
        }
        None => {}
    }
}

/// Takes the newest activation away.
pub(crate) fn drop_newest(chain: &mut Items<Activation>)
    ensures { chain.new ≡ without_newest chain.old }
{
    chain.pop();
}
