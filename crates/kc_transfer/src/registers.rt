//! Changes of what is known of the general registers (Intel SDM vol. 1, "General-Purpose Registers in 64-Bit Mode").

ghost use Rattle.std.specs.Prelude.{◌≡◌};
ghost use Rattle.kc_state.specs.Operand.{with_register};

use kc_insn::Reg;
use kc_state::AbsCpu;
use kc_value::Value;

// The processor with all that is known of the register replaced; as it is for a number that names none.
pub(crate) fn put_register(cpu: &AbsCpu, r: Reg, v: &Value) -> AbsCpu
    ensures { result ≡ with_register r v.now cpu.now }
{
    let held: &[Value] = &cpu.regs;
    let mut after = *cpu;
    if (r.0 as usize) < held.len() {
        after.regs[r.0 as usize] = *v;
    }
    after
}
