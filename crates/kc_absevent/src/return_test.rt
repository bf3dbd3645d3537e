//! C12, over a whole state. This project's own.

ghost use Rattle.std.specs.Prelude.{◌≡◌, ℕ, true};
ghost use Rattle.kc_insn.specs.Encodable.{is_encodable};
ghost use Rattle.kc_state.specs.AbsEffect.{moment_of};
ghost use Rattle.kc_state.specs.AbsEvents.{HasStack};
ghost use Rattle.kc_state.specs.Conditions.{restores};

use kc_insn::Insn;
use kc_regions::Config;
use kc_state::{AbsState, Key, Moment, cpu_of, restores};

/// Whether condition C12 holds: a return restores the interrupted context. It takes no memory.
pub fn return_ok(cfg: &Config, key: &Key, state: &AbsState, insn: &Insn) -> bool
    requires encodable { is_encodable insn.now ≡ true }
    requires stack { HasStack cfg.now key.now }
    ensures value { (next : ℕ) → result ≡ restores (moment_of cfg.now key.now state.now next) insn.now }
{
    let cpu = cpu_of(state);
    let m = Moment {
        cfg,
        key,
        cpu: &cpu,
        slots: &state.slots,
        next: 0,
    };
    restores(&m, insn)
}
