//! Live bytes: the bytes of stacks that suspended activations still need. This project's own.

ghost use Rattle.std.specs.Prelude.{◌≡◌, IsTrue, ◌↔◌};
ghost use Rattle.kc_exec.specs.Live.{IsLiveFor, IsLive};

use crate::register::value_of;
use crate::state::Activation;
use kc_insn::Reg;
use kc_regions::Config;

fn is_live_for(cfg: &Config, activation: &Activation, at: u64) -> bool
    ensures { IsTrue result ↔ IsLiveFor cfg.now activation.now at }
{
    let rsp = value_of(&activation.saved, Reg::RSP);
    match (cfg.regions.stack_of(rsp), cfg.regions.stack_of(at)) {
        (Some(suspended), Some(within)) => suspended == within && rsp <= at,
        _ => false,
    }
}

/// Whether the byte at `at` is live: it lies in the stack that holds the interrupted RSP of some
/// activation, at or above that RSP.
pub fn is_live(cfg: &Config, chain: &[Activation], at: u64) -> bool
    ensures is { IsTrue result ↔ IsLive cfg.now chain.now at }
{
    chain
        .iter()
        .any(|activation| is_live_for(cfg, activation, at))
}
