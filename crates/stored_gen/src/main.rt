//! The program `entrycert` again, for a third stored run: a made input of 2,000 instructions, whose certificate an
//! independent model has with the same digest.
#![tactic(auto)]

use kc_top::run_process;
use std::process::ExitCode;

fn main(rt: HostRuntime) -> ExitCode {
    ExitCode::from(run_process(&rt).code())
}
