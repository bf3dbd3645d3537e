//! The program `entrycert`: it runs the command of its words over the real files and standard output,
//! and ends with the command's status.
#![tactic(auto)]

use kc_top::run_process;
use std::process::ExitCode;

fn main(rt: HostRuntime) -> ExitCode {
    ExitCode::from(run_process(&rt).code())
}
