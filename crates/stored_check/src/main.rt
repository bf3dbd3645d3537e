//! The program `entrycert` again, for a second stored run: words, files in `data/`, and the certificate on
//! standard input by the name `/dev/stdin`.
#![tactic(auto)]

use kc_top::run_process;
use std::process::ExitCode;

fn main(rt: HostRuntime) -> ExitCode {
    ExitCode::from(run_process(&rt).code())
}
