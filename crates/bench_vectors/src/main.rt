//! Compares this repository's calls with cases from outside: `bench_vectors KIND FILE` reads a file of
//! cases, prints each that differs, and last how many agree.
#![tactic(auto)]

mod abs_cases;
mod turn_cases;

use std::{env, fs, io};

fn main(rt: HostRuntime) -> io::Result<()> {
    let mut words = env::args(&rt)?;
    let _program = words.next();
    let (Some(kind), Some(path)) = (words.next(), words.next()) else {
        println!(rt; "usage: bench_vectors KIND FILE")?;
        return Ok(());
    };
    let text = fs::read_to_string(&rt, path.as_str())?;
    match kind.as_str() {
        "config" => kc_config_cases::run(&rt, path.as_str(), text.as_str()),
        "exec" => kc_cases::run(&rt, path.as_str(), text.as_str()),
        "domains" => abs_cases::run_domains(&rt, path.as_str(), text.as_str()),
        "transfer" => {
            let times = words.next();
            abs_cases::run_transfers(&rt, path.as_str(), text.as_str(), times)
        }
        "turns" => turn_cases::run(&rt, path.as_str(), text.as_str()),
        "events" => abs_cases::run_events(&rt, path.as_str(), text.as_str()),
        _ => {
            println!(rt; "unknown kind {kind}")?;
            Ok(())
        }
    }
}
