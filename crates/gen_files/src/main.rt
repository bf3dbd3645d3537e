//! Writes a generated input as files: `gen_files SEED SIZE IMAGE CONFIG` writes the image that SEED
//! chooses with SIZE instructions, 1 to 6,000, and its description, by these names, and prints how
//! many bytes each has.
#![tactic(auto)]

use kc_gen::generate;
use std::fs::Files;
use std::{env, fs, io};

const USAGE: &str = "usage: gen_files SEED SIZE IMAGE CONFIG";

fn main(rt: HostRuntime) -> io::Result<()> {
    let mut words = env::args(&rt)?;
    let _program = words.next();
    let (Some(seed), Some(size), Some(image), Some(config)) = (
        words.next(),
        words.next(),
        words.next(),
        words.next(),
    ) else {
        println!(rt; "{USAGE}")?;
        return Ok(());
    };
    match (seed.as_str().parse::<u64>(), size.as_str().parse::<u32>()) {
        (Ok(seed), Ok(size)) => write_files(&rt, seed, size, image.as_str(), config.as_str()),
        _ => {
            println!(rt; "{USAGE}")?;
            Ok(())
        }
    }
}

fn write_files<R: Print + Files + AllocGlobal>(
    rt: &R,
    seed: u64,
    size: u32,
    image_name: &str,
    config_name: &str,
) -> io::Result<()> {
    if !(1..=6000).contains(&size) {
        println!(rt; "{USAGE}")?;
        return Ok(());
    }
    let Ok((image, config)) = generate(rt.alloc(), seed, size) else {
        println!(rt; "out of memory")?;
        return Ok(());
    };
    fs::write(rt, image_name, image.as_slice())?;
    fs::write(rt, config_name, config.as_slice())?;
    println!(rt; "{image_name} {} bytes", image.len())?;
    println!(rt; "{config_name} {} bytes", config.len())
}
