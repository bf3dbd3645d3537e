//! Prints what an image file holds: `image_info FILE` writes how many segments and kept symbols it
//! has, or its first fault, and then the address of each name on standard input, one a line.
#![tactic(auto)]

use kc_image::{Image, read_image};
use std::{env, fs, io};

fn main(rt: HostRuntime) -> io::Result<()> {
    let mut words = env::args(&rt)?;
    let _program = words.next();
    let Some(path) = words.next() else {
        println!(rt; "usage: image_info FILE")?;
        return Ok(());
    };
    let bytes = fs::read(&rt, path.as_str())?;
    match read_image(rt.alloc(), bytes) {
        Ok(image) => print_image(&rt, &image),
        Err(fault) => {
            println!(rt; "{:?} at {}", fault.kind, fault.at)?;
            Ok(())
        }
    }
}

fn print_image<R: Print + Input + AllocGlobal>(rt: &R, image: &Image) -> io::Result<()> {
    println!(rt; "segments {}", image.segment_count())?;
    println!(rt; "symbols {}", image.symbol_count())?;
    for line in rt.lines(rt.alloc()) {
        let name = line?;
        match image.symbol(name.as_str()) {
            Some(address) => println!(rt; "{address:016x} {name}")?,
            None => println!(rt; "none {name}")?,
        }
    }
    Ok(())
}
