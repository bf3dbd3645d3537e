//! The texts of instructions.

use kc_insn::Insn;
use kc_io::MemSink;
use kc_text::{LONGEST_TEXT, write_insn};
use std::alloc::Global;
use std::test::Fail;

/// Whether an instruction is written as this text, and nothing else is.
pub fn has_text(alloc: Global, insn: &Insn, text: &str) -> bool {
    match MemSink::new(alloc, LONGEST_TEXT, Vec::new(alloc)) {
        Err(_) => false,
        Ok(mut sink) => write_insn(&mut sink, insn).is_ok() && sink.bytes() == text.as_bytes(),
    }
}

#[test]
fn a_refused_text_is_failed(rt: HostRuntime) -> Result<(), Fail> {
    let alloc = rt.alloc();
    let mut sink = MemSink::new(alloc, 5, Vec::new(alloc)).expect(&rt, "memory");
    assert!(rt; write_insn(&mut sink, &Insn::Swapgs).is_err());
    assert!(rt; write_insn(&mut sink, &Insn::Iretq).is_ok());
    assert!(rt; sink.bytes() == b"iretq".as_slice());
    Ok(())
}
