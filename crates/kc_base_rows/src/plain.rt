//! That calls which may answer want of memory succeed with ample memory.

use kc_plain::{Items, Text};
use std::test::Fail;

#[test]
fn calls_succeed_with_ample_memory(rt: HostRuntime) -> Result<(), Fail> {
    let alloc = rt.alloc();
    let mut items = Items::new(alloc);
    assert!(rt; items.push(7u8).is_ok());
    assert!(rt; items.as_slice() == [7].as_slice());
    let text = Text::copied(alloc, "text").expect(&rt, "memory");
    assert!(rt; text.as_str() == "text");
    Ok(())
}
