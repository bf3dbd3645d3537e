//! Byte memory over the borders of pages and over the end of the address space; its bytes, written and
//! read by the manual's order of bytes (Intel SDM vol. 1, "Bit and Byte Order").

use kc_mem::Memory;
use std::test::Fail;

#[test]
fn numbers_over_borders_and_the_end(rt: HostRuntime) -> Result<(), Fail> {
    let mut memory = Memory::new(rt.alloc());
    memory.reserve(21)?;
    memory.write8(0xFFFF_FFFF_FFFF_FFFC, 0x8877_6655_4433_2211);
    assert_eq!(rt; memory.read4(0xFFFF_FFFF_FFFF_FFFC), 0x4433_2211);
    assert_eq!(rt; memory.read4(0), 0x8877_6655);
    assert_eq!(rt; memory.read1(0xFFFF_FFFF_FFFF_FFFF), 0x44);
    memory.write4(0x1FFE, 0xDDCC_BBAA);
    assert_eq!(rt; memory.read8(0x1FFC), 0xDDCC_BBAA_0000);
    memory.apply(&[
        (0x2000, 0),
        (0x5000, 7),
        (0x1FFF, 1),
        (0x5000, 8),
        (0x4FFF, 6),
    ])?;
    assert_eq!(rt; memory.read8(0x1FFC), 0xDD00_01AA_0000);
    assert_eq!(rt; memory.read4(0x4FFF), 0x806);
    memory.write1(0x5001, 9);
    assert_eq!(rt; memory.read8(0x5000), 0x908);
    Ok(())
}
