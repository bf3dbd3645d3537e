//! The regions of a small kernel, by address and by number.

use kc_plain::{Items, NoMemory, Text};
use kc_regions::{Kind, MAX_REGIONS, Region, RegionFault, Regions};
use kc_words::Span;
use std::alloc::Global;
use std::process::Abort;
use std::test::Fail;

/// A region's first address, its size and what it is for.
type Row = (u64, u64, Kind);

const TEXT: u64 = 0xFFFF_FFFF_8100_0000;

const STACK: u64 = 0xFFFF_FFFF_8300_2000;

/// Not in the order of their addresses; the second stack's guard ends where the first stack does.
const KERNEL: [Row; 7] = [
    (STACK + 0x5000, 0x1000, Kind::Stack),
    (TEXT, 0x1000, Kind::Text),
    (STACK + 0x4000, 0x1000, Kind::Guard),
    (STACK, 0x4000, Kind::Stack),
    (0x1_0000, 0x7FFF_FFFE_0000, Kind::User),
    (STACK - 0x1000, 0x1000, Kind::Guard),
    (TEXT + 0x1000, 0x2000, Kind::Area),
];

fn region(alloc: Global, row: &Row) -> Result<Region, NoMemory> {
    let (from, size, kind) = *row;
    Ok(Region {
        name: Text::copied(alloc, "part")?,
        span: Span {
            from,
            to: from.saturating_add(size),
        },
        kind,
        user_map: false,
        write: matches!(kind, Kind::Stack),
        exec: false,
        may_fault: false,
        quiet: false,
        marked: false,
    })
}

fn regions(alloc: Global, rows: &[Row]) -> Result<Result<Regions, RegionFault>, NoMemory> {
    let mut list = Vec::new(alloc);
    for row in rows {
        list.push(region(alloc, row)?)?;
    }
    Ok(Regions::new(Items::from_vec(list)))
}

#[test]
fn finds_regions_and_stacks(rt: HostRuntime) -> Result<(), Fail> {
    let regions = regions(rt.alloc(), &KERNEL)?
        .ok()
        .ok_or("the regions are good")?;
    for (at, first, number) in [
        (TEXT, Some(TEXT), None),
        (TEXT + 0xFFF, Some(TEXT), None),
        (TEXT + 0x1000, Some(TEXT + 0x1000), None),
        (TEXT + 0x3000, None, None),
        (STACK - 1, Some(STACK - 0x1000), None),
        (STACK, Some(STACK), Some(1)),
        (STACK + 0x3FFF, Some(STACK), Some(1)),
        (STACK + 0x4000, Some(STACK + 0x4000), None),
        (STACK + 0x5FFF, Some(STACK + 0x5000), Some(0)),
        (STACK + 0x6000, None, None),
        (0xFFFF, None, None),
        (0x1_0000, Some(0x1_0000), None),
        (u64::MAX, None, None),
    ] {
        assert_eq!(rt; regions.of(at).map(|r| r.span.from), first, "{at:#x}");
        assert_eq!(rt; regions.stack_of(at), number, "{at:#x}");
    }
    assert_eq!(rt; regions.stack(0).map(|r| r.span.from), Some(STACK + 0x5000));
    assert_eq!(rt; regions.stack(1).map(|r| r.span.from), Some(STACK));
    assert!(rt; regions.stack(2).is_none());
    assert_eq!(rt; regions.list().len(), 7);
    Ok(())
}

#[test]
fn refuses_the_first_broken_rule(rt: HostRuntime) -> Result<(), Fail> {
    let alloc = rt.alloc();
    let plain = |from, size| (from, size, Kind::Plain);
    let empty = [plain(5, 1), plain(5, 0), plain(5, 2)];
    assert_eq!(rt; regions(alloc, &empty)?.err(), Some(RegionFault::Empty(1)));
    let meeting = [
        plain(5, 3),
        plain(8, 2),
        plain(0, 5),
        plain(9, 1),
        plain(7, 2),
    ];
    assert_eq!(rt; regions(alloc, &meeting)?.err(), Some(RegionFault::Meet(3)));
    let many = [plain(5, 0); MAX_REGIONS + 1];
    assert_eq!(rt; regions(alloc, &many)?.err(), Some(RegionFault::TooMany));
    Ok(())
}
