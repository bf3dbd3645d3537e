//! Words, spans and status flags.

use kc_tables::case_of;
use kc_words::{Span, Width, add_flags, le64, logic_flags, sign32, sub_flags};
use std::test::Fail;

/// Measured on a processor: the operation, its width in bits, the operands (of `logic` the result and
/// 0), and the flags CF, PF, AF, ZF, SF and OF at their places; AF is left out after `logic`.
const MEASURED: &str = "\
add | 8 | 0x7f | 0x1 | 0x890
add | 8 | 0x80 | 0x80 | 0x845
add | 8 | 0xff | 0xf | 0x11
add | 8 | 0x80 | 0x1 | 0x84
add | 8 | 0x10 | 0xff | 0x5
add | 8 | 0x2 | 0x2 | 0x0
add | 8 | 0x81 | 0xfe | 0x801
add | 8 | 0x45 | 0x79 | 0x884
add | 8 | 0x2 | 0x10 | 0x4
add | 8 | 0xb7 | 0x62 | 0x1
add | 32 | 0x1 | 0xffffffff | 0x55
add | 32 | 0xf | 0x7fffffff | 0x890
add | 32 | 0xffffffff | 0x0 | 0x84
add | 32 | 0xa4b9a9c4 | 0xa906922f | 0x815
add | 32 | 0x5dbe3023 | 0x249a4584 | 0x880
add | 32 | 0x6da79a87 | 0x12b80aed | 0x894
add | 32 | 0xff00 | 0x0 | 0x4
add | 32 | 0xf | 0x80 | 0x0
add | 64 | 0x43fb9fbcd89c36b2 | 0xbab5b3733c1ae917 | 0x84
add | 64 | 0x7fa22f715c891ff | 0x221265400ab77988 | 0x14
add | 64 | 0x8000000000000000 | 0xffffffffffffffff | 0x805
add | 64 | 0x7fffffffffffffff | 0x80000000 | 0x884
add | 64 | 0xf | 0x80000000 | 0x4
add | 64 | 0xd5f860c3606a0deb | 0x8efba442738e0b77 | 0x811
add | 64 | 0x7fffffffffffffff | 0xffffffffffffffff | 0x11
add | 64 | 0xae4001e3880cb401 | 0x7d42646f3e9b768f | 0x15
sub | 8 | 0xf | 0xf | 0x44
sub | 8 | 0x81 | 0x81 | 0x44
sub | 8 | 0xf3 | 0xf3 | 0x44
sub | 8 | 0x80 | 0x80 | 0x44
sub | 8 | 0x0 | 0x1 | 0x95
sub | 8 | 0x29 | 0x84 | 0x885
sub | 8 | 0x80 | 0x2 | 0x814
sub | 8 | 0x7f | 0x1 | 0x4
sub | 8 | 0xff | 0x0 | 0x84
sub | 8 | 0xd4 | 0xb1 | 0x0
sub | 8 | 0x15 | 0x24 | 0x81
sub | 8 | 0x0 | 0x10 | 0x85
sub | 8 | 0x1a | 0xbf | 0x11
sub | 32 | 0x0 | 0x0 | 0x44
sub | 32 | 0x1 | 0x1 | 0x44
sub | 32 | 0xff00 | 0xff00 | 0x44
sub | 32 | 0x80 | 0xff00 | 0x81
sub | 32 | 0x80 | 0x0 | 0x0
sub | 32 | 0x742a8063 | 0x2f4b342 | 0x4
sub | 32 | 0x8d959c31 | 0x6af25748 | 0x810
sub | 32 | 0xcd37880e | 0x42b38755 | 0x80
sub | 32 | 0x80 | 0x80000000 | 0x881
sub | 32 | 0x80 | 0xf | 0x14
sub | 32 | 0xdcded204 | 0x1f2642aa | 0x94
sub | 64 | 0x8000000000000000 | 0x1 | 0x814
sub | 64 | 0x80000000 | 0x1 | 0x14
sub | 64 | 0x1 | 0xf | 0x91
sub | 64 | 0x64e276027c73b6c9 | 0x28b88073065b8c35 | 0x0
sub | 64 | 0x321c1744ed2879c1 | 0x3003005b688b661 | 0x4
sub | 64 | 0x1ef3ea4450ea7da7 | 0x54d1ac6bd7196189 | 0x95
sub | 64 | 0xf | 0x80000000 | 0x85
sub | 64 | 0xf | 0x8000000000000000 | 0x885
sub | 64 | 0x8000000000000000 | 0x0 | 0x84
logic | 8 | 0x90 | 0x0 | 0x84
logic | 8 | 0x21 | 0x0 | 0x4
logic | 8 | 0x80 | 0x0 | 0x80
logic | 8 | 0x1 | 0x0 | 0x0
logic | 8 | 0x0 | 0x0 | 0x44
logic | 8 | 0x84 | 0x0 | 0x84
logic | 32 | 0x28501004 | 0x0 | 0x0
logic | 32 | 0x7fffffff | 0x0 | 0x4
logic | 32 | 0x80000000 | 0x0 | 0x84
logic | 32 | 0x0 | 0x0 | 0x44
logic | 32 | 0xff00 | 0x0 | 0x4
logic | 32 | 0x420c402 | 0x0 | 0x0
logic | 64 | 0x1 | 0x0 | 0x0
logic | 64 | 0x15116440000cc322 | 0x0 | 0x4
logic | 64 | 0xffffffffffffffff | 0x0 | 0x84
logic | 64 | 0xa320890c01241157 | 0x0 | 0x80
logic | 64 | 0x0 | 0x0 | 0x44
logic | 64 | 0x6802068400a5045 | 0x0 | 0x0
";

#[test]
fn flags_are_those_of_a_processor(rt: HostRuntime) -> Result<(), Fail> {
    for line in MEASURED.lines() {
        let Some(mut case) = case_of(line) else {
            continue
        };
        let op = case.text();
        let width = match case.text() {
            "8" => Width::Byte,
            "32" => Width::Long,
            _ => Width::Quad,
        };
        let a = case.number()?;
        let b = case.number()?;
        let flags = match op {
            "add" => add_flags(width, a, b),
            "sub" => sub_flags(width, a, b),
            _ => logic_flags(width, a),
        };
        assert_eq!(rt; flags, case.number()?, "{line}");
    }
    Ok(())
}

#[test]
fn words_and_spans(rt: HostRuntime) {
    for (v, want) in [
        (0, 0),
        (0x7FFF_FFFF, 0x7FFF_FFFF),
        (0x8000_0000, 0xFFFF_FFFF_8000_0000),
        (0xFFFF_FFFF, 0xFFFF_FFFF_FFFF_FFFF),
    ] {
        assert_eq!(rt; sign32(v), want);
    }
    assert_eq!(rt;
        le64(&[0x08, 7, 6, 5, 4, 3, 2, 0x81]),
        0x8102_0304_0506_0708
    );
    for (width, bits, low, negative) in [
        (Width::Byte, 8, 0x80, true),
        (Width::Long, 32, 0x7FFF_0080, false),
        (Width::Quad, 64, 0xFFFF_FFFF_7FFF_0080, true),
    ] {
        assert_eq!(rt; width.bits(), bits);
        assert_eq!(rt; width.cut(0xFFFF_FFFF_7FFF_0080), low);
        assert_eq!(rt; width.is_negative(0xFFFF_FFFF_7FFF_0080), negative);
    }
    let stack = Span { from: 16, to: 32 };
    for (a, want) in [(15, false), (16, true), (31, true), (32, false)] {
        assert_eq!(rt; stack.holds(a), want);
    }
    for (from, to, want) in [
        (0, 16, false),
        (0, 17, true),
        (31, 40, true),
        (32, 40, false),
        (20, 20, false),
    ] {
        if from <= to {
            assert_eq!(rt; stack.meets(&Span { from, to }), want);
        }
    }
}
