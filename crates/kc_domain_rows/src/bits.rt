//! Tests of known bits against concrete words.

ghost use Rattle.std.specs.Prelude.{IsTrue, ◌≤◌, ◌<◌};

use kc_bits::Bits;
use kc_lattice::{Both, Domain, Meaning, Row, join_all};
use kc_tables::{Case, Unread, case_of, number};
use kc_words::{Span, Width};
use std::test::Fail;

// The join of two alike values stands for what the first stood for, lies above the second, and has
// no greater rank: the laws as a caller has them by a bound alone.
fn join_keeps<M: Meaning>(x: &mut M, y: &M, env: &M::Env, c: &M::Conc) -> bool
    requires alike { M.alike x.old y.now }
    requires holds { M.holds x.old env.now c.now }
    ensures keeps { IsTrue result }
    ensures rank { M.rank x.new ≤ M.rank x.old }
{
    x.tell();
    y.tell();
    x.join(y);
    x.stands(env, c) && y.leq(x)
}

// The top of a shape is above all of it.
fn top_is_above<D: Domain>(x: &mut D, y: &D) -> bool
    requires { D.alike x.old y.now }
    ensures { IsTrue result }
{
    x.tell();
    y.tell();
    x.set_top();
    y.leq(x)
}

#[derive(Clone, Copy, Debug)]
enum Op {
    Sum,
    Difference,
}

fn concrete(op: Op, x: u64, y: u64) -> u64 {
    match op {
        Op::Sum => x.wrapping_add(y),
        Op::Difference => x.wrapping_sub(y),
    }
}

// Four bits at `shift`, of which those that differ in `low` and `high` are open.
fn pattern(low: u64, high: u64, shift: u32) -> Bits
    requires { shift < 64 }
{
    let mut bits = Bits::of(low << shift);
    bits.join(&Bits::of(high << shift));
    bits
}

// The join over all words that the two patterns stand for.
fn exact(op: Op, left: (u64, u64), right: (u64, u64), shift: u32) -> Bits
    requires { shift < 64 }
{
    let ((a, b), (c, d)) = (left, right);
    let mut all = Bits::of(concrete(op, a << shift, c << shift));
    for x in 0..16u64 {
        for y in 0..16u64 {
            if x & a == a && x & b == x && y & c == c && y & d == y {
                all.join(&Bits::of(concrete(op, x << shift, y << shift)));
            }
        }
    }
    all
}

#[test]
fn sums_and_differences_of_all_patterns_of_four_bits(rt: HostRuntime) {
    for shift in [0, 29, 62] {
        for ab in 0..256u64 {
            for cd in 0..256u64 {
                let (a, b, c, d) = (ab / 16, ab % 16, cd / 16, cd % 16);
                if a & b != a || c & d != c {
                    continue;
                }
                let (left, right) = (pattern(a, b, shift), pattern(c, d, shift));
                let sum = exact(Op::Sum, (a, b), (c, d), shift);
                assert_eq!(rt; left.add(&right), sum, "{left:?} {right:?}");
                let difference = exact(Op::Difference, (a, b), (c, d), shift);
                assert_eq!(rt; left.sub(&right), difference, "{left:?} {right:?}");
            }
        }
    }
}

/// An operation, two patterns as `zeros/ones`, and the pattern that comes of them: some of an independent model's cases.
const ROWS: &str = "\
and | 0xfff/0x0 | 0xfff/0x0 | 0xfff/0x0
and | 0x8000000000000000/0x0 | 0xffffffffffffffff/0x0 | 0xffffffffffffffff/0x0
and | 0xfff/0x0 | 0x53c50240a810a4f0/0xac32758f02a55b0a | 0x53c50240a810afff/0x0
and | 0x7fffffffffffffff/0x8000000000000000 | 0x55198dc258aac475/0xa0c2723c2755338a | 0x7fffffffffffffff/0x8000000000000000
or | 0xfff/0x0 | 0xfff/0x0 | 0xfff/0x0
or | 0xffffffff00034220/0x0 | 0x0/0x8000000000000000 | 0x0/0x8000000000000000
or | 0xffffffff00004008/0x0 | 0xffff800000000000/0x0 | 0xffff800000000000/0x0
or | 0x910a1c186261e1c3/0xc94e1e59592183c | 0x7fffffffffffffff/0x8000000000000000 | 0x110a1c186261e1c3/0x8c94e1e59592183c
xor | 0xfff/0x0 | 0xfff/0x0 | 0xfff/0x0
xor | 0x8c11ec88cd49250c/0x43ca1312029418e3 | 0x9bc25e39e576bf9f/0x643da1c612894060 | 0xc8084d0ac7c0256c/0x7d3b290001d1883
xor | 0x0/0x0 | 0x1fff/0x0 | 0x0/0x0
xor | 0x725046001c80e08a/0x400010080510a44 | 0xffffffffffffffff/0x0 | 0x725046001c80e08a/0x400010080510a44
add | 0xfff/0x0 | 0xfff/0x0 | 0xfff/0x0
add | 0xfffffffffffffffe/0x1 | 0x0/0x8000000000000000 | 0x0/0x0
add | 0x1ff/0x0 | 0xffffffe000000000/0xfffffffff | 0x0/0x1ff
add | 0x0/0x8000000000000000 | 0xfe00000000000000/0x1ffffffffffffcf | 0x0/0x0
add | 0x9c705d7768a0d311/0x638fa288974f2cee | 0xffff800000000000/0x0 | 0x9c60000000000000/0x6380000000000000
add | 0xfffffffffffffffe/0x1 | 0x7ff/0x0 | 0x7fe/0x1
sub | 0xfff/0x0 | 0xfff/0x0 | 0xfff/0x0
sub | 0x1/0x0 | 0x58eb968695e14c/0xffa71469796a1eb2 | 0x0/0x0
sub | 0x89c7df0b01fc85cc/0x763020f4fe037a33 | 0xffffffff84904202/0x0 | 0x89c7df0b00000000/0x763020f480000002
sub | 0xffffffffffdbf028/0x2 | 0x42c020800502010b/0x1101166080000240 | 0x1101166000000000/0x42c0208000000002
sub | 0xfac9f63d84d3c923/0x52609c27b2c36dc | 0x9cc982331b020086/0x6106584824bdd879 | 0x580040002991809c/0xa00f8070162e1063
sub | 0xffffffffc915a336/0x0 | 0xffffffff62c40086/0x0 | 0x0/0x0
join | 0xffffffffffdbf028/0x2 | 0x1ffff/0x0 | 0x1f028/0x0
join | 0xffffffffffff0000/0xfffe | 0xffffffff88082001/0x0 | 0xffffffff88080000/0x0
join | 0xfffffffffffc0000/0x3ffcf | 0x3b4e1e599b76c91/0xfc4b1e1a6648934e | 0x3b4e1e599b40000/0x934e
join | 0xffffffffffffffff/0x0 | 0xffffffffffffffff/0x0 | 0xffffffffffffffff/0x0
";

/// A pattern, another, and whether the first lies below the second: some of an independent model's cases.
const ORDER: &str = "\
0xc2d0108420000000/0x3d2fef7bd8000000 | 0x4090000400000000/0x1100a20988000000 | yes
0xfff/0x0 | 0x0/0x0 | yes
0x0/0x8000000000000000 | 0x0/0x8000000000000000 | yes
0xfffffffffffffffe/0x1 | 0x53a9093f2baae7a0/0x0 | yes
0x36a636952c000000/0xc959c96ad0000000 | 0x81fe333a24819f1d/0x7e01ccc5da7e60e2 | no
0x3e883255cae4b6fc/0x8000000000000000 | 0x7fffffffffffffff/0x8000000000000000 | no
0x6062141f54801220/0x8400614003582050 | 0x60f71e1fd4a69720/0x9f08e1e02b5968d0 | no
0x1ffff/0x0 | 0x40d22b081808bc00/0x8025007146444249 | no
";

/// A pattern, a word, and whether the pattern stands for it: some of an independent model's cases.
const STANDS: &str = "\
0x702165f877b8e000/0x8fde9a0788470000 | 0x8fde9a0788470996 | yes
0x56b14e6e573dfa62/0xa94eb191a8c20599 | 0xa94eb191a8c20599 | yes
0x240480c2204b4252/0x5320001810040008 | 0x5b28011c52b41409 | yes
0x0/0x8000000000000000 | 0xa23e4e40206899f1 | yes
";

/// The next column, `zeros/ones`.
fn bits_of(case: &mut Case<'_>) -> Result<Bits, Unread> {
    let (zeros, ones) = case.text().split_once('/').ok_or(Unread::Column)?;
    let (zeros, ones) = (number(zeros)?, number(ones)?);
    if zeros & ones == 0 {
        Ok(Bits { zeros, ones })
    } else {
        Err(Unread::Column)
    }
}

fn combined(op: &str, x: &Bits, y: &Bits) -> Bits {
    match op {
        "and" => x.and(y),
        "or" => x.or(y),
        "xor" => x.xor(y),
        "add" => x.add(y),
        "sub" => x.sub(y),
        _ => {
            let mut joined = *x;
            joined.join(y);
            joined
        }
    }
}

#[test]
fn operations_give_the_patterns_of_the_table(rt: HostRuntime) -> Result<(), Fail> {
    for line in ROWS.lines() {
        if let Some(mut case) = case_of(line) {
            let op = case.text();
            let (x, y) = (bits_of(&mut case)?, bits_of(&mut case)?);
            assert_eq!(rt; combined(op, &x, &y), bits_of(&mut case)?, "{line}");
        }
    }
    Ok(())
}

#[test]
fn order_and_meaning_are_those_of_the_tables(rt: HostRuntime) -> Result<(), Fail> {
    for line in ORDER.lines() {
        if let Some(mut case) = case_of(line) {
            let (x, y) = (bits_of(&mut case)?, bits_of(&mut case)?);
            assert_eq!(rt; x.leq(&y), case.answer()?, "{line}");
        }
    }
    for line in STANDS.lines() {
        if let Some(mut case) = case_of(line) {
            let (x, n) = (bits_of(&mut case)?, case.number()?);
            assert_eq!(rt; x.stands(&(), &n), case.answer()?, "{line}");
        }
    }
    Ok(())
}

#[test]
fn laws_hold_by_their_bounds(rt: HostRuntime) {
    let mut five = Bits::of(5);
    assert!(rt; join_keeps(&mut five, &Bits::of(4), &(), &5));
    assert_eq!(rt; five, pattern(4, 5, 0));
    assert!(rt; !five.is_top() && top_is_above(&mut five, &Bits::of(4)) && five.is_top());
}

#[test]
fn single_cut_and_common_bits(rt: HostRuntime) {
    assert_eq!(rt; pattern(4, 5, 0).single(), None);
    assert_eq!(rt; Bits::of(u64::MAX).single(), Some(u64::MAX));
    assert_eq!(rt;
        pattern(0o222, 0o666, 0).cut(Width::Byte),
        pattern(0o222, 0o266, 0)
    );
    // The addresses 0x1030 to 0x105f share bit 12 and the zeros but bits 0 to 6.
    let stack = Span {
        from: 0x1030,
        to: 0x1060,
    };
    let common = Bits::prefix(&stack);
    assert_eq!(rt; (common.zeros, common.ones), (!0x107F, 0x1000));
}

#[test]
fn pairs_and_rows_of_bits(rt: HostRuntime) -> Result<(), std::alloc::AllocError> {
    let mut pair = Both {
        first: Bits::of(1),
        second: Bits::of(2),
    };
    let other = Both {
        first: Bits::of(1),
        second: Bits::of(3),
    };
    assert!(rt; join_keeps(&mut pair, &other, &((), ()), &(1, 2)));
    assert_eq!(rt;
        pair,
        Both {
            first: Bits::of(1),
            second: pattern(2, 3, 0)
        }
    );
    assert!(rt; top_is_above(&mut pair, &other));

    let mut row = Row {
        items: vec![in rt.alloc(); Bits::of(1), Bits::of(2)]?,
    };
    let others = Row {
        items: vec![in rt.alloc(); Bits::of(1), Bits::of(3)]?,
    };
    assert!(rt; !others.leq(&row));
    row.join(&others);
    assert!(rt; others.leq(&row) && row.stands(&(), &vec![in rt.alloc(); 1, 2]?));
    assert!(rt; !row.stands(&(), &vec![in rt.alloc(); 1]?));
    assert_eq!(rt; row.items[1], pattern(2, 3, 0));

    let mut total = Bits::of(0);
    join_all(&mut total, &row.items);
    assert_eq!(rt; total, pattern(0, 3, 0));
    row.set_top();
    assert!(rt; row.is_top());
    Ok(())
}
