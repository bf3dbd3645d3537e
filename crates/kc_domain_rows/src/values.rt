//! Tests of values: what they stand for, their order and joins, and those that are made.

ghost use Rattle.std.specs.Prelude.{◌<◌, ◌^◌};

use kc_bits::Bits;
use kc_lattice::{Domain, Meaning};
use kc_value::{Sym, Value, ValueEnv};
use kc_words::Span;

// Word w of the interrupted processor is 100 + w, the base is 0x1040, the user's GS base is 7, and
// stack 0 has the addresses from 0x1000 and stack 1 those from 0x2000.
fn env() -> ValueEnv {
    let empty = Span { from: 0, to: 0 };
    let mut stacks = [empty; 16];
    stacks[0] = Span {
        from: 0x1000,
        to: 0x1100,
    };
    stacks[1] = Span {
        from: 0x2000,
        to: 0x2100,
    };
    let mut words = [0; 20];
    for w in 0..20u64 {
        words[w as usize] = 100 + w;
    }
    ValueEnv {
        words,
        base: 0x1040,
        user_gs: 7,
        stacks,
    }
}

fn joined<D: Domain + Copy>(x: &D, y: &D) -> D
    requires { D.alike x.now y.now }
{
    let mut all = *x;
    all.join(y);
    all
}

#[test]
fn stands_by_symbol_bits_and_place(rt: HostRuntime) {
    let env = env();
    let any = Value::top();
    for (sym, n, want) in [
        (Sym::Plain, 12, true),
        (Sym::Base(-8), 0x1038, true),
        (Sym::Base(-8), 0x1048, false),
        (Sym::Entry(19), 119, true),
        (Sym::Entry(0), 119, false),
        (Sym::UserGs, 7, true),
        (Sym::UserGs, 8, false),
    ] {
        let value = Value {
            sym,
            bits: any.bits,
            stacks: any.stacks,
        };
        assert_eq!(rt; value.stands(&env, &n), want, "{sym:?} {n}");
    }
    for (n, stacks, want) in [
        (0x1000, 1, true),
        (0x10FF, 0b10 | 1 << 16, false),
        (0x2000, 0b10, true),
        (0x1100, 0b11, false),
        (0x1100, 1 << 16, true),
    ] {
        let value = Value {
            sym: Sym::Plain,
            bits: Bits::of(n),
            stacks,
        };
        assert_eq!(rt; value.stands(&env, &n), want, "{n:#x} {stacks:#x}");
        assert!(rt; !value.stands(&env, &0x2001));
    }
}

fn based(offset: i64, stacks: u32) -> Value
    requires { stacks < 2 ^ 17 }
{
    Value {
        sym: Sym::Base(offset),
        bits: Value::top().bits,
        stacks,
    }
}

fn plain(bits: Bits, stacks: u32) -> Value
    requires { stacks < 2 ^ 17 }
{
    Value {
        sym: Sym::Plain,
        bits,
        stacks,
    }
}

#[test]
fn values_of_two_symbols_join_to_a_plain_one(rt: HostRuntime) {
    let base = based(-8, 1);
    let other = based(0, 2);
    assert_eq!(rt; joined(&base, &other), plain(base.bits, 3));
    assert_eq!(rt; joined(&base, &base), base);
    assert_eq!(rt; base.plain(), plain(base.bits, 1));
    assert!(rt; base.leq(&base.plain()) && !base.plain().leq(&base) && !base.leq(&other));
    assert!(rt; Value::top().is_top() && !base.plain().is_top());
}

#[test]
fn made_values_know_their_bits_and_stacks(rt: HostRuntime) {
    let five = Value::constant(5, Some(3));
    assert_eq!(rt; five, plain(Bits::of(5), 8));
    assert_eq!(rt;
        Value::derived(&Bits::of(5), None),
        Value::constant(5, None)
    );
    let open = joined(&Bits::of(0x1_0000_0005), &Bits::of(0x3_0000_0007));
    assert_eq!(rt; Value::derived(&open, Some(3)), plain(open, 0x1_FFFF));
    let low = Value::derived(&open, None).low(None);
    assert_eq!(rt; low.bits, joined(&Bits::of(5), &Bits::of(7)));
    assert_eq!(rt; Value::constant(0x2_0000_0005, None).low(Some(3)), five);
}
