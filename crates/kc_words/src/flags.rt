//! The six status flags of RFLAGS at their places (Intel SDM vol. 1, "Status Flags").

ghost use Rattle.std.specs.Prelude.{◌≡◌, ◌≤◌, ◌<◌, cond};
ghost use Rattle.kc_words.specs.Flags.{bits_of, result_flags, sum_flags, difference_flags};

use crate::width::Width;

const CF: u64 = 1 << 0;

const PF: u64 = 1 << 2;

const AF: u64 = 1 << 4;

const ZF: u64 = 1 << 6;

const SF: u64 = 1 << 7;

const OF: u64 = 1 << 11;

fn flag_if(set: bool, flag: u64) -> u64
    ensures value { result ≡ cond set flag 0 }
    ensures bound { result ≤ flag }
{
    if set { flag } else { 0 }
}

/// CF, PF, AF, ZF, SF and OF of `a + b` at width `w`, at their places in RFLAGS (Intel SDM vol. 2,
/// "ADD"). Bits of `a` and `b` above the width don't count.
pub fn add_flags(w: Width, a: u64, b: u64) -> u64
    ensures value { result ≡ sum_flags (bits_of w) a b }
{
    let sum = a.wrapping_add(b);
    let carry = w.cut(sum) < w.cut(a);
    let adjust = (sum & 0xF) < (a & 0xF);
    let overflow = w.is_negative((a ^ sum) & (b ^ sum));
    flag_if(carry, CF) + flag_if(adjust, AF) + flag_if(overflow, OF) + logic_flags(w, sum)
}

/// CF, PF, AF, ZF, SF and OF of `a - b` at width `w`, at their places in RFLAGS (Intel SDM vol. 2,
/// "SUB" and "CMP"). Bits of `a` and `b` above the width don't count.
pub fn sub_flags(w: Width, a: u64, b: u64) -> u64
    ensures value { result ≡ difference_flags (bits_of w) a b }
{
    let difference = a.wrapping_sub(b);
    let borrow = w.cut(a) < w.cut(b);
    let adjust = (a & 0xF) < (b & 0xF);
    let overflow = w.is_negative((a ^ b) & (a ^ difference));
    flag_if(borrow, CF) + flag_if(adjust, AF) + flag_if(overflow, OF) + logic_flags(w, difference)
}

/// PF, ZF and SF of the result `r` at width `w`, with CF and OF 0, at their places in RFLAGS: what
/// AND, OR, XOR and TEST set (Intel SDM vol. 2, "AND"). AF, which they leave undefined, is 0 here.
/// Bits of `r` above the width don't count.
pub fn logic_flags(w: Width, r: u64) -> u64
    ensures value { result ≡ result_flags (bits_of w) r }
    ensures bound { result < 256 }
{
    let even = (r & 0xFF).count_ones() % 2 == 0;
    flag_if(even, PF) + flag_if(w.cut(r) == 0, ZF) + flag_if(w.is_negative(r), SF)
}
