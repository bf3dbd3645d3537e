//! A value plus a number that is known, this project's own.

ghost use Rattle.std.specs.Prelude.{◌≡◌, ◌<◌, ◌^◌, ℤ, pos, neg_ℤ, int_le};
ghost use Rattle.kc_bits.specs.Bits.{bits_add, all_of};
ghost use Rattle.kc_value.specs.Made.{derived, IsPlace};
ghost use Rattle.kc_regions.specs.Region.{stack_of};
ghost use Rattle.kc_state.specs.Shift.{is_only_stack, shifted_places, based, shifted};

use crate::key::Key;
use kc_bits::Bits;
use kc_regions::Config;
use kc_value::{Sym, Value};

const ALL_PLACES: u32 = 0x1_FFFF;

/// `v` plus `c`: a value of the base stays one, as long as its offset is one of 64 bits.
pub fn shift(cfg: &Config, key: &Key, v: &Value, c: i64) -> Value
    ensures value { result ≡ shifted cfg.now key.now v.now c }
{
    if let Sym::Base(k) = v.sym {
        if let Some(sum) = k.checked_add(c) {
            return based(sum, places(key, v.stacks, c >= 0, sum));
        }
    }
    moved(cfg, v, c.cast_unsigned())
}

/// `v` less `c`: a value of the base stays one, as long as its offset is one of 64 bits.
pub fn shift_down(cfg: &Config, key: &Key, v: &Value, c: i64) -> Value
    ensures value { result ≡ shifted cfg.now key.now v.now (neg_ℤ c) }
{
    if c == i64::MIN {
        shift_half(cfg, key, v)
    } else {
        shift(cfg, key, v, -c)
    }
}

// `v` plus 2^63, which is no signed number of 64 bits.
fn shift_half(cfg: &Config, key: &Key, v: &Value) -> Value
    ensures { result ≡ shifted cfg.now key.now v.now (pos (2 ^ 63)) }
{
    if let Sym::Base(k) = v.sym {
        if let Some(sum) = k.checked_sub(i64::MIN) {
            return based(sum, places(key, v.stacks, true, sum));
        }
    }
    moved(cfg, v, 1 << 63)
}

// The base plus `k`, with no known bit.
fn based(k: i64, stacks: u32) -> Value
    requires { stacks < 2 ^ 17 }
    ensures { result ≡ based k stacks }
{
    Value {
        sym: Sym::Base(k),
        bits: Value::top().bits,
        stacks,
    }
}

// The places of the base plus `k` after a move from these, which goes up or not.
fn places(key: &Key, stacks: u32, up: bool, k: i64) -> u32
    requires { stacks < 2 ^ 17 }
    ensures bound { result < 2 ^ 17 }
    ensures value { (c : ℤ) → up ≡ int_le (pos 0) c → result ≡ shifted_places key.now stacks c k }
{
    if is_only_stack(stacks, key.stack) && key.base.is_none() && up && k <= 0 {
        stacks
    } else {
        ALL_PLACES
    }
}

/// Whether the set of places `stacks` has this one stack alone.
pub fn is_only_stack(stacks: u32, stack: Option<u8>) -> bool
    requires { stacks < 2 ^ 17 }
    ensures value { result ≡ is_only_stack stacks stack }
{
    match stack {
        Some(s) if s < 17 => stacks == 1 << s,
        _ => false,
    }
}

// The bits of `v` plus the word `c`, at the place of that number.
fn moved(cfg: &Config, v: &Value, c: u64) -> Value
    ensures { result ≡ derived (stack_of cfg.now.regions) (bits_add v.now.bits (all_of c)) }
{
    derived(cfg, &v.bits.add(&Bits::of(c)))
}

/// What `bits` alone say, a number at its own place.
pub fn derived(cfg: &Config, bits: &Bits) -> Value
    ensures value { result ≡ derived (stack_of cfg.now.regions) bits.now }
{
    match bits.single() {
        Some(n) => Value::derived(bits, cfg.regions.stack_of(n)),
        None => Value::derived(bits, None),
    }
}
