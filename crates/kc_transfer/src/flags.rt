//! What is known of single flags of RFLAGS, and conditions on them in three values (Intel SDM vol. 1,
//! "EFLAGS Register", and vol. 2, "Jcc").

ghost use Rattle.std.specs.Prelude.{◌≡◌, ◌<◌, bit_and, bit_or};
ghost use Rattle.kc_state.specs.Flags.{marked, set_flag, clear_flag, forgotten, known_flag, with_tri, tri_not, tri_or, tri_differ, holds_even, holds};

use kc_bits::Bits;
use kc_space::Tri;

// The flags of `forget` are no longer known, and then those of `ones` and `zeros` are.
pub(crate) fn mark(b: &Bits, forget: u64, ones: u64, zeros: u64) -> Bits
    requires apart { bit_and ones zeros ≡ 0 }
    requires within { bit_and forget (bit_or ones zeros) ≡ bit_or ones zeros }
    ensures { result ≡ marked b.now forget ones zeros }
{
    Bits {
        zeros: b.zeros & !forget | zeros,
        ones: b.ones & !forget | ones,
    }
}

pub(crate) fn set_flag(mask: u64, b: &Bits) -> Bits
    ensures { result ≡ set_flag mask b.now }
{
    mark(b, mask, mask, 0)
}

pub(crate) fn clear_flag(mask: u64, b: &Bits) -> Bits
    ensures { result ≡ clear_flag mask b.now }
{
    mark(b, mask, 0, mask)
}

pub(crate) fn forget(b: &Bits, mask: u64) -> Bits
    ensures { result ≡ forgotten b.now mask }
{
    mark(b, mask, 0, 0)
}

// What is known of bit `i`.
pub(crate) fn known_flag(b: &Bits, i: u32) -> Tri
    requires { i < 64 }
    ensures { result ≡ known_flag b.now i }
{
    if (b.ones >> i) & 1 == 1 {
        Tri::Yes
    } else if (b.zeros >> i) & 1 == 1 {
        Tri::No
    } else {
        Tri::Any
    }
}

// The flags of the mask as far as they are known.
pub(crate) fn with_tri(mask: u64, t: Tri, b: &Bits) -> Bits
    ensures { result ≡ with_tri mask t b.now }
{
    match t {
        Tri::Yes => set_flag(mask, b),
        Tri::No => clear_flag(mask, b),
        Tri::Any => *b,
    }
}

pub(crate) fn tri_not(t: Tri) -> Tri
    ensures { result ≡ tri_not t }
{
    match t {
        Tri::No => Tri::Yes,
        Tri::Yes => Tri::No,
        Tri::Any => Tri::Any,
    }
}

fn tri_or(s: Tri, t: Tri) -> Tri
    ensures { result ≡ tri_or s t }
{
    match s {
        Tri::Yes => Tri::Yes,
        Tri::No => t,
        Tri::Any => any_or(t),
    }
}

fn any_or(t: Tri) -> Tri
    ensures { result ≡ tri_or Tri.Any t }
{
    match t {
        Tri::Yes => Tri::Yes,
        Tri::No | Tri::Any => Tri::Any,
    }
}

fn tri_differ(s: Tri, t: Tri) -> Tri
    ensures { result ≡ tri_differ s t }
{
    match s {
        Tri::Any => Tri::Any,
        Tri::No => t,
        Tri::Yes => tri_not(t),
    }
}

// SF differs from OF.
fn less(b: &Bits) -> Tri
    ensures { result ≡ tri_differ (known_flag b.now 7) (known_flag b.now 11) }
{
    tri_differ(known_flag(b, 7), known_flag(b, 11))
}

// The condition of the upper three bits of a code: O, B, Z, BE, S, P, L, LE.
fn condition_of(n: u8, b: &Bits) -> Tri
    ensures { result ≡ holds_even n b.now }
{
    match n {
        0 => known_flag(b, 11),
        1 => known_flag(b, 0),
        2 => known_flag(b, 6),
        3 => tri_or(known_flag(b, 0), known_flag(b, 6)),
        4 => known_flag(b, 7),
        5 => known_flag(b, 2),
        6 => less(b),
        _ => tri_or(known_flag(b, 6), less(b)),
    }
}

// Whether the condition of this code holds.
pub(crate) fn condition_holds(code: u8, b: &Bits) -> Tri
    ensures { result ≡ holds code b.now }
{
    let even = condition_of(code / 2, b);
    if code % 2 == 0 { even } else { tri_not(even) }
}
