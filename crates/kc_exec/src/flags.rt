//! The flags of RFLAGS (Intel SDM vol. 1, "EFLAGS Register").

ghost use Rattle.std.specs.Prelude.{◌≡◌, ◌<◌};
ghost use Rattle.kc_exec.specs.RFlags.{is_set, with_set, with_clear, replaced, loaded, holds, holds_even, is_less_by};

// The places of the flags that conditions and STI look at.
const CF: u32 = 0;

const PF: u32 = 2;

const ZF: u32 = 6;

const SF: u32 = 7;

const IF_PLACE: u32 = 9;

const OF: u32 = 11;

/// The carry flag alone.
pub(crate) const CARRY: u64 = 1;

/// CF, PF, AF, ZF, SF and OF.
pub(crate) const STATUS: u64 = 0x8D5;

/// The same without AF, which AND, OR, XOR and TEST leave undefined.
pub(crate) const LOGIC_STATUS: u64 = 0x8C5;

pub(crate) const IF: u64 = 1 << 9;

pub(crate) const DF: u64 = 1 << 10;

pub(crate) const AC: u64 = 1 << 18;

// The definitions have these two masks again, so that a wrong one shows.
/// What POPFQ and IRETQ load.
pub(crate) const LOADABLE: u64 = 0x24_0FD5;

/// What SYSRETQ loads.
pub(crate) const SYSRET_FLAGS: u64 = 0x3C_7FD7;

fn flag_at(flags: u64, place: u32) -> bool
    requires { place < 64 }
    ensures { result ≡ is_set flags place }
{
    (flags >> place) & 1 == 1
}

// Whether IF is set.
pub(crate) fn has_if(flags: u64) -> bool
    ensures { result ≡ is_set flags 9 }
{
    flag_at(flags, IF_PLACE)
}

pub(crate) fn set_flag(flags: u64, mask: u64) -> u64
    ensures { result ≡ with_set flags mask }
{
    flags | mask
}

pub(crate) fn clear_flag(flags: u64, mask: u64) -> u64
    ensures { result ≡ with_clear flags mask }
{
    flags & !mask
}

// The flags with those of `defined` as they are in `new`.
pub(crate) fn replace_flags(defined: u64, new: u64, flags: u64) -> u64
    ensures { result ≡ replaced defined new flags }
{
    (flags & !defined) | (new & defined)
}

// RFLAGS as a word gives it, of the flags in `mask`, with bit 1 set.
pub(crate) fn load_flags(mask: u64, word: u64) -> u64
    ensures { result ≡ loaded mask word }
{
    (word & mask) | 2
}

// Whether SF differs from OF.
fn is_less(flags: u64) -> bool
    ensures { result ≡ is_less_by flags }
{
    (flags >> SF) & 1 != (flags >> OF) & 1
}

fn condition_of(n: u8, flags: u64) -> bool
    ensures { result ≡ holds_even n flags }
{
    match n {
        0 => flag_at(flags, OF),
        1 => flag_at(flags, CF),
        2 => flag_at(flags, ZF),
        3 => flag_at(flags, CF) || flag_at(flags, ZF),
        4 => flag_at(flags, SF),
        5 => flag_at(flags, PF),
        6 => is_less(flags),
        _ => flag_at(flags, ZF) || is_less(flags),
    }
}

// Whether the condition of this code holds (Intel SDM vol. 2, "Jcc").
pub(crate) fn condition_holds(code: u8, flags: u64) -> bool
    ensures { result ≡ holds code flags }
{
    let even = condition_of(code / 2, flags);
    if code % 2 == 0 { even } else { !even }
}
