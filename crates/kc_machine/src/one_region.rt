//! Bytes that lie in one region: what holds of the first of them there holds of each.

ghost use Rattle.std.specs.Prelude.{◌≡◌, ◌+◌, ◌≤◌, ℕ, IsTrue, ◌↔◌, true, false, All, Any};
ghost use Rattle.kc_regions.specs.Permission.{permits};
ghost use Rattle.kc_events.specs.Breaks.{judged, IsOf};
ghost use Rattle.kc_machine.specs.JudgeSteps.{AreInOne, IsExecutable, IsPlain};

use kc_exec::Access;
use kc_regions::{Config, Kind, Region};

// Whether so many bytes from `at` on end no later than the region.
fn fits(region: &Region, at: u64, size: u8) -> bool
    ensures { IsTrue result ↔ (at + size ≤ region.now.span.to) }
{
    at <= region.span.to && size as u64 <= region.span.to - at
}

/// Whether so many bytes from `at` on, one at least, lie in one region.
pub(crate) fn are_in_one(cfg: &Config, at: u64, size: u8) -> bool
    ensures { IsTrue result ↔ AreInOne cfg.now at size }
{
    match cfg.regions.of(at) {
        Some(region) => 0 < size && fits(region, at, size),
        None => false,
    }
}

fn is_code(region: &Region) -> bool
    ensures { IsTrue result ↔ ((region.now.kind ≡ Kind.Text) × (region.now.exec ≡ true)) }
{
    region.kind == Kind::Text && region.exec
}

/// Whether so many bytes from `at` on, one at least, lie in one region, which is executable text.
pub(crate) fn are_code(cfg: &Config, at: u64, size: u8) -> bool
    ensures { IsTrue result ↔ (AreInOne cfg.now at size × IsExecutable cfg.now at) }
{
    match cfg.regions.of(at) {
        Some(region) => 0 < size && fits(region, at, size) && is_code(region),
        None => false,
    }
}

// Whether the access's bytes lie in one region, which is present and has the right.
fn is_plain(cfg: &Config, cr3: u64, access: &Access) -> bool
    ensures { IsTrue result ↔ IsPlain cfg.now cr3 access.now }
{
    are_in_one(cfg, access.at, access.size) && cfg.permits(cr3, access.touch, access.at)
}

fn all_plain(cfg: &Config, cr3: u64, accesses: &[Access]) -> bool
    ensures { IsTrue result ↔ All (IsPlain cfg.now cr3) accesses.now }
{
    accesses.iter().all(|access| is_plain(cfg, cr3, access))
}

/// Whether the bytes of each access lie in one region, which is present and has the right. Then no
/// access has a byte in a guard, and none a byte that is absent or forbidden.
pub(crate) fn are_plain(cfg: &Config, cr3: u64, accesses: &[Access]) -> bool
    ensures front { IsTrue result → judged cfg.now accesses.now ≡ accesses.now }
    ensures permitted { IsTrue result
        → ¬ Any (λ a. (x : ℕ) × IsOf a x × (permits cfg.now cr3 a.touch x ≡ false)) accesses.now }
{
    cfg.tell();
    all_plain(cfg, cr3, accesses)
}
