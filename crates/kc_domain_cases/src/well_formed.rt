//! Whether a value is well-formed.

ghost use Rattle.std.specs.Prelude.{◌≡◌, IsTrue, ◌↔◌, IfSome};
ghost use Rattle.std.specs.Int.{bit_at};
ghost use Rattle.kc_bits.specs.Bits.{bits_single};
ghost use Rattle.kc_regions.specs.Region.{stack_of};
ghost use Rattle.kc_state.specs.WellFormed.{IsWellFormed, IsSymbolWellFormed};

use kc_bits::Bits;
use kc_lattice::Domain;
use kc_regions::Config;
use kc_state::Key;
use kc_value::{Sym, Value};

// Whether bit 0 isn't known.
#[tactic(auto, using(std::proofs::lemmas::Nat::Bits::bit_at_lowest))]
fn is_bit_0_unknown(bits: &Bits) -> bool
    ensures { IsTrue result ↔ ((bit_at bits.now.zeros 0 ≡ 0) × (bit_at bits.now.ones 0 ≡ 0)) }
{
    bits.zeros % 2 == 0 && bits.ones % 2 == 0
}

// Whether the bits know no number but one in the stack of the key.
fn is_at_home(cfg: &Config, key: &Key, bits: &Bits) -> bool
    ensures { IsTrue result ↔ IfSome (bits_single bits.now) (λ n. stack_of cfg.now.regions n ≡ key.now.stack) }
{
    match bits.single() {
        Some(n) => cfg.regions.stack_of(n) == key.stack,
        None => true,
    }
}

fn is_symbol_well_formed(cfg: &Config, key: &Key, v: &Value) -> bool
    ensures { IsTrue result ↔ IsSymbolWellFormed cfg.now key.now v.now v.now.sym }
{
    match v.sym {
        Sym::Plain => true,
        Sym::Base(_) => v.bits.is_top(),
        Sym::UserGs => is_bit_0_unknown(&v.bits),
        Sym::Entry(w) => w != 4 || is_at_home(cfg, key, &v.bits),
    }
}

/// Whether the value is well-formed in a context with this key.
pub fn is_well_formed(cfg: &Config, key: &Key, v: &Value) -> bool
    ensures is { IsTrue result ↔ IsWellFormed cfg.now key.now v.now }
{
    is_symbol_well_formed(cfg, key, v) && v.stacks != 0
}
