//! Where an abstract value points, this project's own.

ghost use Rattle.std.specs.Prelude.{◌≡◌};
ghost use Rattle.kc_state.specs.Location.{location_of};

use crate::key::Key;
use kc_value::{Sym, Value};

/// An address: a number, or an offset from the newest activation's base, which lies in the stack of
/// the key.
#[derive(Clone, Copy, PartialEq, Eq, Debug)]
pub enum Location {
    Number(u64),
    Relative(i64),
}

/// Where `v` points in a context with this key; none where that is unknown.
pub fn loc(key: &Key, v: &Value) -> Option<Location>
    ensures value { result ≡ location_of key.now v.now }
{
    match v.sym {
        Sym::Base(k) => match key.base {
            Some(base) => Some(Location::Number(base.wrapping_add(k.cast_unsigned()))),
            None if key.stack.is_some() => Some(Location::Relative(k)),
            None => None,
        },
        _ => match v.bits.single() {
            Some(n) => Some(Location::Number(n)),
            None => None,
        },
    }
}
