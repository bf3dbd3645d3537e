//! The order and the joins of a domain.

use kc_abs_text::answer;
use kc_lattice::Domain;

/// Whether the order, the join or the test for the top of these two answers this.
pub(crate) fn is_ordered<D: Domain + PartialEq + Copy, F: Fn(&str) -> Option<D>>(
    name: &str,
    arguments: (&str, &str),
    due: &str,
    read: F,
) -> Option<bool>
    requires alike { (x : D) (y : D) → D.alike x y }
    requires reads { F.IsAlwaysCallable read }
{
    let x = read(arguments.0)?;
    if name == "top" {
        return Some(x.is_top() == answer(due)?);
    }
    let y = read(arguments.1)?;
    match name {
        "leq" => Some(x.leq(&y) == answer(due)?),
        "join" => Some(joined(&x, &y) == read(due)?),
        _ => None,
    }
}

fn joined<D: Domain + Copy>(x: &D, y: &D) -> D
    requires alike { D.alike x.now y.now }
{
    let mut all = *x;
    all.join(y);
    all
}
