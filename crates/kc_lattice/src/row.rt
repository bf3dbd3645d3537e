//! Rows of abstract values, this project's own: order, join, top and meaning place by place.

ghost use Rattle.std.specs.Prelude.{◌≡◌, All, map, sum_by};
ghost use Rattle.std.specs.List.{AllZip};
ghost use Rattle.kc_lattice.specs.RowLaws.{rows_laws, rows_grows};
ghost use Rattle.kc_lattice.specs.Rows.{rows_below, rows_joined};

use crate::domain::{Domain, Meaning};
use crate::list::{is_top_each, join_each, leq_each, set_top_each, stands_each, tell_each};
use std::marker::Model;

/// Abstract values in a row, which contracts see as their list. Rows are alike where they have one
/// length and are alike place by place.
#[derive(Drop)]
pub struct Row<V> {
    pub items: Vec<V>,
}

impl<V> Model for Row<V> {
    ghost use Rattle.std.specs.Prelude.{List};
    ghost use Rattle.std.specs.Coded.{coded_list};

    ghost Value = { List V };

    ghost coded = { coded_list V.code };

    ghost view = { λ r. r.items.items };
}

impl<V: Domain> Domain for Row<V> {
    ghost valid = { All V.valid };

    ghost alike = { AllZip V.alike };

    ghost below = { rows_below V.below };

    ghost joined = { rows_joined V.joined };

    ghost top_of = { map V.top_of };

    ghost rank = { sum_by V.rank };

    ghost laws = { rows_laws V.laws };

    fn leq(&self, other: &Self) -> bool {
        leq_each(&self.items, &other.items)
    }

    fn join(&mut self, other: &Self) {
        join_each(&mut self.items, &other.items);
    }

    fn is_top(&self) -> bool {
        is_top_each(&self.items)
    }

    fn set_top(&mut self) {
        set_top_each(&mut self.items);
    }

    fn tell(&self) {
        tell_each(&self.items);
    }
}

impl<V: Meaning> Meaning for Row<V> {
    type Env = V::Env;

    type Conc = Vec<V::Conc>;

    ghost holds = { λ r e c. AllZip (λ x k. V.holds x e k) r c.items };

    ghost grows = { λ r s e c hr hs h.
        rows_grows V.valid V.below (λ x k. V.holds x e k) (λ x y k. V.grows x y e k) r s c.items hr hs h };

    fn stands(&self, env: &Self::Env, c: &Self::Conc) -> bool {
        stands_each(&self.items, env, c)
    }
}
