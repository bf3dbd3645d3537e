//! Pairs of abstract values, this project's own: order, join, top and meaning part by part.

ghost use Rattle.std.specs.Prelude.{◌≡◌};
ghost use Rattle.kc_lattice.specs.PairLaws.{both_laws, both_grows};
ghost use Rattle.kc_lattice.specs.Pair.{both_valid, both_alike, both_below, both_joined, both_top, both_rank};

use crate::domain::{Domain, Meaning};

/// Two abstract values side by side. Pairs are alike where both parts are.
#[derive(Clone, Copy, PartialEq, Eq, Debug)]
pub struct Both<A, B> {
    pub first: A,
    pub second: B,
}

impl<A: Domain, B: Domain> Domain for Both<A, B> {
    ghost valid = { both_valid A.valid B.valid };

    ghost alike = { both_alike A.alike B.alike };

    ghost below = { both_below A.below B.below };

    ghost joined = { both_joined A.joined B.joined };

    ghost top_of = { both_top A.top_of B.top_of };

    ghost rank = { both_rank A.rank B.rank };

    ghost laws = { both_laws A.laws B.laws };

    fn leq(&self, other: &Self) -> bool {
        self.first.leq(&other.first) && self.second.leq(&other.second)
    }

    fn join(&mut self, other: &Self) {
        self.first.join(&other.first);
        self.second.join(&other.second);
    }

    fn is_top(&self) -> bool {
        self.first.is_top() && self.second.is_top()
    }

    fn set_top(&mut self) {
        self.first.set_top();
        self.second.set_top();
    }

    fn tell(&self) {
        self.first.tell();
        self.second.tell();
    }
}

impl<A: Meaning, B: Meaning> Meaning for Both<A, B> {
    type Env = (A::Env, B::Env);

    type Conc = (A::Conc, B::Conc);

    ghost holds = { λ x e c. A.holds x.first e.0 c.0 × B.holds x.second e.1 c.1 };

    ghost grows = { both_grows A.holds B.holds A.grows B.grows };

    fn stands(&self, env: &Self::Env, c: &Self::Conc) -> bool {
        self.first.stands(&env.0, &c.0) && self.second.stands(&env.1, &c.1)
    }
}
