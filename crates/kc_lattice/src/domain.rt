//! Domains of abstract values and what their values stand for, this project's own.

ghost use Rattle.std.specs.Prelude.{◌≡◌, ℕ, Bool, true, IsTrue, ◌↔◌};
ghost use Rattle.kc_lattice.specs.Laws.{Laws};

/// Abstract values with a partial order, least upper bounds and tops.
///
/// Valid values have each number in the range of its type and in those that its type names; every
/// value of a running program is valid. Being alike, of one shape, is an equivalence among them,
/// and only what is alike is ordered or joined.
pub trait Domain {
    ghost valid: { Self → Type 0 };

    ghost alike: { Self → Self → Type 0 };

    ghost below: { Self → Self → Bool };

    ghost joined: { Self → Self → Self };

    ghost top_of: { Self → Self };

    ghost rank: { Self → ℕ };

    /// Whether `self` lies below `other` or is equal to it.
    fn leq(&self, other: &Self) -> bool
        ensures value { result ≡ below self.now other.now };

    /// Makes `self` the least upper bound of itself and `other`, which is alike.
    fn join(&mut self, other: &Self)
        requires { alike self.old other.now }
        ensures value { self.new ≡ joined self.old other.now };

    /// Whether `self` is the top of its shape.
    fn is_top(&self) -> bool
        ensures is { IsTrue result ↔ (self.now ≡ top_of self.now) };

    /// Makes `self` the top of its shape.
    fn set_top(&mut self)
        ensures value { self.new ≡ top_of self.old };

    /// Does nothing, and tells a proof that the value is valid.
    fn tell(&self)
        ensures valid { valid self.now };

    // What each `impl` proves.
    ghost laws: { Laws valid alike below joined top_of rank };
}

/// A domain whose values stand for sets of concrete ones, in an environment.
pub trait Meaning: Domain {
    type Env;

    type Conc;

    ghost holds: { Self → Self.Env → Self.Conc → Type 0 };

    /// Whether `self` stands for `c` in `env`.
    fn stands(&self, env: &Self::Env, c: &Self::Conc) -> bool
        ensures is { IsTrue result ↔ holds self.now env.now c.now };

    // What a lesser value stands for, a greater one stands for too.
    ghost grows: { (x y : Self) (e : Self.Env) (c : Self.Conc) → Self.valid x → Self.valid y
        → Self.below x y ≡ true → holds x e c → holds y e c };
}
