//! Sets of vectors, this project's own.

ghost use Rattle.std.specs.Prelude.{◌≡◌, ◌≢◌, ◌<◌, ◌^◌, ℕ, bit_or, true, false};
ghost use Rattle.kc_absevent.specs.Sets.{has_vector, IsSetOf, with_vector};

/// A set of vectors: bit v of 256.
#[derive(Clone, Copy, PartialEq, Eq, Debug)]
pub struct EventSet {
    pub vectors: [u64; 4],
}

impl EventSet {
    /// No vector.
    pub fn new() -> EventSet
        ensures empty { IsSetOf result.vectors (λ v. false) }
    {
        EventSet { vectors: [0; 4] }
    }

    /// Whether vector `v` is in the set.
    pub fn has(&self, v: u8) -> bool
        ensures value { result ≡ has_vector self.now.vectors v }
    {
        (self.vectors[usize::from(v / 64)] >> (v % 64)) & 1 == 1
    }

    /// Adds vector `v`.
    #[tactic(auto, using(crate::proofs::SetLemmas::added_has, crate::proofs::SetLemmas::added_keeps))]
    pub fn add(&mut self, v: u8)
        ensures added { has_vector self.new.vectors v ≡ true }
        ensures others { (w : ℕ) → w < 256 → w ≢ v → has_vector self.new.vectors w ≡ has_vector self.old.vectors w }
    {
        self.vectors = with_vector(&self.vectors, v);
    }
}

fn with_bit(word: u64, k: u8) -> u64
    requires { k < 64 }
    ensures { result ≡ bit_or word (2 ^ k) }
{
    word | 1 << k
}

fn with_vector(words: &[u64; 4], v: u8) -> [u64; 4]
    ensures { result ≡ with_vector words.now v }
{
    let mut all = *words;
    let i = usize::from(v / 64);
    all[i] = with_bit(all[i], v % 64);
    all
}
