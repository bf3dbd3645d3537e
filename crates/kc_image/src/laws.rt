//! What the tests in the definitions mean.

ghost use Rattle.std.specs.Prelude.{◌≡◌, ◌↔◌, ℕ, true};
ghost use Rattle.kc_words.specs.Range.{Range};
ghost use Rattle.kc_words.specs.Span.{Holds, Meets};
ghost use Rattle.kc_image.specs.Image.{holds, meets};

/// A law on the definitions, with nothing to run: their test on a range and an address says that the
/// address lies in the range, and their test on two ranges that some address lies in both.
pub fn ranges_meet_in_an_address()
    ensures held { (r : Range) (a : ℕ) → (holds r a ≡ true) ↔ Holds r a }
    ensures met { (r s : Range) → (meets r s ≡ true) ↔ Meets r s }
{}
