//! Where the parts of every valid description lie.

ghost use Rattle.kc_regions.specs.Description.{Description};
ghost use Rattle.kc_regions.specs.Valid.{IsValid};
ghost use Rattle.kc_regions.specs.Layout.{Laid};

/// A law on the definitions, with nothing to run: what follows for stacks, guards, areas and words
/// from the rules that a valid description keeps.
pub fn layout()
    ensures laid { (d : Description) → IsValid d → Laid d }
{}
