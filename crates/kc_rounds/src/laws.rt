//! What a round of a search may leave out.

ghost use Rattle.std.specs.Prelude.{◌≡◌, All, fold};
ghost use Rattle.kc_cert.specs.IterationLimit.{Table, add, demands, next_table};
ghost use Rattle.kc_image.specs.Image.{Contents};
ghost use Rattle.kc_limit.specs.Valid.{IsDemand, IsTable};
ghost use Rattle.kc_regions.specs.Description.{Description};
ghost use Rattle.kc_rounds.specs.Listing.{Listing, IsListing, listed_demands, nothing_listed};

/// A table joined with what is listed is the next table, where all that changed by the round before is listed. Where
/// nothing is listed it is the last.
pub fn listed_round()
    ensures next { (image : Contents) (d : Description) (t u : Table) (l : Listing) → IsTable t
        → All IsDemand (demands image d t) → All IsDemand (demands image d u) → next_table image d t ≡ u
        → IsListing image d t u l → fold add u (listed_demands image d u l) ≡ next_table image d u }
    ensures last { (image : Contents) (d : Description) (t u : Table) → IsTable t
        → All IsDemand (demands image d t) → All IsDemand (demands image d u) → next_table image d t ≡ u
        → IsListing image d t u nothing_listed → next_table image d u ≡ u }
{}
