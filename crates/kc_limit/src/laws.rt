//! The laws of the iteration limit.

ghost use Rattle.std.specs.Prelude.{◌≡◌, ◌↔◌, ◌⊎◌, ℕ, List, All, Contains, fold};
ghost use Rattle.kc_cert.specs.IterationLimit.{Demand, IsIterationLimit, Table, add, demands, next_table, node_demands, summary_entered, table_after};
ghost use Rattle.kc_cert.specs.Placed.{Placed, entered_by, events_of};
ghost use Rattle.kc_image.specs.Image.{Contents};
ghost use Rattle.kc_limit.specs.Order.{Fits, Holds, IsBelow, IsClosed};
ghost use Rattle.kc_limit.specs.Valid.{IsDemand, IsRounds, IsTable};
ghost use Rattle.kc_regions.specs.Description.{Description};

/// A table joined with demands is the least one that is above it and has them, so their order and repeats don't matter.
pub fn demands_joined()
    ensures valid { (t : Table) (all : List Demand) → IsTable t → All IsDemand all → IsTable (fold add t all) }
    ensures above { (t : Table) (all : List Demand) → IsTable t → All IsDemand all → IsBelow t (fold add t all) }
    ensures held { (t : Table) (all : List Demand) → IsTable t → All IsDemand all → All (Holds (fold add t all)) all }
    ensures least { (t u : Table) (all : List Demand) → IsTable t → IsTable u → All IsDemand all → IsBelow t u
        → All (Holds u) all → IsBelow (fold add t all) u }
    ensures one { (t u : Table) → IsTable t → IsTable u → IsBelow t u → IsBelow u t → t ≡ u }
{}

/// There is at most one iteration limit, and it is within the limits of a certificate only where all rounds are.
/// Where what the rounds join is valid, there is one, and it has all that it demands. A table has all that it demands
/// exactly where its round keeps it.
pub fn iteration_limit()
    ensures at_most_one { (image : Contents) (d : Description) (t u : Table) → IsIterationLimit image d t
        → IsIterationLimit image d u → t ≡ u }
    ensures at_least_one { (image : Contents) (d : Description) → IsRounds image d
        → (t : Table) × IsIterationLimit image d t }
    ensures within { (image : Contents) (d : Description) (t : Table) (n : ℕ) → IsIterationLimit image d t → Fits t
        → Fits (table_after image d n) }
    ensures closed { (image : Contents) (d : Description) (t : Table) → IsRounds image d → IsIterationLimit image d t
        → IsClosed image d t }
    ensures fixed { (image : Contents) (d : Description) (t : Table) → IsTable t → All IsDemand (demands image d t)
        → (next_table image d t ≡ t) ↔ All (Holds t) (demands image d t) }
{}

/// What a search may leave out of a round: demands that the table has, and the demands of a node that demanded the
/// same before, as each does where the contexts that its events enter have the summaries that they had.
pub fn shorter_round()
    ensures some { (t : Table) (some all : List Demand) → IsTable t → All IsDemand all → All (Contains all) some
        → All (λ x. Holds t x ⊎ Contains some x) all → fold add t some ≡ fold add t all }
    ensures same { (image : Contents) (d : Description) (t u : Table) (p : Placed)
        → All (λ v. summary_entered image t (entered_by d p v) ≡ summary_entered image u (entered_by d p v))
        (events_of d p)
        → node_demands image d t p ≡ node_demands image d u p }
{}
