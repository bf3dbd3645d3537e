//! How keys and values in rows are a finite map.

ghost use Rattle.std.specs.Prelude.{List};
ghost use Rattle.std.specs.Cmp.{IsTotalOrder};
ghost use Rattle.std.specs.declared.cmp.Ordering.{Ordering};
ghost use Rattle.kc_keyed.specs.Keyed.{AreRows, CountsRows, FindsNoOther, FindsRows, InsertsRows, JoinsAtKeys, JoinsRows};

/// Rows are a finite map: joins into a row and a row that comes are joins and an insertion at its key, there are as
/// many keys as rows, and each value is found at its key, and nothing else is.
pub fn rows_are_a_map<K, X>()
    ensures joined { (R : K → K → Ordering) (keys : List K) (values : List X) → IsTotalOrder R
        → AreRows R keys values → JoinsAtKeys R keys values }
    ensures inserted { (R : K → K → Ordering) (keys : List K) (values : List X) → IsTotalOrder R
        → AreRows R keys values → InsertsRows R keys values }
    ensures came { (R : K → K → Ordering) (keys : List K) (values : List X) → IsTotalOrder R
        → AreRows R keys values → JoinsRows R keys values }
    ensures counted { (R : K → K → Ordering) (keys : List K) (values : List X) → IsTotalOrder R
        → AreRows R keys values → CountsRows R keys values }
    ensures found { (R : K → K → Ordering) (keys : List K) (values : List X) → IsTotalOrder R
        → AreRows R keys values → FindsRows R keys values }
    ensures nothing { (R : K → K → Ordering) (keys : List K) (values : List X) → IsTotalOrder R
        → AreRows R keys values → FindsNoOther R keys values }
{}
