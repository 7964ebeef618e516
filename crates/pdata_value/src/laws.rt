//! Laws on values and maps.

ghost use Rattle.std.specs.Prelude.{◌≡◌, ◌↔◌, [], true, ℕ, List, Some, IsTrue};
ghost use Rattle.pdata_value.specs.Value.{pairs};
ghost use Rattle.pdata_value.specs.Pairs.{get, get_last, is_distinct, merged, put};
ghost use Rattle.pdata_value.specs.Same.{same, same_answer};
ghost use Rattle.pdata_value.specs.declared.merge.Strategy.TheVariants.{Upsert};
ghost use Rattle.pdata_value.specs.declared.value.Value.{Value};
ghost use Rattle.pdata_value.specs.declared.value.Value.TheVariants as variants;
ghost use Rattle.pdata_value.specs.declared.pairs.Pairs.{Pairs};

/// To be the same is an equivalence.
pub fn same_is_an_equivalence()
    ensures itself { (v : Value) → same v v ≡ true }
    ensures back { (v w : Value) → same v w ≡ true → same w v ≡ true }
    ensures on { (u v w : Value) → same u v ≡ true → same v w ≡ true → same u w ≡ true }
{}

/// Maps are the same where at each key they have the same first value, or none.
pub fn maps_are_the_same_key_by_key()
    ensures { (ps qs : Pairs) → (same (variants.Map ps) (variants.Map qs) ≡ true)
        ↔ ((key : List ℕ) → same_answer (get (pairs ps) key) (get (pairs qs) key) ≡ true) }
{}

/// What is put under a key is found there, and other keys keep what they had.
pub fn what_is_put_is_found()
    ensures this_key { (ps : List (List ℕ × Value)) (key : List ℕ) (v : Value)
        → get (put ps key v) key ≡ Some v }
    ensures other_keys { (ps : List (List ℕ × Value)) (key other : List ℕ) (v : Value)
        → (key ≡ other → ⊥) → get (put ps key v) other ≡ get ps other }
{}

/// Merged into the empty map by upsert, a map gives each key the last value that it has there, and
/// stays as it is where no key stands twice.
pub fn upsert_into_the_empty_map_keeps_last_values()
    ensures last { (qs : List (List ℕ × Value)) (key : List ℕ)
        → get (merged Upsert [] qs) key ≡ get_last qs key }
    ensures distinct { (qs : List (List ℕ × Value)) → IsTrue (is_distinct qs)
        → merged Upsert [] qs ≡ qs }
{}
