//! What follows from the definitions of the two lists.
ghost use Rattle.std.specs.Prelude.{◌≡◌, ℕ, true, ◌||◌, List, take};
ghost use Rattle.std.specs.List.{AllByRecursion, list_any};
ghost use Rattle.std.specs.List.Sorted.{IsStrictlySortedBy};
ghost use Rattle.std.specs.Ordering.{nat_cmp};
ghost use Rattle.std.specs.Cmp.Lexicographic.{slice_cmp};
ghost use Rattle.region_map.specs.declared.region.Region.{Region};
ghost use Rattle.region_map.specs.Regions.{below};
ghost use Rattle.region_map.specs.Maps.{Pieced};
ghost use Rattle.store_api.specs.Rows.{Rows, AreOrdered, is_same_key, has_key, newer_keys, key_is_newer};
ghost use Rattle.backfill_items.specs.Changed.{chunk_keys, end_of};

/// Below its end, the list of a receiver has each key of the part whose row is newer than its ancestor's timestamp,
/// and no other, in the order of the keys and each once. It ends with the part, or where it has as many keys as it
/// may.
pub fn pre_has_each_newer_key()
    ensures found { (part : Region) (above : Pieced ℕ) (rows : Rows) (limit : ℕ) (key : List ℕ) → AreOrdered rows
        → below key (end_of limit (newer_keys part above rows) part.to) ≡ true
        → list_any (is_same_key key) (take limit (newer_keys part above rows)) ≡ key_is_newer part above rows key }
    ensures ordered { (part : Region) (above : Pieced ℕ) (rows : Rows) (limit : ℕ) → AreOrdered rows
        → IsStrictlySortedBy (slice_cmp nat_cmp) (take limit (newer_keys part above rows)) }
    ensures within { (part : Region) (above : Pieced ℕ) (rows : Rows) (limit : ℕ) → AreOrdered rows
        → AllByRecursion (λ key. below key (end_of limit (newer_keys part above rows) part.to) ≡ true) (take limit (newer_keys part above rows)) }
{}

/// Below its end, the list of a sender has each key that the receiver named and each key of the part whose row here
/// is newer than its ancestor's timestamp, and no other, in the order of the keys and each once. Where all named keys
/// lie in the part, so do all of the list, below its end.
pub fn chunk_has_each_changed_key()
    ensures found { (part : Region) (above : Pieced ℕ) (rows : Rows) (pre : List (List ℕ)) (limit : ℕ) (key : List ℕ) → AreOrdered rows
        → below key (end_of limit (chunk_keys part above rows pre) part.to) ≡ true
        → list_any (is_same_key key) (take limit (chunk_keys part above rows pre)) ≡ (list_any (is_same_key key) pre || key_is_newer part above rows key) }
    ensures ordered { (part : Region) (above : Pieced ℕ) (rows : Rows) (pre : List (List ℕ)) (limit : ℕ) → AreOrdered rows
        → IsStrictlySortedBy (slice_cmp nat_cmp) (take limit (chunk_keys part above rows pre)) }
    ensures inside { (part : Region) (above : Pieced ℕ) (rows : Rows) (pre : List (List ℕ)) (limit : ℕ)
        → AllByRecursion (λ key. has_key part above.hashes key ≡ true) pre
        → AllByRecursion (λ key. has_key part above.hashes key ≡ true) (take limit (chunk_keys part above rows pre)) }
    ensures within { (part : Region) (above : Pieced ℕ) (rows : Rows) (pre : List (List ℕ)) (limit : ℕ) → AreOrdered rows
        → AllByRecursion (λ key. has_key part above.hashes key ≡ true) pre
        → AllByRecursion (λ key. below key (end_of limit (chunk_keys part above rows pre) part.to) ≡ true) (take limit (chunk_keys part above rows pre)) }
{}
