//! What follows from the calls of a store, whichever way it is kept.
ghost use Rattle.std.specs.Prelude.{◌≡◌, ◌<◌, ◌≤◌, ◌&&◌, ℕ, List, Option, Some, None, take, length, if◌then◌else◌};
ghost use Rattle.std.specs.List.{list_any};
ghost use Rattle.std.specs.List.Sorted.{IsStrictlySortedBy};
ghost use Rattle.std.specs.Ordering.{nat_cmp};
ghost use Rattle.std.specs.Cmp.Lexicographic.{slice_cmp};
ghost use Rattle.region_map.specs.declared.id.Id.{Id};
ghost use Rattle.region_map.specs.declared.region.Region.{Region};
ghost use Rattle.region_map.specs.Maps.{Pieced, value_at};
ghost use Rattle.branch_history.specs.declared.version.Version.{Version};
ghost use Rattle.branch_history.specs.Paths.{zero};
ghost use Rattle.store_api.specs.declared.Item.{Item};
ghost use Rattle.store_api.specs.Rows.{Rows, AreOrdered, row_of, is_same_key, last_row, with_item, with_items, has_key, rows_outside, newer_keys, key_is_newer};
ghost use Rattle.store_api.specs.Versions.{comes_to, advanced, replaced, advanced_rows, advanced_map, replaced_map, zero_map};
ghost use Rattle.store_api.specs.Calls.{IsAdvanced, HasValues};

use crate::{Item, Store};
use region_map::{Id, Key, Region, RegionMap};

/// The row of each key after the calls that change rows: an effect gives its key its row exactly where the
/// version of the key moved; of the items of a replaced range the last one of a key counts; an erased part has
/// no row. Every other key keeps its row.
pub fn rows_at_each_key()
    ensures advance { (part : Region) (branch : Id) (at : ℕ) (versions : Pieced Version) (rows : Rows) (effect : Item) (key : List ℕ) → AreOrdered rows
        → row_of (advanced_rows (Some effect) part branch at versions rows) key
        ≡ (if comes_to part branch at versions effect.key && is_same_key effect.key key then effect.row else row_of rows key) }
    ensures replace_range { (rows : Rows) (items : List Item) (key : List ℕ) → AreOrdered rows
        → row_of (with_items rows items) key ≡ last_row items key (row_of rows key) }
    ensures erase_range { (part : Region) (hashes : ℕ) (rows : Rows) (key : List ℕ)
        → row_of (rows_outside part hashes rows) key ≡ (if has_key part hashes key then None else row_of rows key) }
{}

/// The version of each pair in the maps of the calls that change versions, and in the one that a store begins
/// with. Pairs whose hash is none of the map's have no version.
pub fn versions_at_each_pair()
    ensures advance { (part : Region) (branch : Id) (at : ℕ) (versions : Pieced Version) → 0 < versions.hashes
        → HasValues versions.hashes (λ h k. advanced part branch at h k (value_at versions.pieces h k)) (advanced_map part branch at versions) }
    ensures replace { (part : Region) (new : Version) (versions : Pieced Version) → 0 < versions.hashes
        → HasValues versions.hashes (λ h k. replaced part new h k (value_at versions.pieces h k)) (replaced_map part new versions) }
    ensures begin { (hashes : ℕ) → 0 < hashes → HasValues hashes (λ h k. Some zero) (zero_map hashes) }
{}

/// To advance with an effect is to advance without it, and then to give the effect's key its row exactly where
/// its version was moved.
pub fn effects_come_last<T: Store>(
    old: &T,
    without: &T,
    with: &T,
    part: &Region,
    branch: Id,
    at: u64,
    effect: &Item,
)
    requires without { IsAdvanced part.now branch at None (T.rows old.now) (T.versions old.now) (T.rows without.now) (T.versions without.now) }
    requires with { IsAdvanced part.now branch at (Some effect.now) (T.rows old.now) (T.versions old.now) (T.rows with.now) (T.versions with.now) }
    ensures versions { T.versions with.now ≡ T.versions without.now }
    ensures rows { T.rows with.now
        ≡ (if comes_to part.now branch at (T.versions old.now) effect.now.key then with_item (T.rows without.now) effect.now else T.rows without.now) }
{
    let _hashes = without.hashes();
    let _same = with.hashes();
}

/// A scan without limit finds each key of the part once whose row has a recency above the key's bound, and no
/// other, in the order of the keys.
pub fn scans_find_what_is_newer()
    ensures found { (part : Region) (above : Pieced ℕ) (rows : Rows) (key : List ℕ) → AreOrdered rows
        → list_any (is_same_key key) (newer_keys part above rows) ≡ key_is_newer part above rows key }
    ensures ordered { (part : Region) (above : Pieced ℕ) (rows : Rows) → AreOrdered rows
        → IsStrictlySortedBy (slice_cmp nat_cmp) (newer_keys part above rows) }
{}

/// A scan with a limit is the front of each scan with a greater one, and all of it where it found fewer keys
/// than the limit.
pub fn scans_are_fronts<T: Store>(
    store: &T,
    part: &Region,
    above: &RegionMap<u64>,
    limit: usize,
    more: usize,
    short: &[Key],
    long: &[Key],
)
    requires limits { limit ≤ more }
    requires short { short.now ≡ take limit (newer_keys part.now above.now (T.rows store.now)) }
    requires long { long.now ≡ take more (newer_keys part.now above.now (T.rows store.now)) }
    ensures front { short.now ≡ take limit long.now }
    ensures all { length short.now < limit → short.now ≡ long.now }
{}

/// A store is its row at each key and its version at each pair of a hash and a byte list: two that are alike
/// there have the same rows and the same versions, also where they are kept in two ways.
pub fn stores_are_maps<T: Store, U: Store>(a: &T, b: &U)
    requires rows { (key : List ℕ) → row_of (T.rows a.now) key ≡ row_of (U.rows b.now) key }
    requires hashes { (T.versions a.now).hashes ≡ (U.versions b.now).hashes }
    requires versions { (h : ℕ) (k : List ℕ) → value_at (T.versions a.now).pieces h k ≡ value_at (U.versions b.now).pieces h k }
    ensures rows { T.rows a.now ≡ U.rows b.now }
    ensures versions { T.versions a.now ≡ U.versions b.now }
{
    let _first = a.hashes();
    let _second = b.hashes();
}
