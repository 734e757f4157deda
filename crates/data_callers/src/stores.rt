//! Stores, through the bound `Store`.
ghost use Rattle.std.specs.Prelude.{◌≡◌, ◌<◌, ◌≤◌, ℕ, List, true, false, None, IsSome, IfOk, OnOk, if◌then◌else◌};
ghost use Rattle.std.specs.List.{All};
ghost use Rattle.std.specs.Option.{is_some};
ghost use Rattle.region_map.specs.Maps.{value_at};
ghost use Rattle.region_map.specs.Regions.{in_region};
ghost use Rattle.branch_history.specs.Paths.{zero};
ghost use Rattle.store_api.specs.Rows.{has_key, last_row, row_of};
ghost use Rattle.store_api.specs.Versions.{is_behind};

use branch_history::Version;
use memory::OutOfMemory;
use region_map::{Id, Key, Region, RegionMap};
use std::alloc::Global;
use store_api::{Item, Store, rows_at_each_key};
use store_plain::PlainStore;

/// Each key of a new store is at the zero version, whatever its hash.
pub fn first_version(alloc: Global, hashes: u8, key: &Key) -> Result<Version, OutOfMemory>
    requires { 0 < hashes }
    ensures { IfOk result (λ version. version ≡ zero) }
{
    let store = PlainStore::new(alloc, hashes)?;
    Ok(store.version(key))
}

/// The versions of a part have none outside of it.
pub fn version_outside<T: Store>(
    alloc: Global,
    store: &T,
    part: &Region,
    hash: u8,
    key: &Key,
) -> Result<Option<Version>, OutOfMemory>
    requires { in_region part.now hash key.now ≡ false }
    ensures { IfOk result (λ version. version ≡ None) }
{
    let versions = store.versions(alloc, part)?;
    Ok(versions.get_at(hash, key).copied())
}

/// What is not behind the point of the branch stays where it is: what is at its timestamp or above, and what is on
/// another branch.
pub fn advance_elsewhere<T: Store>(
    alloc: Global,
    store: &mut T,
    part: &Region,
    branch: Id,
    at: u64,
    hash: u8,
    key: &Key,
) -> Result<(), OutOfMemory>
    requires { is_behind branch at (value_at (T.versions store.old).pieces hash key.now) ≡ false }
    ensures { OnOk result (value_at (T.versions store.new).pieces hash key.now ≡ value_at (T.versions store.old).pieces hash key.now) }
{
    store.advance(alloc, part, branch, at, None)
}

/// A part that goes on in another branch keeps its rows.
pub fn start_with_rows<T: Store>(
    alloc: Global,
    store: &mut T,
    part: &Region,
    branch: Id,
    key: &Key,
) -> Result<(), OutOfMemory>
    ensures { OnOk result (row_of (T.rows store.new) key.now ≡ row_of (T.rows store.old) key.now) }
{
    store.start_branch(alloc, part, branch, 0)
}

/// A scan finds no more keys than its limit.
pub fn count_found<T: Store>(
    alloc: Global,
    store: &T,
    part: &Region,
    above: &RegionMap<u64>,
    limit: usize,
) -> Result<usize, OutOfMemory>
    requires hashes { above.now.hashes ≡ (T.versions store.now).hashes }
    requires domain { (h : ℕ) (k : List ℕ) → h < above.now.hashes → in_region part.now h k ≡ true
        → IsSome (value_at above.now.pieces h k) }
    ensures { IfOk result (λ count. count ≤ limit) }
{
    let keys = store.scan(alloc, part, above, limit)?;
    Ok(keys.len())
}

/// A key has a row behind a replaced range where its last item has one, and a key without item where it had one.
pub fn has_row_behind<T: Store>(
    alloc: Global,
    store: &mut T,
    part: &Region,
    items: &[Item],
    key: &Key,
) -> Result<bool, OutOfMemory>
    requires { All (λ item. has_key part.now (T.versions store.old).hashes item.key ≡ true) items.now }
    ensures { IfOk result (λ found. found ≡ is_some (last_row items.now key.now (row_of (T.rows store.old) key.now))) }
{
    rows_at_each_key();
    let _hashes = store.hashes();
    store.replace_range(alloc, part, items, &Version::zero())?;
    Ok(store.get(key).is_some())
}
