//! Branches and paths.
ghost use Rattle.std.specs.Prelude.{◌≡◌, false, Some, IfOk, IsTrue, IsFalse};
ghost use Rattle.region_map.specs.Keys.{hash_of};
ghost use Rattle.region_map.specs.Maps.{value_at};
ghost use Rattle.region_map.specs.Regions.{in_region};
ghost use Rattle.branch_history.specs.Paths.{is_zero, ancestor, both_at};
ghost use Rattle.branch_history.specs.Histories.{birth_of, knows, HasHashes, hashes_of};

use branch_history::{BranchBirth, History, Version, paths_follow_births};
use memory::OutOfMemory;
use region_map::{Id, Key, RegionMap};
use std::alloc::Global;

/// A branch that is known is not added again.
pub fn is_added_again(history: &mut History, id: Id, birth: BranchBirth) -> bool
    requires hashes { HasHashes history.old birth.origin.hashes }
    requires known { IsTrue (knows history.old id) }
    ensures again { IsFalse result }
    ensures same { history.new ≡ history.old }
{
    history.add(id, birth).is_ok()
}

/// Outside of its region a branch has no path but the zero version.
pub fn has_outside(
    history: &History,
    id: Id,
    birth: &BranchBirth,
    timestamp: u64,
    key: &Key,
    point: &Version,
) -> bool
    requires birth { birth_of history.now id ≡ Some birth.now }
    requires outside { in_region birth.now.region (hash_of key.now (hashes_of history.now)) key.now ≡ false }
    ensures { result ≡ is_zero point.now }
{
    paths_follow_births();
    let end = Version {
        branch: Some(id),
        timestamp,
    };
    history.path_has(&end, key, point)
}

/// At each pair the common ancestor is the last point on both paths there.
pub fn ancestor_at(
    alloc: Global,
    history: &History,
    first: &RegionMap<Version>,
    second: &RegionMap<Version>,
    hash: u8,
    key: &Key,
) -> Result<Option<Version>, OutOfMemory>
    requires hashes { first.now.hashes ≡ second.now.hashes }
    requires history { HasHashes history.now first.now.hashes }
    ensures { IfOk result (λ found. found
        ≡ both_at (ancestor history.now hash key.now) (value_at first.now.pieces hash key.now) (value_at second.now.pieces hash key.now)) }
{
    let ancestors = history.common_ancestor(alloc, first, second)?;
    Ok(ancestors.get_at(hash, key).copied())
}
