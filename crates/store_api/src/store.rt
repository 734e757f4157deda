//! The contract of a store.
ghost use Rattle.std.specs.Prelude.{◌≡◌, ℕ, ◌<◌, true, List, Some, None, take, IsSome, IfOk, OnOk, if◌then◌else◌};
ghost use Rattle.std.specs.List.{All};
ghost use Rattle.std.specs.Option.{option_copied};
ghost use Rattle.branch_history.specs.Equal.{same_version};
ghost use Rattle.region_map.specs.Made.{mask_map};
ghost use Rattle.region_map.specs.Regions.{in_region};
ghost use Rattle.region_map.specs.Maps.{Pieced, value_at};
ghost use Rattle.branch_history.specs.declared.version.Version.{Version};
ghost use Rattle.branch_history.specs.Paths.{zero};
ghost use Rattle.store_api.specs.Rows.{Rows, row_of, has_key, with_items, rows_outside, newer_keys};
ghost use Rattle.store_api.specs.Versions.{IsStored, point, advanced, replaced, version_of, advanced_rows, advanced_map, replaced_map};

use crate::{Item, Row};
use branch_history::Version;
use memory::OutOfMemory;
use region_map::{Id, Key, Region, RegionMap};
use std::alloc::Global;

/// A store: one finite map from keys to rows, and one region map of versions over all keys, whichever way the
/// two are kept.
///
/// Each call that changes a store says its whole map of rows and its whole map of versions afterwards. After
/// want of memory a store may have changed, and its owner drops it.
pub trait Store: Drop + Sized {
    ghost rows: { Self → Rows };

    ghost versions: { Self → Pieced Version };

    /// The number of hashes that the versions have. Each store is sound: a key has one row at most, and each
    /// pair of a hash and a byte list one version.
    fn hashes(&self) -> u8
        ensures value { result ≡ (versions self.now).hashes }
        ensures sound { IsStored (rows self.now) (versions self.now) };

    /// The row of a key, where it has one.
    fn get(&self, key: &Key) -> Option<&Row>
        ensures { option_copied result ≡ row_of (rows self.now) key.now };

    /// The version of a key.
    fn version(&self, key: &Key) -> Version
        ensures { version_of (versions self.now) key.now ≡ Some result };

    /// The versions of a part.
    fn versions(&self, alloc: Global, part: &Region) -> Result<RegionMap<Version>, OutOfMemory>
        ensures hashes { IfOk result (λ m. m.hashes ≡ (versions self.now).hashes) }
        ensures at { IfOk result (λ m. (h : ℕ) (k : List ℕ) → value_at m.pieces h k
            ≡ (if in_region part.now h k then value_at (versions self.now).pieces h k else None)) }
        ensures made { IfOk result (λ m. m ≡ mask_map same_version part.now (versions self.now)) };

    /// Moves the pieces of a part that stand at a lesser timestamp of the branch on to this one. Where the
    /// effect's key lies in such a piece, it gets the effect's row, or loses the one that it has.
    ///
    /// A piece on another branch, or at this timestamp or a greater one, stays: what stands there has seen the
    /// effect already, or never will.
    fn advance(
        &mut self,
        alloc: Global,
        part: &Region,
        branch: Id,
        at: u64,
        effect: Option<Item>,
    ) -> Result<(), OutOfMemory>
        ensures rows { OnOk result (rows self.new ≡ advanced_rows effect part.now branch at (versions self.old) (rows self.old)) }
        ensures hashes { OnOk result ((versions self.new).hashes ≡ (versions self.old).hashes) }
        ensures versions { OnOk result ((h : ℕ) (k : List ℕ) → value_at (versions self.new).pieces h k
            ≡ advanced part.now branch at h k (value_at (versions self.old).pieces h k)) }
        ensures made { OnOk result (versions self.new ≡ advanced_map part.now branch at (versions self.old)) };

    /// Lets a part go on from its rows in a branch that begins at this timestamp.
    fn start_branch(
        &mut self,
        alloc: Global,
        part: &Region,
        branch: Id,
        initial: u64,
    ) -> Result<(), OutOfMemory>
        ensures rows { OnOk result (rows self.new ≡ rows self.old) }
        ensures hashes { OnOk result ((versions self.new).hashes ≡ (versions self.old).hashes) }
        ensures versions { OnOk result ((h : ℕ) (k : List ℕ) → value_at (versions self.new).pieces h k
            ≡ replaced part.now (point branch initial) h k (value_at (versions self.old).pieces h k)) }
        ensures made { OnOk result (versions self.new ≡ replaced_map part.now (point branch initial) (versions self.old)) };

    /// The first so many keys of a part, in the order of the keys, whose recency lies above the bound that the
    /// map gives them.
    fn scan(
        &self,
        alloc: Global,
        part: &Region,
        above: &RegionMap<u64>,
        limit: usize,
    ) -> Result<Vec<Key>, OutOfMemory>
        requires hashes { above.now.hashes ≡ (versions self.now).hashes }
        requires domain { (h : ℕ) (k : List ℕ) → h < above.now.hashes → in_region part.now h k ≡ true
            → IsSome (value_at above.now.pieces h k) }
        ensures { IfOk result (λ keys. keys.items ≡ take limit (newer_keys part.now above.now (rows self.now))) };

    /// Gives the keys of the items their rows, or takes those that they have, item by item, and gives the part
    /// this version.
    fn replace_range(
        &mut self,
        alloc: Global,
        part: &Region,
        items: &[Item],
        version: &Version,
    ) -> Result<(), OutOfMemory>
        requires { All (λ item. has_key part.now (versions self.old).hashes item.key ≡ true) items.now }
        ensures rows { OnOk result (rows self.new ≡ with_items (rows self.old) items.now) }
        ensures hashes { OnOk result ((versions self.new).hashes ≡ (versions self.old).hashes) }
        ensures versions { OnOk result ((h : ℕ) (k : List ℕ) → value_at (versions self.new).pieces h k
            ≡ replaced part.now version.now h k (value_at (versions self.old).pieces h k)) }
        ensures made { OnOk result (versions self.new ≡ replaced_map part.now version.now (versions self.old)) };

    /// Takes all rows of a part, which is at the zero version then.
    fn erase_range(&mut self, alloc: Global, part: &Region) -> Result<(), OutOfMemory>
        ensures rows { OnOk result (rows self.new ≡ rows_outside part.now (versions self.old).hashes (rows self.old)) }
        ensures hashes { OnOk result ((versions self.new).hashes ≡ (versions self.old).hashes) }
        ensures versions { OnOk result ((h : ℕ) (k : List ℕ) → value_at (versions self.new).pieces h k
            ≡ replaced part.now zero h k (value_at (versions self.old).pieces h k)) }
        ensures made { OnOk result (versions self.new ≡ replaced_map part.now zero (versions self.old)) };
}
