//! What a receiver has that its sender may lack.
ghost use Rattle.std.specs.Prelude.{◌≡◌, ℕ, ◌+◌, ◌<◌, ◌≤◌, true, List, take, length, IsSome, IfOk, OnOk};
ghost use Rattle.region_map.specs.Regions.{in_region};
ghost use Rattle.region_map.specs.Maps.{value_at};
ghost use Rattle.store_api.specs.Rows.{newer_keys};
ghost use Rattle.backfill_items.specs.Changed.{end_of};

use memory::OutOfMemory;
use region_map::bound::copy_bound;
use region_map::{Key, Region, RegionMap};
use std::alloc::Global;
use store_api::Store;

/// Keys in their order, and where they end: the next such key, or the upper end of the part.
#[derive(Debug, Drop)]
pub struct PreItems {
    pub keys: Vec<Key>,
    pub upto: Option<Key>,
}

/// The first keys of a part whose rows are newer than the ancestors' timestamps.
pub fn pre_items<T: Store>(
    alloc: Global,
    store: &T,
    ancestors: &RegionMap<u64>,
    part: &Region,
    limit: usize,
) -> Result<PreItems, OutOfMemory>
    requires hashes { ancestors.now.hashes ≡ (T.versions store.now).hashes }
    requires domain { (h : ℕ) (k : List ℕ) → h < ancestors.now.hashes → in_region part.now h k ≡ true
        → IsSome (value_at ancestors.now.pieces h k) }
    requires limit { limit < usize.MAX }
    ensures keys { IfOk result (λ pre. pre.keys.items ≡ take limit (newer_keys part.now ancestors.now (T.rows store.now))) }
    ensures upto { IfOk result (λ pre. pre.upto ≡ end_of limit (newer_keys part.now ancestors.now (T.rows store.now)) part.now.to) }
{
    let mut keys = store.scan(alloc, part, ancestors, limit + 1)?;
    let upto = cut(alloc, &mut keys, limit, &part.to)?;
    Ok(PreItems { keys, upto })
}

/// Cuts keys after so many. It answers where they end then: at the one left out, or at this upper end.
fn cut(
    alloc: Global,
    keys: &mut Vec<Key>,
    limit: usize,
    to: &Option<Key>,
) -> Result<Option<Key>, OutOfMemory>
    requires { length keys.old.items ≤ limit + 1 }
    ensures keys { OnOk result (keys.new.items ≡ take limit keys.old.items) }
    ensures end { IfOk result (λ end. end ≡ end_of limit keys.old.items to.now) }
{
    if keys.len() <= limit {
        let end = copy_bound(alloc, to)?;
        return Ok(end);
    }
    Ok(keys.pop())
}
