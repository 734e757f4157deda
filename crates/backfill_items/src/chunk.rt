//! What a sender has for a receiver.
ghost use Rattle.std.specs.Prelude.{◌≡◌, ℕ, ◌<◌, true, List, take, map, IsSome, IfOk};
ghost use Rattle.region_map.specs.Regions.{in_region};
ghost use Rattle.region_map.specs.Maps.{value_at};
ghost use Rattle.store_api.specs.Rows.{row_of};
ghost use Rattle.backfill_items.specs.Changed.{chunk_keys, item_of, end_of};

use crate::key_set::{add_keys, set_of};
use memory::OutOfMemory;
use region_map::bound::copy_bound;
use region_map::{Key, Region, RegionMap};
use std::alloc::Global;
use std::collections::BTreeSet;
use store_api::{Item, Row, Store};

/// Keys in their order, each with the sender's row or none, and where they end: the next such key, or the upper end
/// of the part.
#[derive(Debug, Drop)]
pub struct ChunkItems {
    pub items: Vec<Item>,
    pub to: Option<Key>,
}

/// The first keys among those that the receiver named, in whatever order, and those of a part whose rows are newer
/// than the ancestors' timestamps.
pub fn items<T: Store>(
    alloc: Global,
    store: &T,
    ancestors: &RegionMap<u64>,
    pre: &[Key],
    part: &Region,
    limit: usize,
) -> Result<ChunkItems, OutOfMemory>
    requires hashes { ancestors.now.hashes ≡ (T.versions store.now).hashes }
    requires domain { (h : ℕ) (k : List ℕ) → h < ancestors.now.hashes → in_region part.now h k ≡ true
        → IsSome (value_at ancestors.now.pieces h k) }
    requires limit { limit < usize.MAX }
    ensures items { IfOk result (λ chunk. chunk.items.items
        ≡ map (item_of (T.rows store.now)) (take limit (chunk_keys part.now ancestors.now (T.rows store.now) pre.now))) }
    ensures to { IfOk result (λ chunk. chunk.to
        ≡ end_of limit (chunk_keys part.now ancestors.now (T.rows store.now) pre.now) part.now.to) }
{
    let _hashes = store.hashes();
    let found = store.scan(alloc, part, ancestors, limit + 1)?;
    let mut keys = set_of(alloc, found)?;
    add_keys(alloc, &mut keys, pre)?;
    first_items(alloc, store, keys, limit, &part.to)
}

/// The first keys of a set with their rows, and where they end.
fn first_items<T: Store>(
    alloc: Global,
    store: &T,
    keys: BTreeSet<Key>,
    limit: usize,
    to: &Option<Key>,
) -> Result<ChunkItems, OutOfMemory>
    ensures items { IfOk result (λ chunk. chunk.items.items ≡ map (item_of (T.rows store.now)) (take limit keys.keys)) }
    ensures to { IfOk result (λ chunk. chunk.to ≡ end_of limit keys.keys to.now) }
{
    let mut items = Vec::new(alloc);
    for key in keys {
        if items.len() >= limit {
            return Ok(ChunkItems {
                items,
                to: Some(key),
            });
        }
        let row = row_copy(alloc, store, &key)?;
        items.push(Item { key, row })?;
    }
    let to = copy_bound(alloc, to)?;
    Ok(ChunkItems { items, to })
}

/// The row of a key once more, where it has one.
fn row_copy<T: Store>(alloc: Global, store: &T, key: &Key) -> Result<Option<Row>, OutOfMemory>
    ensures { IfOk result (λ row. row ≡ row_of (T.rows store.now) key.now) }
{
    match store.get(key) {
        None => Ok(None),
        Some(row) => Ok(Some(row.copy(alloc)?)),
    }
}
