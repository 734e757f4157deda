//! Rows in an ordered map.
ghost use Rattle.std.specs.Prelude.{◌≡◌, ◌<◌, [], ◌∷◌, ◌++◌, take, IfOk, OnOk, OnErr, option_copied};
ghost use Rattle.store_api.specs.Rows.{AreOrdered, row_of, with_row, without_row, with_item, with_items, rows_outside, is_newer, newer_keys};

use memory::OutOfMemory;
use region_map::{Key, Region, RegionMap};
use std::alloc::Global;
use std::collections::BTreeMap;
use std::marker::Model;
use store_api::{Item, Row};

/// The rows of a node, seen as the list of keys and rows in the order of the keys.
#[derive(Drop)]
pub struct PlainRows {
    rows: BTreeMap<Key, Row>,
}

impl Model for PlainRows {
    ghost use Rattle.store_api.specs.Rows.{Rows};

    ghost Value = { Rows };

    ghost view = { λ a. a.rows.entries };
}

impl PlainRows {
    /// No rows.
    pub fn new(alloc: Global) -> PlainRows
        ensures { result ≡ [] }
    {
        PlainRows {
            rows: BTreeMap::new(alloc),
        }
    }

    /// That each key has one row at most.
    pub fn are_ordered(&self)
        ensures { AreOrdered self.now }
    {
        let _rows = self.rows.len();
    }

    /// The row of a key, where it has one.
    pub fn get(&self, key: &Key) -> Option<&Row>
        ensures { option_copied result ≡ row_of self.now key.now }
    {
        self.rows.get(key)
    }

    /// Gives the key this row in place of the one that it had, if any.
    pub fn put(&mut self, key: Key, row: Row) -> Result<(), OutOfMemory>
        ensures ok { OnOk result (self.new ≡ with_row self.old key row) }
        ensures err { OnErr result (self.new ≡ self.old) }
    {
        self.rows.insert(key, row)?;
        Ok(())
    }

    /// Takes the row that the key has, if any.
    pub fn remove(&mut self, key: &Key)
        ensures { self.new ≡ without_row self.old key.now }
    {
        self.rows.remove(key);
    }

    /// Gives the item's key the item's row, or takes the one that it has.
    pub fn put_item(&mut self, item: Item) -> Result<(), OutOfMemory>
        ensures ok { OnOk result (self.new ≡ with_item self.old item) }
        ensures err { OnErr result (self.new ≡ self.old) }
    {
        let Item { key, row } = item;
        match row {
            None => {
                self.remove(&key);
                Ok(())
            }
            Some(row) => {
                self.put(key, row)?;
                Ok(())
            }
        }
    }

    /// Puts the items in their order.
    pub fn put_items(&mut self, alloc: Global, items: &[Item]) -> Result<(), OutOfMemory>
        ensures { OnOk result (self.new ≡ with_items self.old items.now) }
    {
        for item in items {
            self.put_item(item.copy(alloc)?)?;
        }
        Ok(())
    }

    /// Takes the rows of a part, where there are so many hashes.
    pub fn erase(&mut self, part: &Region, hashes: u8)
        requires { 0 < hashes }
        ensures { self.new ≡ rows_outside part.now hashes self.old }
    {
        self.rows.retain(|key, _row| !part.contains(key, hashes));
    }

    /// The first so many keys of a part whose recency lies above the bound that the map gives them.
    pub fn newer_keys(
        &self,
        alloc: Global,
        part: &Region,
        above: &RegionMap<u64>,
        limit: usize,
    ) -> Result<Vec<Key>, OutOfMemory>
        ensures { IfOk result (λ keys. keys.items ≡ take limit (newer_keys part.now above.now self.now)) }
    {
        let mut keys = Vec::new(alloc);
        for (key, row) in self.rows.iter() {
            if keys.len() >= limit {
                return Ok(keys);
            }
            push_newer(alloc, &mut keys, part, above, key, row)?;
        }
        Ok(keys)
    }
}

/// Puts the key behind the others, if it lies in the part and its row's recency above its bound.
fn push_newer(
    alloc: Global,
    keys: &mut Vec<Key>,
    part: &Region,
    above: &RegionMap<u64>,
    key: &Key,
    row: &Row,
) -> Result<(), OutOfMemory>
    ensures { OnOk result (keys.new.items ≡ keys.old.items ++ newer_keys part.now above.now ((key.now, row.now) ∷ [])) }
{
    if is_newer(part, above, key, row) {
        keys.push(key.copy(alloc)?)?;
    }
    Ok(())
}

/// Whether a key lies in the part, and the recency of its row above the bound that the map gives it.
fn is_newer(part: &Region, above: &RegionMap<u64>, key: &Key, row: &Row) -> bool
    ensures { result ≡ is_newer part.now above.now (key.now, row.now) }
{
    match above.get(key) {
        None => false,
        Some(bound) => part.contains(key, above.hashes()) && *bound < row.recency,
    }
}
