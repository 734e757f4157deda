//! What a node stores of the table: rows by key, and how far each part of the keys came.
//!
//! Above: the stores, the executors and the nodes. Below: `region_map`, `branch_history`, `register_laws`.
//! Promise: each call of `Store` says the whole map of rows and the whole map of versions, before and after.
#![tactic(auto)]

ghost use Rattle.std.specs.Prelude.{◌≡◌, IfOk};

pub use laws::{
    effects_come_last, rows_at_each_key, scans_are_fronts, scans_find_what_is_newer,
    stores_are_maps, versions_at_each_pair,
};
use memory::OutOfMemory;
use region_map::Key;
use register_laws::{Value, copy_value};
use std::alloc::Global;
pub use store::Store;

pub mod laws;
pub mod store;

/// What a node stores of a key that was written: its value, or none where it was deleted, and its recency,
/// the timestamp of the operation that wrote it last.
#[derive(Debug, Drop)]
pub struct Row {
    pub value: Option<Value>,
    pub recency: u64,
}

impl Row {
    /// The same row again.
    pub fn copy(&self, alloc: Global) -> Result<Row, OutOfMemory>
        ensures { IfOk result (λ row. row ≡ self.now) }
    {
        let value = copy_value(alloc, &self.value)?;
        Ok(Row {
            value,
            recency: self.recency,
        })
    }
}

/// A key with the row that it is to have, or none where it is to lose the one that it has.
///
/// A deleted key has a row without value; a key without row was never written, or is not kept here.
#[derive(Debug, Drop)]
pub struct Item {
    pub key: Key,
    pub row: Option<Row>,
}

impl Item {
    /// The same item again.
    pub fn copy(&self, alloc: Global) -> Result<Item, OutOfMemory>
        ensures { IfOk result (λ item. item ≡ self.now) }
    {
        let key = self.key.copy(alloc)?;
        let row = match &self.row {
            None => None,
            Some(row) => Some(row.copy(alloc)?),
        };
        Ok(Item { key, row })
    }
}
