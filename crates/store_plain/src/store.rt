//! The plain store.
ghost use Rattle.std.specs.Prelude.{◌≡◌, ℕ, ◌<◌, List, [], Some, IfOk};
ghost use Rattle.region_map.specs.Maps.{value_at};
ghost use Rattle.branch_history.specs.Paths.{zero};
ghost use Rattle.store_api.specs.Versions.{zero_map};

use crate::PlainRows;
use crate::versions::{advanced, beginning, comes_to, replace, version_of};
use branch_history::Version;
use memory::OutOfMemory;
use region_map::{Id, Key, Region, RegionMap};
use std::alloc::Global;
use std::marker::Model;
use store_api::{Item, Row, Store};

/// A store whose rows stand in one ordered map.
#[derive(Drop)]
pub struct PlainStore {
    rows: PlainRows,
    versions: RegionMap<Version>,
}

impl Model for PlainStore {
    ghost use Rattle.store_plain.specs.Stores.{Stored};
    ghost use Rattle.store_api.specs.Versions.{IsWhole};

    ghost Value = { Stored };

    ghost view = { λ a. record { rows = a.rows; versions = a.versions } };

    ghost invariant = { λ a. IsWhole a.versions };
}

impl PlainStore {
    /// No rows, and the zero version at each key.
    pub fn new(alloc: Global, hashes: u8) -> Result<PlainStore, OutOfMemory>
        requires { 0 < hashes }
        ensures rows { IfOk result (λ s. s.rows ≡ []) }
        ensures hashes { IfOk result (λ s. s.versions.hashes ≡ hashes) }
        ensures at { IfOk result (λ s. (h : ℕ) (k : List ℕ) → h < hashes → value_at s.versions.pieces h k ≡ Some zero) }
        ensures versions { IfOk result (λ s. s.versions ≡ zero_map hashes) }
    {
        let versions = beginning(alloc, hashes)?;
        let rows = PlainRows::new(alloc);
        Ok(PlainStore { rows, versions })
    }
}

impl Store for PlainStore {
    ghost rows = { λ s. s.rows };

    ghost versions = { λ s. s.versions };

    fn hashes(&self) -> u8 {
        self.rows.are_ordered();
        self.versions.hashes()
    }

    fn get(&self, key: &Key) -> Option<&Row> {
        self.rows.get(key)
    }

    fn version(&self, key: &Key) -> Version {
        version_of(&self.versions, key)
    }

    fn versions(&self, alloc: Global, part: &Region) -> Result<RegionMap<Version>, OutOfMemory> {
        let versions = self.versions.mask(alloc, part)?;
        Ok(versions)
    }

    fn advance(
        &mut self,
        alloc: Global,
        part: &Region,
        branch: Id,
        at: u64,
        effect: Option<Item>,
    ) -> Result<(), OutOfMemory> {
        let versions = advanced(alloc, &self.versions, part, branch, at)?;
        match effect {
            None => {}
            Some(effect) => {
                if comes_to(&self.versions, part, branch, at, &effect.key) {
                    self.rows.put_item(effect)?;
                }
            }
        }
        self.versions = versions;
        Ok(())
    }

    fn start_branch(
        &mut self,
        alloc: Global,
        part: &Region,
        branch: Id,
        initial: u64,
    ) -> Result<(), OutOfMemory> {
        let first = Version {
            branch: Some(branch),
            timestamp: initial,
        };
        replace(alloc, &mut self.versions, part, first)?;
        Ok(())
    }

    fn scan(
        &self,
        alloc: Global,
        part: &Region,
        above: &RegionMap<u64>,
        limit: usize,
    ) -> Result<Vec<Key>, OutOfMemory> {
        let keys = self.rows.newer_keys(alloc, part, above, limit)?;
        Ok(keys)
    }

    fn replace_range(
        &mut self,
        alloc: Global,
        part: &Region,
        items: &[Item],
        version: &Version,
    ) -> Result<(), OutOfMemory> {
        replace(alloc, &mut self.versions, part, *version)?;
        self.rows.put_items(alloc, items)?;
        Ok(())
    }

    fn erase_range(&mut self, alloc: Global, part: &Region) -> Result<(), OutOfMemory> {
        replace(alloc, &mut self.versions, part, Version::zero())?;
        self.rows.erase(part, self.versions.hashes());
        Ok(())
    }
}
