//! Regions: a part of all keys, cut by hash and by key.
ghost use Rattle.std.specs.Prelude.{◌≡◌, ◌<◌, IfOk};
ghost use Rattle.region_map.specs.Keys.{hash_of};
ghost use Rattle.region_map.specs.Regions.{in_region};
ghost use Rattle.region_map.specs.Lookups.{begins_by};

use crate::bound::{copy_bound, is_begun, is_in_range};
use crate::{Key, hash_of};
use memory::OutOfMemory;
use std::alloc::Global;

/// The keys whose hash lies from `hash_from` up to but without `hash_to`, and that lie from `from` up to but
/// without `to` in the order of their bytes. An absent `from` means from the least key, an absent `to` means
/// without end.
#[derive(Debug, Drop)]
pub struct Region {
    pub hash_from: u8,
    pub hash_to: u8,
    pub from: Option<Key>,
    pub to: Option<Key>,
}

impl Region {
    /// Whether the region has the key, where there are so many hashes.
    pub fn contains(&self, key: &Key, hashes: u8) -> bool
        requires { 0 < hashes }
        ensures { result ≡ in_region self.now (hash_of key.now hashes) key.now }
    {
        self.contains_at(hash_of(key, hashes), key)
    }

    /// Whether the region has the key, whose hash this is.
    pub fn contains_at(&self, hash: u8, key: &Key) -> bool
        ensures { result ≡ in_region self.now hash key.now }
    {
        self.hash_from <= hash && hash < self.hash_to && is_in_range(&self.from, &self.to, key)
    }

    /// Whether the region begins no later than a key with this hash, in the order of hashes and then of keys.
    pub(crate) fn begins_by(&self, hash: u8, key: &Key) -> bool
        ensures { result ≡ begins_by self.now hash key.now }
    {
        self.hash_to <= hash || (self.hash_from <= hash && is_begun(&self.from, key))
    }

    /// The same region again.
    pub fn copy(&self, alloc: Global) -> Result<Region, OutOfMemory>
        ensures { IfOk result (λ region. region ≡ self.now) }
    {
        let from = copy_bound(alloc, &self.from)?;
        let to = copy_bound(alloc, &self.to)?;
        Ok(Region {
            hash_from: self.hash_from,
            hash_to: self.hash_to,
            from,
            to,
        })
    }
}
