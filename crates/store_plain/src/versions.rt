//! The versions of a plain store.
ghost use Rattle.std.specs.Prelude.{◌≡◌, ℕ, ◌<◌, List, Some, IfOk, OnOk};
ghost use Rattle.region_map.specs.Maps.{value_at};
ghost use Rattle.branch_history.specs.Paths.{zero};
ghost use Rattle.store_api.specs.Versions.{IsWhole, is_behind, advanced, replaced, comes_to, version_of, advanced_map, replaced_map, zero_map};

use branch_history::Version;
use memory::OutOfMemory;
use region_map::{Combine, Id, Key, Region, RegionMap, hash_of};
use std::alloc::Global;

/// The zero version at each pair.
pub fn beginning(alloc: Global, hashes: u8) -> Result<RegionMap<Version>, OutOfMemory>
    requires { 0 < hashes }
    ensures hashes { IfOk result (λ m. m.hashes ≡ hashes) }
    ensures at { IfOk result (λ m. (h : ℕ) (k : List ℕ) → h < hashes → value_at m.pieces h k ≡ Some zero) }
    ensures made { IfOk result (λ m. m ≡ zero_map hashes) }
    ensures whole { IfOk result IsWhole }
{
    let part = Region {
        hash_from: 0,
        hash_to: hashes,
        from: None,
        to: None,
    };
    let versions = RegionMap::constant(alloc, part, hashes, Version::zero())?;
    Ok(versions)
}

/// Moves the versions behind a point of a branch to this point.
#[derive(Clone, Copy)]
struct Advance {
    branch: Id,
    at: u64,
}

impl Advance {
    /// Whether a version is one of the branch, with a lesser timestamp.
    fn is_behind(&self, version: &Version) -> bool
        ensures { result ≡ is_behind self.now.branch self.now.at (Some version.now) }
    {
        version.is_of(&self.branch) && version.timestamp < self.at
    }
}

impl Combine<Version, bool, Version> for Advance {
    ghost use Rattle.store_plain.specs.Advances.{advanced_in};

    ghost combined = { λ to version inside. advanced_in to.branch to.at version inside };

    fn combine(
        &self,
        _alloc: Global,
        version: Option<&Version>,
        inside: Option<&bool>,
    ) -> Result<Option<Version>, OutOfMemory> {
        match version {
            None => Ok(None),
            Some(version) => match inside {
                None => Ok(Some(*version)),
                Some(_) => {
                    if self.is_behind(version) {
                        Ok(Some(Version {
                            branch: Some(self.branch),
                            timestamp: self.at,
                        }))
                    } else {
                        Ok(Some(*version))
                    }
                }
            },
        }
    }
}

/// The versions, after those of a part that are behind a point of the branch came to it.
pub fn advanced(
    alloc: Global,
    versions: &RegionMap<Version>,
    part: &Region,
    branch: Id,
    at: u64,
) -> Result<RegionMap<Version>, OutOfMemory>
    requires { IsWhole versions.now }
    ensures hashes { IfOk result (λ m. m.hashes ≡ versions.now.hashes) }
    ensures at { IfOk result (λ m. (h : ℕ) (k : List ℕ) → value_at m.pieces h k
        ≡ advanced part.now branch at h k (value_at versions.now.pieces h k)) }
    ensures made { IfOk result (λ m. m ≡ advanced_map part.now branch at versions.now) }
    ensures whole { IfOk result IsWhole }
{
    let inside = RegionMap::constant(alloc, part.copy(alloc)?, versions.hashes(), true)?;
    let new = versions.zip(alloc, &inside, &Advance { branch, at })?;
    Ok(new)
}

/// Gives the pairs of a part this version.
pub fn replace(
    alloc: Global,
    versions: &mut RegionMap<Version>,
    part: &Region,
    version: Version,
) -> Result<(), OutOfMemory>
    requires { IsWhole versions.old }
    ensures hashes { versions.new.hashes ≡ versions.old.hashes }
    ensures at { OnOk result ((h : ℕ) (k : List ℕ) → value_at versions.new.pieces h k
        ≡ replaced part.now version h k (value_at versions.old.pieces h k)) }
    ensures made { OnOk result (versions.new ≡ replaced_map part.now version versions.old) }
    ensures whole { IsWhole versions.new }
{
    versions.set(alloc, part, version)?;
    Ok(())
}

/// Whether the version of a key comes to a point of the branch, as those of a part do.
pub fn comes_to(
    versions: &RegionMap<Version>,
    part: &Region,
    branch: Id,
    at: u64,
    key: &Key,
) -> bool
    ensures { result ≡ comes_to part.now branch at versions.now key.now }
{
    match versions.get(key) {
        None => false,
        Some(version) => {
            let to = Advance { branch, at };
            part.contains(key, versions.hashes()) && to.is_behind(version)
        }
    }
}

/// The version of a key.
pub fn version_of(versions: &RegionMap<Version>, key: &Key) -> Version
    requires { IsWhole versions.now }
    ensures { version_of versions.now key.now ≡ Some result }
{
    let hash = hash_of(key, versions.hashes());
    match versions.get_at(hash, key) {
        // No key has none.
        None => Version::zero(),
        Some(version) => *version,
    }
}
