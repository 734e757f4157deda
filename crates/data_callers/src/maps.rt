//! Region maps.
ghost use Rattle.std.specs.Prelude.{◌≡◌, ◌<◌, Some, None, IfOk, if◌then◌else◌};
ghost use Rattle.region_map.specs.Keys.{hash_of};
ghost use Rattle.region_map.specs.Regions.{in_region};
ghost use Rattle.region_map.specs.Maps.{value_at};
ghost use Rattle.region_map.specs.Calls.{paired};

use memory::OutOfMemory;
use region_map::{Key, Region, RegionMap};
use std::alloc::Global;

/// A map of one value has it at the keys of its domain, whatever their hash, and none elsewhere.
pub fn value_of_constant(
    alloc: Global,
    domain: Region,
    hashes: u8,
    value: u64,
    key: &Key,
) -> Result<Option<u64>, OutOfMemory>
    requires { 0 < hashes }
    ensures { IfOk result (λ found. found ≡ (if in_region domain (hash_of key.now hashes) key.now then Some value else None)) }
{
    let map = RegionMap::constant(alloc, domain, hashes, value)?;
    Ok(map.get(key).copied())
}

/// Where two maps meet, each pair has the values that both have at that very pair.
pub fn met_at(
    alloc: Global,
    first: &RegionMap<u64>,
    second: &RegionMap<u64>,
    hash: u8,
    key: &Key,
) -> Result<Option<(u64, u64)>, OutOfMemory>
    requires { first.now.hashes ≡ second.now.hashes }
    ensures { IfOk result (λ found. found ≡ paired (value_at first.now.pieces hash key.now) (value_at second.now.pieces hash key.now)) }
{
    let both = first.meet(alloc, second)?;
    Ok(both.get_at(hash, key).copied())
}
