//! What stands in a region.
ghost use Rattle.std.specs.Prelude.{◌≡◌};
ghost use Rattle.region_map.specs.declared.region.Region.{Region};

use region_map::Region;

/// What has a region: a region itself, a shard, a contract.
pub trait Placed {
    ghost place: { Self → Region };

    /// Its region.
    fn region(&self) -> &Region
        ensures { result.now ≡ place self.now };
}

impl Placed for Region {
    ghost place = { λ r. r };

    fn region(&self) -> &Region {
        self
    }
}
