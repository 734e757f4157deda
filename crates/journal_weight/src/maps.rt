//! The weights of keys and values, and of regions and maps over them.
use crate::weigh::{Weigh, total};
use region_map::{Key, Region, RegionMap};
use register_laws::Value;

/// A key weighs its bytes.
impl Weigh for Key {
    ghost use Rattle.std.specs.Prelude.{length};

    ghost weight = { length };

    fn weigh(&self) -> u64 {
        self.as_bytes().len() as u64
    }
}

/// A value weighs its bytes.
impl Weigh for Value {
    ghost use Rattle.std.specs.Prelude.{length};

    ghost weight = { length };

    fn weigh(&self) -> u64 {
        self.as_bytes().len() as u64
    }
}

impl Weigh for Option<Key> {
    ghost use Rattle.journal_weight.specs.Weights.{bytes_weight};

    ghost weight = { bytes_weight };

    fn weigh(&self) -> u64 {
        match self {
            None => 0,
            Some(key) => key.weigh(),
        }
    }
}

impl Weigh for Option<Value> {
    ghost use Rattle.journal_weight.specs.Weights.{bytes_weight};

    ghost weight = { bytes_weight };

    fn weigh(&self) -> u64 {
        match self {
            None => 0,
            Some(value) => value.weigh(),
        }
    }
}

/// A region weighs its key bounds.
impl Weigh for Region {
    ghost use Rattle.journal_weight.specs.Weights.{region_weight};

    ghost weight = { region_weight };

    fn weigh(&self) -> u64 {
        self.from.weigh().saturating_add(self.to.weigh())
    }
}

/// A piece of a region map.
impl<V> Weigh for (Region, V) {
    ghost use Rattle.journal_weight.specs.Weights.{piece_weight};

    ghost weight = { piece_weight };

    fn weigh(&self) -> u64 {
        self.0.weigh().saturating_add(64)
    }
}

impl<V> Weigh for RegionMap<V> {
    ghost use Rattle.journal_weight.specs.Weights.{map_weight};

    ghost weight = { map_weight };

    fn weigh(&self) -> u64 {
        total(self.pieces())
    }
}
