//! What a region map may hold.
ghost use Rattle.std.specs.Prelude.{◌≡◌, ◌↔◌, Bool, Option, IfOk, IsTrue};
ghost use Rattle.std.specs.Option.{option_copied};
ghost use Rattle.region_map.specs.Equal.{Decides};

use crate::{Id, NodeId};
use memory::OutOfMemory;
use std::alloc::Global;

/// A value that a region map may hold. In definitions its ghost `same` tests whether two are the same.
pub trait MapValue: Drop + Sized {
    ghost same: { Self → Self → Bool };

    /// Whether two values are the same.
    fn same(&self, other: &Self) -> bool
        ensures { IsTrue result ↔ (self.now ≡ other.now) };

    /// The same value again.
    fn copy(&self, alloc: Global) -> Result<Self, OutOfMemory>
        ensures { IfOk result (λ copy. copy ≡ self.now) };

    ghost decides: { Decides same };
}

/// What two region maps together give a pair that has these values in them.
pub trait Combine<V, W, X> {
    ghost combined: { Self → Option V → Option W → Option X };

    /// The value of the new map where the first map has `a` and the second has `b`; none where it has none.
    fn combine(&self, alloc: Global, a: Option<&V>, b: Option<&W>) -> Result<Option<X>, OutOfMemory>
        ensures { IfOk result (λ value. value ≡ combined self.now (option_copied a.entry) (option_copied b.entry)) };
}

impl MapValue for bool {
    ghost use Rattle.region_map.specs.Equal.{same_bool, bool_decides};

    ghost same = { same_bool };

    ghost decides = { bool_decides };

    fn same(&self, other: &bool) -> bool {
        self == other
    }

    fn copy(&self, _alloc: Global) -> Result<bool, OutOfMemory> {
        Ok(*self)
    }
}

impl MapValue for u64 {
    ghost use Rattle.std.specs.Prelude.{◌==◌};
    ghost use Rattle.region_map.specs.Equal.{number_decides};

    ghost same = { λ a b. a == b };

    ghost decides = { number_decides };

    fn same(&self, other: &u64) -> bool {
        self == other
    }

    fn copy(&self, _alloc: Global) -> Result<u64, OutOfMemory> {
        Ok(*self)
    }
}

impl MapValue for Id {
    ghost use Rattle.region_map.specs.Equal.{same_id, id_decides};

    ghost same = { same_id };

    ghost decides = { id_decides };

    fn same(&self, other: &Id) -> bool {
        self == other
    }

    fn copy(&self, _alloc: Global) -> Result<Id, OutOfMemory> {
        Ok(*self)
    }
}

impl MapValue for NodeId {
    ghost use Rattle.region_map.specs.Equal.{same_node, node_decides};

    ghost same = { same_node };

    ghost decides = { node_decides };

    fn same(&self, other: &NodeId) -> bool {
        self == other
    }

    fn copy(&self, _alloc: Global) -> Result<NodeId, OutOfMemory> {
        Ok(*self)
    }
}

impl<V: MapValue> MapValue for Option<V> {
    ghost use Rattle.region_map.specs.Equal.{same_option, option_decides};

    ghost same = { same_option V.same };

    ghost decides = { option_decides V.same V.decides };

    fn same(&self, other: &Option<V>) -> bool {
        match (self, other) {
            (None, None) => true,
            (Some(a), Some(b)) => a.same(b),
            _ => false,
        }
    }

    fn copy(&self, alloc: Global) -> Result<Option<V>, OutOfMemory> {
        match self {
            None => Ok(None),
            Some(value) => Ok(Some(value.copy(alloc)?)),
        }
    }
}

impl<V: MapValue, W: MapValue> MapValue for (V, W) {
    ghost use Rattle.region_map.specs.Equal.{same_pair, pair_decides};

    ghost same = { same_pair V.same W.same };

    ghost decides = { pair_decides V.same W.same V.decides W.decides };

    fn same(&self, other: &(V, W)) -> bool {
        self.0.same(&other.0) && self.1.same(&other.1)
    }

    fn copy(&self, alloc: Global) -> Result<(V, W), OutOfMemory> {
        let first = self.0.copy(alloc)?;
        let second = self.1.copy(alloc)?;
        Ok((first, second))
    }
}
