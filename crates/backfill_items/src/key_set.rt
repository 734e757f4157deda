//! Keys in their order, each once.
ghost use Rattle.std.specs.Prelude.{◌≡◌, IfOk, OnOk};
ghost use Rattle.std.specs.Ordering.{nat_cmp};
ghost use Rattle.std.specs.Cmp.Lexicographic.{slice_cmp};
ghost use Rattle.std.specs.List.Sorted.{IsStrictlySortedBy};
ghost use Rattle.backfill_items.specs.Changed.{with_keys};

use memory::OutOfMemory;
use region_map::Key;
use std::alloc::Global;
use std::collections::BTreeSet;

/// The set of keys that stand in their order.
pub fn set_of(alloc: Global, mut keys: Vec<Key>) -> Result<BTreeSet<Key>, OutOfMemory>
    requires { IsStrictlySortedBy (slice_cmp nat_cmp) keys.items }
    ensures { IfOk result (λ set. set.keys ≡ keys.items) }
{
    let mut set = BTreeSet::new(alloc);
    'taking: while let Some(key) = keys.pop() {
        set.insert(key)?;
    }
    Ok(set)
}

/// Puts these keys into the set too.
pub fn add_keys(alloc: Global, set: &mut BTreeSet<Key>, keys: &[Key]) -> Result<(), OutOfMemory>
    ensures { OnOk result (set.new.keys ≡ with_keys set.old.keys keys.now) }
{
    for key in keys {
        set.insert(key.copy(alloc)?)?;
    }
    Ok(())
}
