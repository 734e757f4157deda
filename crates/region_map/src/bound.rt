//! The bounds of ranges of keys.
ghost use Rattle.std.specs.Prelude.{◌≡◌, ◌↔◌, not, IfOk, IsTrue};
ghost use Rattle.region_map.specs.Regions.{before, below, low, in_range, is_bound, is_open};

use crate::Key;
use memory::OutOfMemory;
use std::alloc::Global;
use std::cmp::Ordering;

/// Whether a key comes before another.
#[tactic(auto, unfolding(crate::specs::Regions::before))]
pub fn is_before(a: &Key, b: &Key) -> bool
    ensures { result ≡ before a.now b.now }
{
    match a.cmp(b) {
        Ordering::Less => true,
        Ordering::Equal | Ordering::Greater => false,
    }
}

/// Whether a key lies in a range.
pub fn is_in_range(from: &Option<Key>, to: &Option<Key>, key: &Key) -> bool
    ensures { result ≡ in_range from.now to.now key.now }
{
    is_begun(from, key) && is_below(key, to)
}

/// Whether a key lies at or above a lower bound.
#[tactic(auto, using(crate::proofs::Order::before_nil))]
pub fn is_begun(from: &Option<Key>, key: &Key) -> bool
    ensures { result ≡ not (before key.now (low from.now)) }
{
    match from {
        None => true,
        Some(bound) => !is_before(key, bound),
    }
}

/// Whether a key lies below an upper bound.
pub fn is_below(key: &Key, to: &Option<Key>) -> bool
    ensures { result ≡ below key.now to.now }
{
    match to {
        None => true,
        Some(bound) => is_before(key, bound),
    }
}

/// Whether a range holds anything.
#[tactic(auto, using(crate::proofs::Order::before_some))]
pub fn is_range(from: &Option<Key>, to: &Option<Key>) -> bool
    ensures { result ≡ is_open from.now to.now }
{
    let Some(to) = to else {
        return true;
    };
    match from {
        Some(from) => is_before(from, to),
        None => {
            let _bytes = to.as_bytes();
            true
        }
    }
}

/// Whether two bounds are the same.
pub fn is_same_bound(a: &Option<Key>, b: &Option<Key>) -> bool
    ensures { IsTrue result ↔ (a.now ≡ b.now) }
{
    match (a, b) {
        (None, None) => true,
        (Some(a), Some(b)) => a == b,
        _ => false,
    }
}

/// The same bound again.
pub fn copy_bound(alloc: Global, bound: &Option<Key>) -> Result<Option<Key>, OutOfMemory>
    ensures copy { IfOk result (λ copy. copy ≡ bound.now) }
    ensures bound { IsTrue (is_bound bound.now) }
{
    match bound {
        None => Ok(None),
        Some(key) => {
            let _bytes = key.as_bytes();
            Ok(Some(key.copy(alloc)?))
        }
    }
}

/// That a bound is a key.
pub fn is_known(bound: &Option<Key>)
    ensures { IsTrue (is_bound bound.now) }
{
    match bound {
        None => {}
        Some(key) => {
            let _bytes = key.as_bytes();
        }
    }
}
