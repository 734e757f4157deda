//! Whether regions are apart, leave nothing out, and cover the same as others: at every pair of a hash and a
//! byte list, decided at their bounds.
ghost use Rattle.std.specs.Prelude.{◌≡◌};
ghost use Rattle.region_map.specs.Regions.{in_region, low};
ghost use Rattle.contract_types.specs.Tilings.{holders, allows, allows_at, at_bounds, at_hashes, at_all_bounds, everywhere};

use crate::Placed;
use region_map::bound::is_known;
use region_map::{Key, Region};

/// What is asked of each pair, by how many regions of a first and of a second list have it.
#[derive(Clone, Copy, Debug, PartialEq, Eq)]
pub enum Rule {
    /// At most one of the first list has it.
    Apart,
    /// One of the first list has it, where its hash is below this number.
    Whole(u8),
    /// One of the first list has it where any of the second has, and none elsewhere.
    Tiles,
}

impl Rule {
    fn allows(self, hash: u8, first: usize, second: usize) -> bool
        ensures { result ≡ allows self hash first second }
    {
        match self {
            Rule::Apart => first <= 1,
            Rule::Whole(hashes) => hashes <= hash || first > 0,
            Rule::Tiles => first == second.min(1),
        }
    }
}

/// Whether a region has a bound, of which an absent one is the least byte list, with this hash.
#[tactic(auto, using(crate::proofs::Bounds::none_in_region))]
fn has_bound(region: &Region, hash: u8, bound: &Option<Key>) -> bool
    ensures { result ≡ in_region region.now hash (low bound.now) }
{
    match bound {
        Some(key) => region.contains_at(hash, key),
        None => {
            is_known(&region.from);
            is_known(&region.to);
            region.hash_from <= hash && hash < region.hash_to && region.from.is_none()
        }
    }
}

/// How many have a bound, with this hash, in their region.
#[tactic(auto, using(crate::proofs::Bounds::holders_count))]
fn holders<T: Placed>(items: &[T], hash: u8, bound: &Option<Key>) -> usize
    ensures { result ≡ holders T.place items.now hash (low bound.now) }
{
    items
        .iter()
        .filter(|item| has_bound(item.region(), hash, bound))
        .count()
}

fn allows_at<T: Placed, U: Placed>(
    rule: Rule,
    xs: &[T],
    ys: &[U],
    hash: u8,
    bound: &Option<Key>,
) -> bool
    ensures { result ≡ allows_at rule T.place U.place xs.now ys.now hash (low bound.now) }
{
    rule.allows(hash, holders(xs, hash, bound), holders(ys, hash, bound))
}

/// Whether a rule holds at the bounds of these, with this hash.
fn allows_at_bounds<T: Placed, U: Placed, P: Placed>(
    rule: Rule,
    xs: &[T],
    ys: &[U],
    hash: u8,
    items: &[P],
) -> bool
    ensures { result ≡ at_bounds P.place items.now (allows_at rule T.place U.place xs.now ys.now hash) }
{
    items.iter().all(|item| {
        allows_at(rule, xs, ys, hash, &item.region().from)
            && allows_at(rule, xs, ys, hash, &item.region().to)
    })
}

/// Whether a rule holds at all bounds, with this hash.
fn allows_along<T: Placed, U: Placed>(rule: Rule, xs: &[T], ys: &[U], hash: u8) -> bool
    ensures { result ≡ at_all_bounds T.place U.place xs.now ys.now (allows_at rule T.place U.place xs.now ys.now hash) }
{
    allows_at(rule, xs, ys, hash, &None)
        && allows_at_bounds(rule, xs, ys, hash, xs)
        && allows_at_bounds(rule, xs, ys, hash, ys)
}

/// Whether a rule holds at all bounds, with the hashes of these.
fn allows_at_hashes<T: Placed, U: Placed, P: Placed>(
    rule: Rule,
    xs: &[T],
    ys: &[U],
    items: &[P],
) -> bool
    ensures { result ≡ at_hashes P.place items.now
        (λ h. at_all_bounds T.place U.place xs.now ys.now (allows_at rule T.place U.place xs.now ys.now h)) }
{
    items.iter().all(|item| {
        allows_along(rule, xs, ys, item.region().hash_from)
            && allows_along(rule, xs, ys, item.region().hash_to)
    })
}

/// Whether a rule holds at every pair.
pub fn allows_everywhere<T: Placed, U: Placed>(rule: Rule, xs: &[T], ys: &[U]) -> bool
    ensures { result ≡ everywhere T.place U.place xs.now ys.now (allows_at rule T.place U.place xs.now ys.now) }
{
    allows_along(rule, xs, ys, 0)
        && allows_at_hashes(rule, xs, ys, xs)
        && allows_at_hashes(rule, xs, ys, ys)
}
