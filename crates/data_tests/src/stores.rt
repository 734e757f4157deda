//! The worked cases of stores, each through the bound `Store`.
ghost use Rattle.std.specs.Prelude.{◌≡◌, ℕ, ◌<◌, true, List, IsSome, IfOk, OnOk};
ghost use Rattle.std.specs.List.{All};
ghost use Rattle.region_map.specs.Regions.{in_region};
ghost use Rattle.region_map.specs.Maps.{value_at};
ghost use Rattle.store_api.specs.Rows.{has_key};

use branch_history::Version;
use region_map::{Id, Key, NodeId, Region, RegionMap};
use register_laws::Value;
use std::alloc::Global;
use std::test::Fail;
use store_api::{Item, Row, Store};
use store_plain::PlainStore;

/// A key lies outside of the part.
#[derive(Debug, Drop)]
struct Outside;

/// Keys of all hashes, cut at a key of one byte.
#[derive(Clone, Copy)]
enum Span {
    All,
    Below(u8),
    From(u8),
}

/// A call of a store, or what is seen of it. A key is one byte, and a row is its recency with whether it has a
/// value.
#[derive(Clone, Copy)]
enum Step {
    /// The part goes on in this branch from timestamp 0.
    Starts(Span, u64),
    /// All keys come to this point of this branch, one of them with a row or without it.
    Advances(u64, u64, Option<(u8, Option<(u64, bool)>)>),
    /// All keys get this version, and two of them these rows.
    Replaces(Version, [(u8, Option<(u64, bool)>); 2]),
    Erases(Span),
    HasRow(u8, Option<(u64, bool)>),
    HasVersion(u8, Version),
    /// The versions of the part have this one for a key.
    SeesVersion(Span, u8, Option<Version>),
    /// A scan of the part finds these keys, above this bound and up to this limit.
    Finds(Span, u64, usize, &'static [u8]),
}

fn id(counter: u64) -> Id {
    Id {
        node: NodeId(0),
        life: 1,
        counter,
    }
}

fn at(counter: u64, timestamp: u64) -> Version {
    Version {
        branch: Some(id(counter)),
        timestamp,
    }
}

fn key(alloc: Global, byte: u8) -> Result<Key, Fail> {
    let mut bytes = Vec::new(alloc);
    bytes.push(byte)?;
    Ok(Key::new(bytes)?)
}

fn item(alloc: Global, byte: u8, row: Option<(u64, bool)>) -> Result<Item, Fail> {
    let key = key(alloc, byte)?;
    let Some((recency, has_value)) = row else {
        return Ok(Item { key, row: None });
    };
    let value = value(alloc, has_value)?;
    Ok(Item {
        key,
        row: Some(Row { value, recency }),
    })
}

fn value(alloc: Global, has_value: bool) -> Result<Option<Value>, Fail> {
    if !has_value {
        return Ok(None);
    }
    let bytes = Vec::from_slice(alloc, b"v")?;
    Ok(Some(Value::new(bytes)?))
}

fn region(alloc: Global, hash_to: u8, span: Span) -> Result<Region, Fail> {
    let (from, to) = match span {
        Span::All => (None, None),
        Span::Below(byte) => (None, Some(key(alloc, byte)?)),
        Span::From(byte) => (Some(key(alloc, byte)?), None),
    };
    Ok(Region {
        hash_from: 0,
        hash_to,
        from,
        to,
    })
}

fn starts<T: Store>(alloc: Global, store: &mut T, span: Span, branch: u64) -> Result<(), Fail> {
    let part = region(alloc, store.hashes(), span)?;
    store.start_branch(alloc, &part, id(branch), 0)?;
    Ok(())
}

fn advances<T: Store>(
    alloc: Global,
    store: &mut T,
    branch: u64,
    at: u64,
    effect: Option<(u8, Option<(u64, bool)>)>,
) -> Result<(), Fail> {
    let all = region(alloc, store.hashes(), Span::All)?;
    let effect = match effect {
        None => None,
        Some((byte, row)) => Some(item(alloc, byte, row)?),
    };
    store.advance(alloc, &all, id(branch), at, effect)?;
    Ok(())
}

/// Whether the items lie in the part.
fn lie_in(part: &Region, hashes: u8, items: &[Item]) -> Result<(), Outside>
    requires { 0 < hashes }
    ensures { OnOk result (All (λ item. has_key part.now hashes item.key ≡ true) items.now) }
{
    if items.iter().all(|item| part.contains(&item.key, hashes)) {
        Ok(())
    } else {
        Err(Outside)
    }
}

fn replaces<T: Store>(
    alloc: Global,
    store: &mut T,
    version: Version,
    rows: [(u8, Option<(u64, bool)>); 2],
) -> Result<(), Fail> {
    let all = region(alloc, store.hashes(), Span::All)?;
    let mut items = Vec::new(alloc);
    for (byte, row) in rows {
        items.push(item(alloc, byte, row)?)?;
    }
    lie_in(&all, store.hashes(), &items)?;
    store.replace_range(alloc, &all, &items, &version)?;
    Ok(())
}

fn erases<T: Store>(alloc: Global, store: &mut T, span: Span) -> Result<(), Fail> {
    let part = region(alloc, store.hashes(), span)?;
    store.erase_range(alloc, &part)?;
    Ok(())
}

fn row_of<T: Store>(alloc: Global, store: &T, byte: u8) -> Result<Option<(u64, bool)>, Fail> {
    let key = key(alloc, byte)?;
    match store.get(&key) {
        None => Ok(None),
        Some(row) => Ok(Some((row.recency, row.value.is_some()))),
    }
}

fn version_of<T: Store>(alloc: Global, store: &T, byte: u8) -> Result<Version, Fail> {
    let key = key(alloc, byte)?;
    Ok(store.version(&key))
}

fn version_in<T: Store>(
    alloc: Global,
    store: &T,
    span: Span,
    byte: u8,
) -> Result<Option<Version>, Fail> {
    let part = region(alloc, store.hashes(), span)?;
    let key = key(alloc, byte)?;
    let versions = store.versions(alloc, &part)?;
    Ok(versions.get(&key).copied())
}

/// The same bound for each key of a part.
fn bounds(alloc: Global, part: &Region, hashes: u8, bound: u64) -> Result<RegionMap<u64>, Fail>
    requires { 0 < hashes }
    ensures hashes { IfOk result (λ m. m.hashes ≡ hashes) }
    ensures domain { IfOk result (λ m. (h : ℕ) (k : List ℕ) → h < m.hashes → in_region part.now h k ≡ true → IsSome (value_at m.pieces h k)) }
{
    let bounds = RegionMap::constant(alloc, part.copy(alloc)?, hashes, bound)?;
    Ok(bounds)
}

fn finds<T: Store>(
    alloc: Global,
    store: &T,
    span: Span,
    bound: u64,
    limit: usize,
    wanted: &[u8],
) -> Result<bool, Fail> {
    let part = region(alloc, store.hashes(), span)?;
    let above = bounds(alloc, &part, store.hashes(), bound)?;
    let keys = store.scan(alloc, &part, &above, limit)?;
    if keys.len() != wanted.len() {
        return Ok(false);
    }
    for i in 0..keys.len() {
        if keys[i] != key(alloc, wanted[i])? {
            return Ok(false);
        }
    }
    Ok(true)
}

/// Makes the call, or tells whether what is seen of the store is so.
fn holds<T: Store>(alloc: Global, store: &mut T, step: Step) -> Result<bool, Fail> {
    match step {
        Step::Starts(span, branch) => starts(alloc, store, span, branch)?,
        Step::Advances(branch, at, effect) => advances(alloc, store, branch, at, effect)?,
        Step::Replaces(version, rows) => replaces(alloc, store, version, rows)?,
        Step::Erases(span) => erases(alloc, store, span)?,
        Step::HasRow(byte, row) => return Ok(row_of(alloc, store, byte)? == row),
        Step::HasVersion(byte, version) => {
            return Ok(version_of(alloc, store, byte)? == version);
        }
        Step::SeesVersion(span, byte, version) => {
            return Ok(version_in(alloc, store, span, byte)? == version);
        }
        Step::Finds(span, bound, limit, keys) => {
            return finds(alloc, store, span, bound, limit, keys);
        }
    }
    Ok(true)
}

/// The number of the first step that does not hold.
fn first_wrong<T: Store>(
    alloc: Global,
    store: &mut T,
    steps: &[Step],
) -> Result<Option<usize>, Fail> {
    for i in 0..steps.len() {
        if !holds(alloc, store, steps[i])? {
            return Ok(Some(i));
        }
    }
    Ok(None)
}

/// The number of the first step that does not hold of a new plain store.
fn first_wrong_of_new(alloc: Global, hashes: u8, steps: &[Step]) -> Result<Option<usize>, Fail>
    requires { 0 < hashes }
{
    let mut store = PlainStore::new(alloc, hashes)?;
    first_wrong(alloc, &mut store, steps)
}

/// A receiver with a of recency 1 and b of recency 2 is told that a was deleted at 3 and that b is not there.
#[test]
fn a_backfill_replaces_rows_and_versions(rt: HostRuntime) -> Result<(), Fail> {
    let steps = [
        Step::Replaces(at(1, 2), [(b'a', Some((1, true))), (b'b', Some((2, true)))]),
        Step::Finds(Span::All, 1, 64, b"b"),
        Step::Replaces(at(2, 3), [(b'a', Some((3, false))), (b'b', None)]),
        Step::HasRow(b'a', Some((3, false))),
        Step::HasRow(b'b', None),
        Step::HasVersion(b'a', at(2, 3)),
        Step::HasVersion(b'z', at(2, 3)),
    ];
    assert_eq!(rt; first_wrong_of_new(rt.alloc(), 2, &steps)?, None);
    Ok(())
}

/// What stands on the branch below the timestamp moves, with the effect; the other branch stays, without it.
#[test]
fn an_advance_moves_what_is_behind_on_the_branch(rt: HostRuntime) -> Result<(), Fail> {
    let steps = [
        Step::Starts(Span::Below(b'm'), 1),
        Step::Starts(Span::From(b'm'), 2),
        Step::Advances(1, 5, Some((b'a', Some((5, true))))),
        Step::HasVersion(b'a', at(1, 5)),
        Step::HasVersion(b'b', at(1, 5)),
        Step::HasVersion(b'm', at(2, 0)),
        Step::HasVersion(b'z', at(2, 0)),
        Step::Advances(1, 6, Some((b'z', Some((6, true))))),
        Step::HasRow(b'a', Some((5, true))),
        Step::HasRow(b'z', None),
        Step::HasVersion(b'z', at(2, 0)),
    ];
    assert_eq!(rt; first_wrong_of_new(rt.alloc(), 2, &steps)?, None);
    Ok(())
}

/// What stands at the timestamp or above it stays, and an effect there changes nothing.
#[test]
fn an_advance_never_goes_back(rt: HostRuntime) -> Result<(), Fail> {
    let steps = [
        Step::Starts(Span::Below(b'm'), 1),
        Step::Starts(Span::From(b'm'), 2),
        Step::Advances(1, 5, Some((b'a', Some((5, true))))),
        Step::Advances(1, 5, Some((b'a', Some((5, false))))),
        Step::Advances(1, 4, Some((b'a', None))),
        Step::HasRow(b'a', Some((5, true))),
        Step::HasVersion(b'a', at(1, 5)),
        Step::Advances(1, 6, None),
        Step::HasRow(b'a', Some((5, true))),
        Step::HasVersion(b'a', at(1, 6)),
        Step::Advances(1, 7, Some((b'a', None))),
        Step::HasRow(b'a', None),
    ];
    assert_eq!(rt; first_wrong_of_new(rt.alloc(), 1, &steps)?, None);
    Ok(())
}

/// The last item of a key counts; the keys outside of an erased part keep their rows and versions.
#[test]
fn an_erased_part_has_no_rows_and_the_zero_version(rt: HostRuntime) -> Result<(), Fail> {
    let steps = [
        Step::Replaces(
            at(1, 2),
            [(b'a', Some((1, true))), (b'a', Some((2, false)))],
        ),
        Step::HasRow(b'a', Some((2, false))),
        Step::Replaces(at(1, 4), [(b'b', Some((3, true))), (b'z', Some((4, true)))]),
        Step::Finds(Span::Below(b'm'), 0, 64, b"ab"),
        Step::Finds(Span::All, 0, 1, b"a"),
        Step::Erases(Span::Below(b'm')),
        Step::HasRow(b'a', None),
        Step::HasVersion(b'b', Version::zero()),
        Step::HasRow(b'z', Some((4, true))),
        Step::HasVersion(b'z', at(1, 4)),
        Step::SeesVersion(Span::Below(b'm'), b'a', Some(Version::zero())),
        Step::SeesVersion(Span::Below(b'm'), b'z', None),
    ];
    assert_eq!(rt; first_wrong_of_new(rt.alloc(), 4, &steps)?, None);
    Ok(())
}
