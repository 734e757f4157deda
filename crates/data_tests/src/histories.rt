//! The worked history: A from the zero version, B from A at 5, C from A at 3.
ghost use Rattle.std.specs.Prelude.{◌≡◌, IfOk, OnOk};
ghost use Rattle.branch_history.specs.Histories.{HasHashes};

use branch_history::{AddRefused, BranchBirth, History, Version};
use region_map::{Id, Key, NodeId, Region, RegionMap};
use std::alloc::Global;
use std::test::Fail;

fn id(counter: u64) -> Id {
    Id {
        node: NodeId(0),
        life: 1,
        counter,
    }
}

fn at(counter: u64, timestamp: u64) -> Version {
    Version {
        branch: Some(id(counter)),
        timestamp,
    }
}

fn key(alloc: Global, byte: u8) -> Result<Key, Fail> {
    let mut bytes = Vec::new(alloc);
    bytes.push(byte)?;
    Ok(Key::new(bytes)?)
}

fn everything() -> Region {
    Region {
        hash_from: 0,
        hash_to: 1,
        from: None,
        to: None,
    }
}

fn everywhere(alloc: Global, version: Version) -> Result<RegionMap<Version>, Fail>
    ensures { IfOk result (λ m. m.hashes ≡ 1) }
{
    let map = RegionMap::constant(alloc, everything(), 1, version)?;
    Ok(map)
}

fn birth(alloc: Global, region: Region, initial: u64, origin: Version) -> Result<BranchBirth, Fail>
    ensures { IfOk result (λ b. b.origin.hashes ≡ 1) }
{
    let origin = everywhere(alloc, origin)?;
    Ok(BranchBirth {
        region,
        initial,
        origin,
        tenure: 1,
    })
}

/// Adds a branch of these keys, or tells why not.
fn add_in(
    alloc: Global,
    history: &mut History,
    counter: u64,
    region: Region,
    initial: u64,
    origin: Version,
) -> Result<Option<AddRefused>, Fail>
    requires { HasHashes history.old 1 }
    ensures { HasHashes history.new 1 }
{
    let birth = birth(alloc, region, initial, origin)?;
    match history.add(id(counter), birth) {
        Ok(()) => Ok(None),
        Err(why) => Ok(Some(why)),
    }
}

fn add(
    alloc: Global,
    history: &mut History,
    counter: u64,
    initial: u64,
    origin: Version,
) -> Result<Option<AddRefused>, Fail>
    requires { HasHashes history.old 1 }
    ensures { HasHashes history.new 1 }
{
    add_in(alloc, history, counter, everything(), initial, origin)
}

fn history(alloc: Global) -> Result<History, Fail>
    ensures { IfOk result (λ h. HasHashes h 1) }
{
    let mut history = History::new(alloc);
    add(alloc, &mut history, 1, 0, Version::zero())?;
    add(alloc, &mut history, 2, 5, at(1, 5))?;
    add(alloc, &mut history, 3, 3, at(1, 3))?;
    Ok(history)
}

/// Whether the last common point of two versions is this one, at every key.
fn meet_at(alloc: Global, a: Version, b: Version, wanted: Version) -> Result<bool, Fail> {
    let history = history(alloc)?;
    let a = everywhere(alloc, a)?;
    let b = everywhere(alloc, b)?;
    let key = key(alloc, b'k')?;
    Ok(history.common_ancestor(alloc, &a, &b)?.get(&key) == Some(&wanted))
}

/// Whether the last point of a version on the path of the whole of a branch is this one, at every key.
fn project_to(alloc: Global, a: Version, branch: u64, wanted: Version) -> Result<bool, Fail> {
    let history = history(alloc)?;
    let a = everywhere(alloc, a)?;
    let branches = RegionMap::constant(alloc, everything(), 1, id(branch))?;
    let key = key(alloc, b'k')?;
    Ok(history.project(alloc, &a, &branches)?.get(&key) == Some(&wanted))
}

fn has(
    alloc: Global,
    history: &History,
    end: Version,
    byte: u8,
    point: Version,
) -> Result<bool, Fail> {
    Ok(history.path_has(&end, &key(alloc, byte)?, &point))
}

/// Whether the paths have these points, and do not have the others: where a path ends, at which key, a point, and
/// whether the path has it. A further branch of the keys from `m` on goes on from A at 4.
fn have_points(alloc: Global, cases: &[(Version, u8, Version, bool)]) -> Result<bool, Fail> {
    let mut history = history(alloc)?;
    let upper = Region {
        hash_from: 0,
        hash_to: 1,
        from: Some(key(alloc, b'm')?),
        to: None,
    };
    add_in(alloc, &mut history, 4, upper, 4, at(1, 4))?;
    for (end, byte, point, wanted) in cases {
        if has(alloc, &history, *end, *byte, *point)? != *wanted {
            return Ok(false);
        }
    }
    Ok(true)
}

fn is_refused(
    alloc: Global,
    counter: u64,
    initial: u64,
    origin: Version,
    why: AddRefused,
) -> Result<bool, Fail> {
    let mut history = history(alloc)?;
    Ok(add(alloc, &mut history, counter, initial, origin)? == Some(why))
}

fn has_birth(alloc: Global, counter: u64) -> Result<bool, Fail> {
    Ok(history(alloc)?.birth(&id(counter)).is_some())
}

#[test]
fn branches_meet_at_the_earlier_fork(rt: HostRuntime) -> Result<(), Fail> {
    assert!(rt; meet_at(rt.alloc(), at(2, 7), at(3, 4), at(1, 3))?);
    assert!(rt; project_to(rt.alloc(), at(1, 9), 2, at(1, 5))?);
    Ok(())
}

/// A path forks at the initial timestamp; a branch has no path outside of its region; one that is not known has
/// none but the zero version.
#[test]
fn paths_have_the_points_of_their_branches(rt: HostRuntime) -> Result<(), Fail> {
    let cases = [
        (at(2, 7), b'k', at(1, 5), true),
        (at(2, 7), b'k', at(1, 6), false),
        (at(9, 7), b'k', at(1, 1), false),
        (at(9, 7), b'k', Version::zero(), true),
        (at(4, 5), b'm', at(1, 2), true),
        (at(4, 5), b'k', at(1, 2), false),
        (at(4, 5), b'k', at(4, 5), false),
        (at(4, 5), b'k', Version::zero(), true),
    ];
    assert!(rt; have_points(rt.alloc(), &cases)?);
    Ok(())
}

#[test]
fn a_branch_is_added_once_and_behind_its_origins(rt: HostRuntime) -> Result<(), Fail> {
    assert!(rt; is_refused(rt.alloc(), 1, 0, Version::zero(), AddRefused::IdKnown)?);
    assert!(rt; is_refused(rt.alloc(), 4, 2, at(9, 2), AddRefused::OriginUnknown)?);
    assert!(rt; has_birth(rt.alloc(), 3)?);
    assert!(rt; !has_birth(rt.alloc(), 4)?);
    Ok(())
}
