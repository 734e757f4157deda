//! The worked region maps.
ghost use Rattle.std.specs.Prelude.{◌<◌, IfOk, ◌≡◌};

use region_map::{Key, Region, RegionMap, hash_of};
use std::alloc::Global;
use std::test::Fail;

/// The keys of these hashes from one bound up to another, none where there are no bytes, and their value.
#[derive(Clone, Copy)]
struct Part {
    hashes: (u8, u8),
    from: &'static [u8],
    to: &'static [u8],
    value: u64,
}

fn stretch(hashes: (u8, u8), from: &'static [u8], to: &'static [u8], value: u64) -> Part {
    Part {
        hashes,
        from,
        to,
        value,
    }
}

fn key(alloc: Global, bytes: &[u8]) -> Result<Key, Fail> {
    Ok(Key::new(Vec::from_slice(alloc, bytes)?)?)
}

fn bound(alloc: Global, bytes: &[u8]) -> Result<Option<Key>, Fail> {
    if bytes.is_empty() {
        return Ok(None);
    }
    Ok(Some(key(alloc, bytes)?))
}

fn region(alloc: Global, part: Part) -> Result<Region, Fail> {
    let from = bound(alloc, part.from)?;
    let to = bound(alloc, part.to)?;
    Ok(Region {
        hash_from: part.hashes.0,
        hash_to: part.hashes.1,
        from,
        to,
    })
}

/// The map of one value.
fn constant(alloc: Global, hashes: u8, value: u64) -> Result<RegionMap<u64>, Fail>
    requires { 0 < hashes }
    ensures { IfOk result (λ m. m.hashes ≡ hashes) }
{
    let all = Region {
        hash_from: 0,
        hash_to: hashes,
        from: None,
        to: None,
    };
    let map = RegionMap::constant(alloc, all, hashes, value)?;
    Ok(map)
}

/// The map of zeros in which these parts were set.
fn map_of(alloc: Global, hashes: u8, parts: &[Part]) -> Result<RegionMap<u64>, Fail>
    requires { 0 < hashes }
{
    let mut map = constant(alloc, hashes, 0)?;
    for part in parts {
        set(alloc, &mut map, *part)?;
    }
    Ok(map)
}

fn set(alloc: Global, map: &mut RegionMap<u64>, part: Part) -> Result<(), Fail> {
    let region = region(alloc, part)?;
    map.set(alloc, &region, part.value)?;
    Ok(())
}

fn bytes(bound: &Option<Key>) -> &[u8] {
    match bound {
        None => &[],
        Some(key) => key.as_bytes(),
    }
}

fn is_piece(piece: &(Region, u64), wanted: Part) -> bool {
    (piece.0.hash_from, piece.0.hash_to) == wanted.hashes
        && bytes(&piece.0.from) == wanted.from
        && bytes(&piece.0.to) == wanted.to
        && piece.1 == wanted.value
}

fn has_pieces(map: &RegionMap<u64>, wanted: &[Part]) -> bool {
    let pieces = map.pieces();
    if pieces.len() != wanted.len() {
        return false;
    }
    for i in 0..pieces.len() {
        if !is_piece(&pieces[i], wanted[i]) {
            return false;
        }
    }
    true
}

fn has_value(alloc: Global, map: &RegionMap<u64>, at: &[u8], value: u64) -> Result<bool, Fail> {
    let key = key(alloc, at)?;
    Ok(map.get(&key) == Some(&value))
}

/// Whether the map in which these parts were set has these pieces, and this value at a key.
fn is_cut(
    alloc: Global,
    hashes: u8,
    parts: &[Part],
    wanted: &[Part],
    at: (&[u8], u64),
) -> Result<bool, Fail>
    requires { 0 < hashes }
{
    let map = map_of(alloc, hashes, parts)?;
    Ok(has_pieces(&map, wanted) && has_value(alloc, &map, at.0, at.1)?)
}

fn has_masked(alloc: Global, set: Part, mask: Part, wanted: &[Part]) -> Result<bool, Fail> {
    let map = map_of(alloc, 1, &[set])?;
    let mask = region(alloc, mask)?;
    Ok(has_pieces(&map.mask(alloc, &mask)?, wanted))
}

/// Whether a part meets the map that is 5 everywhere in this pair of values, at a key.
fn has_met(alloc: Global, set_to: Part, at: &[u8], wanted: (u64, u64)) -> Result<bool, Fail> {
    let mut map = constant(alloc, 1, 0)?;
    set(alloc, &mut map, set_to)?;
    let key = key(alloc, at)?;
    meets(alloc, &map, &key, wanted)
}

fn meets(alloc: Global, map: &RegionMap<u64>, key: &Key, wanted: (u64, u64)) -> Result<bool, Fail> {
    let five = constant(alloc, 1, 5)?;
    if map.hashes() != five.hashes() {
        return Ok(false);
    }
    Ok(map.meet(alloc, &five)?.get(key) == Some(&wanted))
}

fn has_hash(alloc: Global, at: &[u8], hashes: u8, wanted: u8) -> Result<bool, Fail>
    requires { 0 < hashes }
{
    Ok(hash_of(&key(alloc, at)?, hashes) == wanted)
}

#[test]
fn a_set_part_cuts_a_constant_map(rt: HostRuntime) -> Result<(), Fail> {
    let all = (0, 1);
    let set = stretch(all, b"b", b"d", 1);
    let cut = [stretch(all, b"", b"b", 0), set, stretch(all, b"d", b"", 0)];
    assert!(rt; is_cut(rt.alloc(), 1, &[set], &cut, (b"c", 1))?);
    let masked = [stretch(all, b"c", b"d", 1), stretch(all, b"d", b"", 0)];
    assert!(rt; has_masked(rt.alloc(), set, stretch(all, b"c", b"", 0), &masked)?);
    assert!(rt; has_met(rt.alloc(), set, b"c", (1, 5))?);
    Ok(())
}

#[test]
fn equal_neighbours_are_one_piece(rt: HostRuntime) -> Result<(), Fail> {
    let set = stretch((2, 4), b"", b"", 1);
    let cut = [
        stretch((0, 2), b"", b"", 0),
        set,
        stretch((4, 8), b"", b"", 0),
    ];
    assert!(rt; is_cut(rt.alloc(), 8, &[set], &cut, (b"a", 0))?);
    assert!(rt; has_hash(rt.alloc(), b"a", 8, 1)?);
    let back = stretch((2, 4), b"", b"", 0);
    let whole = [stretch((0, 8), b"", b"", 0)];
    assert!(rt; is_cut(rt.alloc(), 8, &[set, back], &whole, (b"a", 0))?);
    Ok(())
}
