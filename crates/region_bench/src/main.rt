//! A call of region maps, made again and again on a map of many pieces, so that its time can be taken.
//!
//! Above: nothing. Below: `region_map`.
//! Promise: none beyond safety and an end. What it prints is how many pieces came out and the sum of their values.
#![tactic(auto)]

ghost use Rattle.std.specs.Prelude.{◌≡◌, IfOk};

use memory::OutOfMemory;
use region_map::{Combine, Key, Region, RegionMap};
use std::alloc::Global;
use std::process::ExitCode;
use std::{env, io};

/// How many hashes the maps have.
const HASHES: u8 = 8;

/// The key whose bytes are those of a number, the greatest first, so that keys are ordered as their numbers are.
fn key(alloc: Global, number: u64) -> Result<Key, OutOfMemory> {
    let bytes = number.to_be_bytes();
    match Key::new(Vec::from_slice(alloc, &bytes)?) {
        Ok(key) => Ok(key),
        Err(_) => unreachable!(),
    }
}

/// The part with this number: one hash, and the keys from one number up to the next.
fn part(alloc: Global, number: u64) -> Result<Region, OutOfMemory> {
    let hash = (number % u64::from(HASHES)) as u8;
    let place = number / u64::from(HASHES);
    let from = key(alloc, place)?;
    let to = key(alloc, place + 1)?;
    Ok(Region {
        hash_from: hash,
        hash_to: hash + 1,
        from: Some(from),
        to: Some(to),
    })
}

/// The value of the first map, and where it has none that of the second.
struct Either;

impl Combine<u64, u64, u64> for Either {
    ghost use Rattle.region_bench.specs.Joined.{either};

    ghost combined = { λ _ a b. either a b };

    fn combine(
        &self,
        _alloc: Global,
        a: Option<&u64>,
        b: Option<&u64>,
    ) -> Result<Option<u64>, OutOfMemory> {
        match a {
            Some(a) => Ok(Some(*a)),
            None => match b {
                Some(b) => Ok(Some(*b)),
                None => Ok(None),
            },
        }
    }
}

/// A map with so many parts from a first one on, each of which has its number as its value. Its halves are
/// joined, since to set one part after the other would take a time that grows as the square.
fn parts(alloc: Global, first: u32, count: u32) -> Result<RegionMap<u64>, OutOfMemory>
    ensures { IfOk result (λ m. m.hashes ≡ 8) }
{
    if count <= 1 {
        let number = u64::from(first);
        let map = RegionMap::constant(alloc, part(alloc, number)?, HASHES, number)?;
        return Ok(map);
    }
    let half = count / 2;
    let low = parts(alloc, first, half)?;
    let high = parts(alloc, first.wrapping_add(half), count - half)?;
    let map = low.zip(alloc, &high, &Either)?;
    Ok(map)
}

/// How many parts are set in turn.
const PARTS_SET: u32 = 16;

/// Sets one part after the other to a new value, each time another.
fn set_again(alloc: Global, map: &mut RegionMap<u64>, rounds: u32) -> Result<(), OutOfMemory> {
    for round in 0..rounds {
        let part = part(alloc, u64::from(round % PARTS_SET))?;
        map.set(alloc, &part, u64::MAX - u64::from(round))?;
    }
    Ok(())
}

/// The last of so many masks of the map, every second of which leaves out the least keys.
fn mask_again(
    alloc: Global,
    map: &RegionMap<u64>,
    rounds: u32,
) -> Result<RegionMap<u64>, OutOfMemory> {
    let mut last = map.copy(alloc)?;
    for round in 0..rounds {
        let from = key(alloc, u64::from(round % 2))?;
        let upper = Region {
            hash_from: 0,
            hash_to: HASHES,
            from: Some(from),
            to: None,
        };
        last = map.mask(alloc, &upper)?;
    }
    Ok(last)
}

/// How many pieces the meets of the map with another came to.
fn meet_again(
    alloc: Global,
    map: &RegionMap<u64>,
    other: &RegionMap<u64>,
    rounds: u32,
) -> Result<u64, OutOfMemory>
    requires { map.now.hashes ≡ other.now.hashes }
{
    let mut pieces: u64 = 0;
    for _ in 0..rounds {
        let both = map.meet(alloc, other)?;
        pieces = pieces.wrapping_add(both.pieces().len() as u64);
    }
    Ok(pieces)
}

/// The sum of the values that one key after the other is found to have.
fn get_again(
    alloc: Global,
    map: &RegionMap<u64>,
    pieces: u32,
    rounds: u32,
) -> Result<u64, OutOfMemory> {
    let mut total: u64 = 0;
    let mut number: u64 = 0;
    for _ in 0..rounds {
        number = number.wrapping_add(7919) % u64::from(pieces.max(1));
        let key = key(alloc, number / u64::from(HASHES))?;
        let hash = (number % u64::from(HASHES)) as u8;
        if let Some(value) = map.get_at(hash, &key) {
            total = total.wrapping_add(*value);
        }
    }
    Ok(total)
}

/// The sum of the values of a map's pieces.
fn sum(map: &RegionMap<u64>) -> u64 {
    let mut total: u64 = 0;
    for piece in map.pieces() {
        total = total.wrapping_add(piece.1);
    }
    total
}

/// The call that is made again and again.
#[derive(Clone, Copy)]
enum Call {
    Set,
    Mask,
    Meet,
    Get,
}

fn named(word: &str) -> Option<Call> {
    match word {
        "set" => Some(Call::Set),
        "mask" => Some(Call::Mask),
        "meet" => Some(Call::Meet),
        "get" => Some(Call::Get),
        _ => None,
    }
}

/// The pieces that came out, and their sum.
fn measured(
    alloc: Global,
    call: Call,
    pieces: u32,
    rounds: u32,
) -> Result<(u64, u64), OutOfMemory> {
    let mut map = parts(alloc, 0, pieces)?;
    match call {
        Call::Set => {
            set_again(alloc, &mut map, rounds)?;
            Ok((map.pieces().len() as u64, sum(&map)))
        }
        Call::Mask => {
            let masked = mask_again(alloc, &map, rounds)?;
            Ok((masked.pieces().len() as u64, sum(&masked)))
        }
        Call::Meet => {
            let other = map.copy(alloc)?;
            let met = meet_again(alloc, &map, &other, rounds)?;
            Ok((met, sum(&map)))
        }
        Call::Get => {
            let found = get_again(alloc, &map, pieces, rounds)?;
            Ok((map.pieces().len() as u64, found))
        }
    }
}

/// The words after the program's own name.
fn words(rt: &HostRuntime) -> io::Result<Vec<String>> {
    let mut words = Vec::new(rt.alloc());
    for word in env::args(rt)?.skip(1) {
        words.push(word)?;
    }
    Ok(words)
}

/// The call, the pieces and the rounds that the words name.
fn read(words: &[String]) -> Option<(Call, u32, u32)> {
    if words.len() != 3 {
        return None;
    }
    let call = named(words[0].as_str())?;
    let pieces = words[1].as_str().parse::<u32>().ok()?;
    let rounds = words[2].as_str().parse::<u32>().ok()?;
    Some((call, pieces, rounds))
}

fn main(rt: HostRuntime) -> io::Result<ExitCode> {
    let words = words(&rt)?;
    let Some((call, pieces, rounds)) = read(&words) else {
        return Ok(ExitCode::from(2));
    };
    let Ok((came, total)) = measured(rt.alloc(), call, pieces, rounds) else {
        return Ok(ExitCode::from(7));
    };
    println!(rt; "pieces {came} sum {total}")?;
    Ok(ExitCode::from(0))
}
