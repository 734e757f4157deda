//! Maps from keys to values, cut by regions.
ghost use Rattle.std.specs.Prelude.{◌≡◌, ℕ, ◌<◌, ◌≤◌, Bool, ◌&&◌, List, nat_lt, Option, Some, None, IfOk, OnOk, OnErr, if◌then◌else◌};
ghost use Rattle.std.specs.Option.{is_some, option_copied};
ghost use Rattle.region_map.specs.Keys.{hash_of};
ghost use Rattle.region_map.specs.Equal.{Decides};
ghost use Rattle.region_map.specs.Regions.{in_region, is_open};
ghost use Rattle.region_map.specs.Lookups.{AreInOrder};
ghost use Rattle.region_map.specs.Maps.{Pieced, value_at, IsCanonical};
ghost use Rattle.region_map.specs.Calls.{paired};
ghost use Rattle.region_map.specs.Made.{joined, constant_map, set_map, mask_map, meet_map};

use crate::band::{add_row, flattened};
use crate::bound::{is_known, is_range};
use crate::row::zipped;
use crate::stretch::stretches_at;
use crate::value::{Combine, MapValue};
use crate::{Key, Region, hash_of};
use memory::OutOfMemory;
use std::alloc::Global;
use std::marker::Model;

/// A map that has at most one value for each pair of a hash and a byte list, and so at most one for each key:
/// that of the pair of its own hash and itself.
///
/// It is kept as its pieces, the one list of that function: at each hash the byte lists are cut into the
/// longest ranges with one value, and neighbouring hashes with the same ranges and values form one interval,
/// as long as can be.
#[derive(Debug, Drop)]
pub struct RegionMap<V> {
    hashes: u8,
    pieces: Vec<(Region, V)>,
}

impl<V> Model for RegionMap<V> {
    ghost use Rattle.region_map.specs.Maps.{Pieced, IsCanonical};

    ghost Value = { Pieced V };

    ghost view = { λ a. record { hashes = a.hashes; pieces = a.pieces.items } };

    ghost invariant = { λ a. IsCanonical {V = V} (record { hashes = a.hashes; pieces = a.pieces.items }) };
}

impl<V> RegionMap<V> {
    /// The number of hashes that the map has.
    pub fn hashes(&self) -> u8
        ensures value { result ≡ self.now.hashes }
        ensures canonical { IsCanonical self.now }
    {
        self.hashes
    }

    /// The pieces, in the order of their first hash and then of their lower bound.
    pub fn pieces(&self) -> &[(Region, V)]
        ensures value { result.now ≡ self.now.pieces }
        ensures canonical { IsCanonical self.now }
    {
        &self.pieces
    }

    /// The value of a key.
    pub fn get(&self, key: &Key) -> Option<&V>
        ensures { option_copied result ≡ value_at self.now.pieces (hash_of key.now self.now.hashes) key.now }
    {
        let hash = hash_of(key, self.hashes);
        find(&self.pieces, hash, key)
    }

    /// The value of a key that has this hash.
    pub fn get_at(&self, hash: u8, key: &Key) -> Option<&V>
        ensures { option_copied result ≡ value_at self.now.pieces hash key.now }
    {
        find(&self.pieces, hash, key)
    }
}

/// The value of the piece that has a key with this hash. It is the last one that begins no later, and the pieces stand
/// in order, so that it is found by halving.
fn find<'a, V>(pieces: &'a [(Region, V)], hash: u8, key: &Key) -> Option<&'a V>
    requires { AreInOrder pieces.now }
    ensures { option_copied result ≡ value_at pieces.now hash key.now }
{
    let begun = pieces.partition_point(|piece| piece.0.begins_by(hash, key));
    if begun == 0 {
        return None;
    }
    let last = &pieces[begun - 1];
    if last.0.contains_at(hash, key) {
        Some(&last.1)
    } else {
        None
    }
}

/// The lesser of two numbers.
fn lesser(a: u8, b: u8) -> u8
    ensures { result ≡ (if nat_lt a b then a else b) }
{
    if a < b { a } else { b }
}

/// Whether a region has any key with a hash below this one.
fn has_any(region: &Region, hash_to: u8) -> bool
    ensures { result ≡ (nat_lt region.now.hash_from hash_to && is_open region.now.from region.now.to) }
{
    region.hash_from < hash_to && is_range(&region.from, &region.to)
}

/// The same pieces again.
fn copied<V: MapValue>(
    alloc: Global,
    pieces: &[(Region, V)],
) -> Result<Vec<(Region, V)>, OutOfMemory>
    ensures { IfOk result (λ copy. copy.items ≡ pieces.now) }
{
    let mut copy = Vec::new(alloc);
    for piece in pieces {
        let region = piece.0.copy(alloc)?;
        let value = piece.1.copy(alloc)?;
        copy.push((region, value))?;
    }
    Ok(copy)
}

impl<V: MapValue> RegionMap<V> {
    /// The map that has this value on the domain, and none elsewhere.
    pub fn constant(
        alloc: Global,
        domain: Region,
        hashes: u8,
        value: V,
    ) -> Result<RegionMap<V>, OutOfMemory>
        requires { 0 < hashes }
        ensures hashes { IfOk result (λ m. m.hashes ≡ hashes) }
        ensures at { IfOk result (λ m. (h : ℕ) (k : List ℕ) → value_at m.pieces h k ≡ (if nat_lt h hashes && in_region domain h k then Some value else None)) }
        ensures made { IfOk result (λ m. m ≡ constant_map V.same domain hashes value) }
    {
        let hash_to = lesser(domain.hash_to, hashes);
        let mut pieces = Vec::new(alloc);
        if !has_any(&domain, hash_to) {
            return Ok(RegionMap { hashes, pieces });
        }
        is_known(&domain.from);
        is_known(&domain.to);
        let Region {
            hash_from,
            hash_to: _,
            from,
            to,
        } = domain;
        pieces.push((
            Region {
                hash_from,
                hash_to,
                from,
                to,
            },
            value,
        ))?;
        Ok(RegionMap { hashes, pieces })
    }

    /// The same map again.
    pub fn copy(&self, alloc: Global) -> Result<RegionMap<V>, OutOfMemory>
        ensures { IfOk result (λ m. m ≡ self.now) }
    {
        let pieces = copied(alloc, &self.pieces)?;
        Ok(RegionMap {
            hashes: self.hashes,
            pieces,
        })
    }

    /// The map that has at each pair what the two maps together give there.
    pub fn zip<W: MapValue, X: MapValue, F: Combine<V, W, X>>(
        &self,
        alloc: Global,
        other: &RegionMap<W>,
        with: &F,
    ) -> Result<RegionMap<X>, OutOfMemory>
        requires { self.now.hashes ≡ other.now.hashes }
        ensures hashes { IfOk result (λ m. m.hashes ≡ self.now.hashes) }
        ensures at { IfOk result (λ m. (h : ℕ) (k : List ℕ) → h < self.now.hashes
            → value_at m.pieces h k ≡ F.combined with.now (value_at self.now.pieces h k) (value_at other.now.pieces h k)) }
        ensures beyond { IfOk result (λ m. (h : ℕ) (k : List ℕ) → self.now.hashes ≤ h → value_at m.pieces h k ≡ None) }
        ensures made { IfOk result (λ m. m ≡ joined X.same (F.combined with.now) self.now other.now) }
    {
        let mut bands = Vec::new(alloc);
        for hash in 0..self.hashes {
            let a = stretches_at(alloc, &self.pieces, hash)?;
            let b = stretches_at(alloc, &other.pieces, hash)?;
            let row = zipped(alloc, with, &a, &b)?;
            add_row(&mut bands, hash, row)?;
        }
        let pieces = flattened(alloc, bands)?;
        Ok(RegionMap {
            hashes: self.hashes,
            pieces,
        })
    }
}

/// The first map's value where the second has one too.
struct Masked;

impl<V: MapValue> Combine<V, bool, V> for Masked {
    ghost use Rattle.region_map.specs.Calls.{masked};

    ghost combined = { λ _ a b. masked a b };

    fn combine(
        &self,
        alloc: Global,
        a: Option<&V>,
        b: Option<&bool>,
    ) -> Result<Option<V>, OutOfMemory> {
        match b {
            None => Ok(None),
            Some(_) => match a {
                None => Ok(None),
                Some(a) => Ok(Some(a.copy(alloc)?)),
            },
        }
    }
}

/// The second map's value where both have one, and else the first one's.
struct Overlaid;

impl<V: MapValue> Combine<V, V, V> for Overlaid {
    ghost use Rattle.region_map.specs.Calls.{overlaid};

    ghost combined = { λ _ a b. overlaid a b };

    fn combine(
        &self,
        alloc: Global,
        a: Option<&V>,
        b: Option<&V>,
    ) -> Result<Option<V>, OutOfMemory> {
        match a {
            None => Ok(None),
            Some(a) => match b {
                None => Ok(Some(a.copy(alloc)?)),
                Some(b) => Ok(Some(b.copy(alloc)?)),
            },
        }
    }
}

/// The values of both maps where both have one.
struct Paired;

impl<V: MapValue, W: MapValue> Combine<V, W, (V, W)> for Paired {
    ghost use Rattle.region_map.specs.Calls.{paired};

    ghost combined = { λ _ a b. paired a b };

    fn combine(
        &self,
        alloc: Global,
        a: Option<&V>,
        b: Option<&W>,
    ) -> Result<Option<(V, W)>, OutOfMemory> {
        match a {
            None => Ok(None),
            Some(a) => match b {
                None => Ok(None),
                Some(b) => {
                    let first = a.copy(alloc)?;
                    let second = b.copy(alloc)?;
                    Ok(Some((first, second)))
                }
            },
        }
    }
}

impl<V: MapValue> RegionMap<V> {
    /// Gives the pairs of the part that lie in the domain this value. The others keep theirs. Where there is no
    /// memory, all keep theirs.
    pub fn set(&mut self, alloc: Global, part: &Region, value: V) -> Result<(), OutOfMemory>
        ensures hashes { OnOk result (self.new.hashes ≡ self.old.hashes) }
        ensures at { OnOk result ((h : ℕ) (k : List ℕ) → value_at self.new.pieces h k
            ≡ (if in_region part.now h k && is_some (value_at self.old.pieces h k) then Some value else value_at self.old.pieces h k)) }
        ensures made { OnOk result (self.new ≡ set_map V.same part.now value self.old) }
        ensures err { OnErr result (self.new ≡ self.old) }
    {
        let other = RegionMap::constant(alloc, part.copy(alloc)?, self.hashes(), value)?;
        let new = self.zip(alloc, &other, &Overlaid)?;
        *self = new;
        Ok(())
    }

    /// The same map on the common part of its domain and this part.
    pub fn mask(&self, alloc: Global, part: &Region) -> Result<RegionMap<V>, OutOfMemory>
        ensures hashes { IfOk result (λ m. m.hashes ≡ self.now.hashes) }
        ensures at { IfOk result (λ m. (h : ℕ) (k : List ℕ) → value_at m.pieces h k
            ≡ (if in_region part.now h k then value_at self.now.pieces h k else None)) }
        ensures made { IfOk result (λ m. m ≡ mask_map V.same part.now self.now) }
    {
        let other = RegionMap::constant(alloc, part.copy(alloc)?, self.hashes(), true)?;
        let new = self.zip(alloc, &other, &Masked)?;
        Ok(new)
    }

    /// The two values at each pair of both domains.
    pub fn meet<W: MapValue>(
        &self,
        alloc: Global,
        other: &RegionMap<W>,
    ) -> Result<RegionMap<(V, W)>, OutOfMemory>
        requires { self.now.hashes ≡ other.now.hashes }
        ensures hashes { IfOk result (λ m. m.hashes ≡ self.now.hashes) }
        ensures at { IfOk result (λ m. (h : ℕ) (k : List ℕ) → value_at m.pieces h k
            ≡ paired (value_at self.now.pieces h k) (value_at other.now.pieces h k)) }
        ensures made { IfOk result (λ m. m ≡ meet_map V.same W.same self.now other.now) }
    {
        let _hashes = self.hashes;
        let new = self.zip(alloc, other, &Paired)?;
        Ok(new)
    }
}

/// Two maps with as many hashes that have the same value at every pair are the same: they have the same
/// pieces.
pub fn same_maps<V>(a: &RegionMap<V>, b: &RegionMap<V>)
    requires hashes { a.now.hashes ≡ b.now.hashes }
    requires values { (h : ℕ) (k : List ℕ) → value_at a.now.pieces h k ≡ value_at b.now.pieces h k }
    ensures { a.now ≡ b.now }
{
    let _first = a.hashes();
    let _second = b.hashes();
}

/// What two maps give together is one map: it is canonical, has the values that they give together below the
/// first one's hashes and none behind, and no other map is so.
pub fn joined_is_the_one_map<V, W, X>()
    ensures canonical { (same : X → X → Bool) → Decides same → (f : Option V → Option W → Option X) (m : Pieced V) (n : Pieced W) → 0 < m.hashes → IsCanonical (joined same f m n) }
    ensures hashes { (same : X → X → Bool) (f : Option V → Option W → Option X) (m : Pieced V) (n : Pieced W) → (joined same f m n).hashes ≡ m.hashes }
    ensures at { (same : X → X → Bool) → Decides same → (f : Option V → Option W → Option X) (m : Pieced V) (n : Pieced W) → 0 < m.hashes
        → (h : ℕ) (k : List ℕ) → h < m.hashes → value_at (joined same f m n).pieces h k ≡ f (value_at m.pieces h k) (value_at n.pieces h k) }
    ensures beyond { (same : X → X → Bool) → Decides same → (f : Option V → Option W → Option X) (m : Pieced V) (n : Pieced W) → 0 < m.hashes
        → (h : ℕ) (k : List ℕ) → m.hashes ≤ h → value_at (joined same f m n).pieces h k ≡ None }
    ensures only { (same : X → X → Bool) → Decides same → (f : Option V → Option W → Option X) (m : Pieced V) (n : Pieced W) (r : Pieced X) → IsCanonical r → r.hashes ≡ m.hashes
        → ((h : ℕ) (k : List ℕ) → h < m.hashes → value_at r.pieces h k ≡ f (value_at m.pieces h k) (value_at n.pieces h k)) → r ≡ joined same f m n }
{}
