//! Neighbouring hashes of a region map with the same row.
ghost use Rattle.std.specs.Prelude.{◌≡◌, ◌↔◌, ◌+◌, ◌≤◌, ◌<◌, ◌++◌, length, map, IfOk, OnOk, IsTrue};
ghost use Rattle.region_map.specs.Maps.{AreBands, IsRow, piece, pieces_of};
ghost use Rattle.region_map.specs.Bands.{Adds, band_of};

use crate::Region;
use crate::bound::is_same_bound;
use crate::row::Range;
use crate::value::MapValue;
use memory::OutOfMemory;
use std::alloc::Global;

/// Hashes from one up to but without another, and the ranges of each of them.
#[derive(Drop)]
pub struct RowBand<V> {
    pub hash_from: u8,
    pub hash_to: u8,
    pub ranges: Vec<Range<V>>,
}

/// Whether two ranges are the same.
fn is_same_range<V: MapValue>(a: &Range<V>, b: &Range<V>) -> bool
    ensures { IsTrue result ↔ (a.now ≡ b.now) }
{
    is_same_bound(&a.from, &b.from) && is_same_bound(&a.to, &b.to) && a.value.same(&b.value)
}

/// Whether two rows are the same.
fn is_same_row<V: MapValue>(a: &[Range<V>], b: &[Range<V>]) -> bool
    ensures { IsTrue result ↔ (a.now ≡ b.now) }
{
    if a.len() != b.len() {
        return false;
    }
    for i in 0..a.len() {
        if !is_same_range(&a[i], &b[i]) {
            return false;
        }
    }
    true
}

/// Whether a hash goes on with the row of the band before it.
fn goes_on<V: MapValue>(last: &RowBand<V>, hash: u8, ranges: &[Range<V>]) -> bool
    ensures { IsTrue result ↔ ((last.now.hash_to ≡ hash) × (last.now.ranges.items ≡ ranges.now)) }
{
    last.hash_to == hash && is_same_row(&last.ranges, ranges)
}

/// Adds the row of the next hash to the bands of those before it.
pub fn add_row<V: MapValue>(
    bands: &mut Vec<RowBand<V>>,
    hash: u8,
    ranges: Vec<Range<V>>,
) -> Result<(), OutOfMemory>
    requires bands { AreBands hash (map band_of bands.old.items) }
    requires row { IsRow ranges.items }
    requires hash { hash < 255 }
    ensures { OnOk result (Adds (map band_of bands.old.items) hash ranges.items (map band_of bands.new.items)) }
{
    if ranges.is_empty() {
        return Ok(());
    }
    let next = RowBand {
        hash_from: hash,
        hash_to: hash + 1,
        ranges,
    };
    match bands.pop() {
        None => bands.push(next)?,
        Some(last) => {
            if goes_on(&last, hash, &next.ranges) {
                bands.push(RowBand {
                    hash_from: last.hash_from,
                    hash_to: hash + 1,
                    ranges: last.ranges,
                })?;
            } else {
                bands.push(last)?;
                bands.push(next)?;
            }
        }
    }
    Ok(())
}

/// The pieces of bands, in order.
pub fn flattened<V: Drop>(
    alloc: Global,
    bands: Vec<RowBand<V>>,
) -> Result<Vec<(Region, V)>, OutOfMemory>
    ensures { IfOk result (λ pieces. pieces.items ≡ pieces_of (map band_of bands.items)) }
{
    let mut pieces = Vec::new(alloc);
    for band in bands {
        add_pieces(&mut pieces, band)?;
    }
    Ok(pieces)
}

/// Adds the pieces of a band.
fn add_pieces<V: Drop>(pieces: &mut Vec<(Region, V)>, band: RowBand<V>) -> Result<(), OutOfMemory>
    ensures { OnOk result (pieces.new.items ≡ pieces.old.items ++ map (piece band.hash_from band.hash_to) band.ranges.items) }
{
    let RowBand {
        hash_from,
        hash_to,
        ranges,
    } = band;
    for range in ranges {
        let Range { from, to, value } = range;
        pieces.push((
            Region {
                hash_from,
                hash_to,
                from,
                to,
            },
            value,
        ))?;
    }
    Ok(())
}
