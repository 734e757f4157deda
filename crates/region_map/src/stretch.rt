//! The stretches of keys that one hash has in a region map, those without a value among them.
ghost use Rattle.std.specs.Prelude.{◌≡◌, ◌+◌, ◌≤◌, ◌<◌, ◌++◌, length, drop, [], ◌∷◌, IfOk, OnOk, Some};
ghost use Rattle.std.specs.Option.{option_copied};
ghost use Rattle.region_map.specs.Rows.{at_hash, gap, ranges_at, stretches_of, head_value, head_end, sooner, sooner_of};

use crate::bound::{copy_bound, is_before};
use crate::value::MapValue;
use crate::{Key, Region};
use memory::OutOfMemory;
use std::alloc::Global;

/// The keys up to an end, behind those of the stretch before, and their value, if they have one.
#[derive(Drop)]
pub struct Stretch<V> {
    pub value: Option<V>,
    pub to: Option<Key>,
}

/// The stretches that a hash has in a map of these pieces.
pub fn stretches_at<V: MapValue>(
    alloc: Global,
    pieces: &[(Region, V)],
    hash: u8,
) -> Result<Vec<Stretch<V>>, OutOfMemory>
    ensures { IfOk result (λ row. row.items ≡ stretches_of (ranges_at pieces.now hash)) }
{
    let mut row = Vec::new(alloc);
    for piece in pieces {
        if has_hash(&piece.0, hash) {
            add_gap(&mut row, alloc, &piece.0.from)?;
            add_value(&mut row, alloc, &piece.1, &piece.0.to)?;
        }
    }
    Ok(row)
}

/// Whether a region has keys of a hash.
fn has_hash(region: &Region, hash: u8) -> bool
    ensures { result ≡ at_hash region.now hash }
{
    region.hash_from <= hash && hash < region.hash_to
}

/// Adds the stretch without a value up to the begin of a range.
fn add_gap<V: MapValue>(
    row: &mut Vec<Stretch<V>>,
    alloc: Global,
    from: &Option<Key>,
) -> Result<(), OutOfMemory>
    ensures { OnOk result (row.new.items ≡ row.old.items ++ gap from.now) }
{
    match from {
        None => {}
        Some(bound) => row.push(Stretch {
            value: None,
            to: Some(bound.copy(alloc)?),
        })?,
    }
    Ok(())
}

/// Adds the stretch with a value up to an end.
fn add_value<V: MapValue>(
    row: &mut Vec<Stretch<V>>,
    alloc: Global,
    value: &V,
    to: &Option<Key>,
) -> Result<(), OutOfMemory>
    ensures { OnOk result (row.new.items ≡ row.old.items ++ record { value = Some value.now; to = to.now } ∷ []) }
{
    let value = value.copy(alloc)?;
    let to = copy_bound(alloc, to)?;
    row.push(Stretch {
        value: Some(value),
        to,
    })?;
    Ok(())
}

/// The value of the stretch at a place, of which there is none behind the last.
pub fn value_of<V>(row: &[Stretch<V>], place: usize) -> Option<&V>
    ensures { option_copied result ≡ head_value (drop place row.now) }
{
    if place < row.len() {
        row[place].value.as_ref()
    } else {
        None
    }
}

/// The end of the stretch at a place, of which there is none behind the last.
pub fn end_of<V>(row: &[Stretch<V>], place: usize) -> Option<&Key>
    ensures { option_copied result ≡ head_end (drop place row.now) }
{
    if place < row.len() {
        row[place].to.as_ref()
    } else {
        None
    }
}

/// Whether an end comes before another.
pub fn is_sooner(a: Option<&Key>, b: Option<&Key>) -> bool
    ensures { result ≡ sooner (option_copied a.entry) (option_copied b.entry) }
{
    match a {
        None => false,
        Some(a) => match b {
            None => true,
            Some(b) => is_before(a, b),
        },
    }
}

/// The sooner of two ends.
pub fn sooner_of(
    alloc: Global,
    a: Option<&Key>,
    b: Option<&Key>,
) -> Result<Option<Key>, OutOfMemory>
    ensures { IfOk result (λ end. end ≡ sooner_of (option_copied a.entry) (option_copied b.entry)) }
{
    let sooner = if is_sooner(b, a) { b } else { a };
    match sooner {
        None => Ok(None),
        Some(key) => Ok(Some(key.copy(alloc)?)),
    }
}
