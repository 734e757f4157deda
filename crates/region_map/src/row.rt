//! The ranges of keys that one hash has in a region map.
ghost use Rattle.std.specs.Prelude.{◌≡◌, ◌↔◌, ◌+◌, ◌≤◌, ◌<◌, length, drop, Option, IfOk, OnOk, IsTrue, false, if◌then◌else◌};
ghost use Rattle.region_map.specs.Regions.{is_bound};
ghost use Rattle.region_map.specs.Maps.{IsRange, IsRow};
ghost use Rattle.region_map.specs.Rows.{Precede, Puts, Emits, IsZipped};

use crate::Key;
use crate::bound::{copy_bound, is_range, is_same_bound};
use crate::stretch::{Stretch, end_of, is_sooner, sooner_of, value_of};
use crate::value::{Combine, MapValue};
use memory::OutOfMemory;
use std::alloc::Global;
use std::mem;

/// A range of keys with one value.
#[derive(Drop)]
pub struct Range<V> {
    pub from: Option<Key>,
    pub to: Option<Key>,
    pub value: V,
}

/// The range made longer, up to an end.
fn longer<V: Drop>(range: Range<V>, end: Option<Key>) -> Range<V>
    ensures { result ≡ record range { to = end } }
{
    let Range { from, to: _, value } = range;
    Range {
        from,
        to: end,
        value,
    }
}

/// Whether a range goes on with the value of the one before it.
fn joins<V: MapValue>(last: &Range<V>, next: &Range<V>) -> bool
    ensures { IsTrue result ↔ ((last.now.to ≡ next.now.from) × (last.now.value ≡ next.now.value)) }
{
    is_same_bound(&last.to, &next.from) && last.value.same(&next.value)
}

/// Puts a range behind the others of a row.
fn put<V: MapValue>(row: &mut Vec<Range<V>>, range: Range<V>) -> Result<(), OutOfMemory>
    requires row { IsRow row.old.items }
    requires range { IsRange range }
    requires behind { Precede row.old.items range.from }
    ensures { OnOk result (Puts row.old.items range row.new.items) }
{
    match row.pop() {
        None => row.push(range)?,
        Some(last) => {
            if joins(&last, &range) {
                let Range {
                    from: _,
                    to,
                    value: _,
                } = range;
                row.push(longer(last, to))?;
            } else {
                row.push(last)?;
                row.push(range)?;
            }
        }
    }
    Ok(())
}

/// Gives the keys from one bound up to another a value, or none, and moves the bound.
fn emit<V: MapValue>(
    row: &mut Vec<Range<V>>,
    alloc: Global,
    from: &mut Option<Key>,
    to: &Option<Key>,
    value: Option<V>,
) -> Result<(), OutOfMemory>
    requires row { IsRow row.old.items }
    requires bound { IsTrue (is_bound from.old) }
    requires behind { Precede row.old.items from.old }
    ensures { OnOk result (Emits row.old.items from.old to.now value row.new.items from.new) }
{
    if is_range(from, to) {
        let end = copy_bound(alloc, to)?;
        let begin = mem::replace(from, copy_bound(alloc, to)?);
        match value {
            None => {}
            Some(value) => put(
                row,
                Range {
                    from: begin,
                    to: end,
                    value,
                },
            )?,
        }
    }
    Ok(())
}

/// The place that the walk over a row goes to, if it does not stay.
fn next_place<V>(row: &[Stretch<V>], place: usize, stays: bool) -> usize
    requires { stays ≡ false → place < length row.now }
    ensures { result ≡ (if stays then place else place + 1) }
{
    if stays { place } else { place + 1 }
}

/// The row that two lists of stretches make together.
pub fn zipped<V, W, X: MapValue, F: Combine<V, W, X>>(
    alloc: Global,
    with: &F,
    a: &[Stretch<V>],
    b: &[Stretch<W>],
) -> Result<Vec<Range<X>>, OutOfMemory>
    ensures { IfOk result (λ row. IsZipped (F.combined with.now) a.now b.now row.items) }
{
    let mut row = Vec::new(alloc);
    let mut from = None;
    let mut i = 0;
    let mut j = 0;
    loop {
        let a_end = end_of(a, i);
        let b_end = end_of(b, j);
        let a_first = is_sooner(a_end, b_end);
        let b_first = is_sooner(b_end, a_end);
        let end = sooner_of(alloc, a_end, b_end)?;
        let a_value = value_of(a, i);
        let b_value = value_of(b, j);
        let value = with.combine(alloc, a_value, b_value)?;
        emit(&mut row, alloc, &mut from, &end, value)?;
        match end {
            None => return Ok(row),
            Some(_) => {}
        }
        i = next_place(a, i, b_first);
        j = next_place(b, j, a_first);
    }
}
