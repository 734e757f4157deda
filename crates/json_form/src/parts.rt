//! Optional values, lists and pairs.
ghost use Rattle.std.specs.Prelude.{◌≡◌, option_map, IfOk};
ghost use Rattle.json_base.specs.Parts.{read_items, list_form};
ghost use Rattle.serde_json.specs.View.{view, items_view};

use crate::{JsonForm, Present};
use json_base::pair_of;
use memory::OutOfMemory;
use serde_json::Value;
use std::alloc::Global;

impl<T: Present> JsonForm for Option<T> {
    ghost use Rattle.json_base.specs.Parts.{option_form, option_fits, option_exact};

    ghost form = { option_form T.form };

    ghost fits = { option_fits T.fits };

    ghost exact = { option_exact T.fits T.form T.present T.exact };

    fn to_json(&self, alloc: Global) -> Result<Value, OutOfMemory> {
        match self {
            None => Ok(Value::Null),
            Some(value) => value.to_json(alloc),
        }
    }

    fn from_json(
        alloc: Global,
        json: &Value,
        hashes: u8,
    ) -> Result<Option<Option<T>>, OutOfMemory> {
        if json.is_null() {
            return Ok(Some(None));
        }
        match T::from_json(alloc, json, hashes)? {
            None => Ok(None),
            Some(value) => Ok(Some(Some(value))),
        }
    }
}

/// The list of these values.
pub fn list_to_json<T: JsonForm>(alloc: Global, items: &[T]) -> Result<Value, OutOfMemory>
    ensures { IfOk result (λ json. view json ≡ (list_form T.form).tree items.now) }
{
    let mut list = Vec::new(alloc);
    for item in items {
        list.push(item.to_json(alloc)?)?;
    }
    Ok(Value::Array(list))
}

/// The values of these trees.
fn items_from_json<T: JsonForm>(
    alloc: Global,
    list: &[Value],
    hashes: u8,
) -> Result<Option<Vec<T>>, OutOfMemory>
    ensures { IfOk result (λ found. option_map (λ v. v.items) found ≡ read_items T.form hashes (items_view list.now)) }
{
    let mut items = Vec::new(alloc);
    for json in list {
        match T::from_json(alloc, json, hashes)? {
            None => return Ok(None),
            Some(item) => items.push(item)?,
        }
    }
    Ok(Some(items))
}

/// The values of a list.
pub fn list_from_json<T: JsonForm>(
    alloc: Global,
    json: &Value,
    hashes: u8,
) -> Result<Option<Vec<T>>, OutOfMemory>
    ensures { IfOk result (λ found. option_map (λ v. v.items) found ≡ (list_form T.form).read hashes (view json.now)) }
{
    match json.as_array() {
        None => Ok(None),
        Some(list) => items_from_json(alloc, list, hashes),
    }
}

impl<A: JsonForm, B: JsonForm> JsonForm for (A, B) {
    ghost use Rattle.json_base.specs.Objects.{both_fit};
    ghost use Rattle.json_base.specs.Parts.{pair_form, pair_exact};

    ghost form = { pair_form A.form B.form };

    ghost fits = { both_fit A.fits B.fits };

    ghost exact = { pair_exact A.fits A.form B.fits B.form A.exact B.exact };

    fn to_json(&self, alloc: Global) -> Result<Value, OutOfMemory> {
        let first = self.0.to_json(alloc)?;
        let second = self.1.to_json(alloc)?;
        let mut list = Vec::new(alloc);
        list.push(first)?;
        list.push(second)?;
        Ok(Value::Array(list))
    }

    fn from_json(alloc: Global, json: &Value, hashes: u8) -> Result<Option<(A, B)>, OutOfMemory> {
        let Some((first, second)) = pair_of(json) else {
            return Ok(None);
        };
        let Some(first) = A::from_json(alloc, first, hashes)? else {
            return Ok(None);
        };
        let Some(second) = B::from_json(alloc, second, hashes)? else {
            return Ok(None);
        };
        Ok(Some((first, second)))
    }
}
