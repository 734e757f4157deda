//! Variants, by their names.
ghost use Rattle.std.specs.Prelude.{◌≡◌, option_map, IfOk};
ghost use Rattle.json_base.specs.Choices.{is_word, payload};
ghost use Rattle.serde_json.specs.Data.{string, object, member, no_members};
ghost use Rattle.serde_json.specs.View.{view};

use crate::fields::Fields;
use memory::OutOfMemory;
use serde_json::{Map, Value, put};
use std::alloc::Global;

/// The tree of a variant without fields.
pub fn word(alloc: Global, name: &str) -> Result<Value, OutOfMemory>
    ensures { IfOk result (λ json. view json ≡ string name.now) }
{
    Ok(Value::try_from_str(alloc, name)?)
}

/// The tree of a variant with fields: an object with its name alone.
pub fn variant(alloc: Global, name: &str, fields: Value) -> Result<Value, OutOfMemory>
    ensures { IfOk result (λ json. view json ≡ object (member name.now (view fields) no_members)) }
{
    let mut members = Map::new(alloc);
    put(&mut members, alloc, name, fields)?;
    Ok(Value::Object(members))
}

/// Whether this is the variant without fields that has this name.
pub fn is_word(json: &Value, name: &str) -> bool
    ensures { result ≡ is_word name.now (view json.now) }
{
    match json.as_str() {
        None => false,
        Some(text) => text == name,
    }
}

/// The fields of the variant of this name, if it is that.
pub fn payload<'v>(json: &'v Value, name: &str) -> Option<&'v Value>
    ensures { option_map (λ v. view v.now) result ≡ payload name.now (view json.now) }
{
    let mut members = Fields::of(json)?;
    let fields = members.next_named(name)?;
    if members.is_end() { Some(fields) } else { None }
}
