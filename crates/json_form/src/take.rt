//! The members of an object, read one after another as values.
ghost use Rattle.std.specs.Prelude.{◌≡◌, IfOk};
ghost use Rattle.json_base.specs.Forms.{others, read_first};
ghost use Rattle.json_base.specs.Left.{left};

use crate::JsonForm;
use json_base::Fields;
use memory::OutOfMemory;
use std::alloc::Global;

/// The next member as a value, if it has this name and is the tree of one.
pub fn take<T: JsonForm>(
    fields: &mut Fields<'_>,
    alloc: Global,
    name: &str,
    hashes: u8,
) -> Result<Option<T>, OutOfMemory>
    ensures value { IfOk result (λ found. found ≡ read_first name.now T.form hashes (left fields.old)) }
    ensures rest { left fields.new ≡ others (left fields.old) }
{
    match fields.next_named(name) {
        None => Ok(None),
        Some(json) => T::from_json(alloc, json, hashes),
    }
}
