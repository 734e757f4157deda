//! What has a form as JSON.
ghost use Rattle.std.specs.Prelude.{◌≡◌, ℕ, Option, None, IfOk};
ghost use Rattle.json_base.specs.Forms.{Form, IsExact};
ghost use Rattle.serde_json.specs.Data.{null};
ghost use Rattle.serde_json.specs.View.{view};

use memory::OutOfMemory;
use serde_json::Value;
use std::alloc::Global;

/// A value that has a form as JSON. Of the values of the definitions only those that fit have one: what its type holds
/// of each value, and that each region map and each configuration in it has so many hashes.
pub trait JsonForm: Drop + Sized {
    ghost form: { Form Self };

    ghost fits: { ℕ → Self → Type 0 };

    /// The tree of the value.
    fn to_json(&self, alloc: Global) -> Result<Value, OutOfMemory>
        ensures { IfOk result (λ json. view json ≡ form.tree self.now) };

    /// The value whose tree this is, whose region maps have so many hashes; none where there is none.
    fn from_json(alloc: Global, json: &Value, hashes: u8) -> Result<Option<Self>, OutOfMemory>
        ensures { IfOk result (λ found. found ≡ form.read hashes (view json.now)) };

    ghost exact: { IsExact fits form };
}

/// A value whose tree is never `null`, which stands for none.
pub trait Present: JsonForm {
    ghost present: { (h : ℕ) → Self.form.read h null ≡ None };
}
