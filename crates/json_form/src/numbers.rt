//! Numbers and truth values.
use crate::{JsonForm, Present};
use memory::OutOfMemory;
use serde_json::Value;
use std::alloc::Global;

impl JsonForm for u64 {
    ghost use Rattle.json_base.specs.Numbers.{number_form, any_number, number_exact};

    ghost form = { number_form };

    ghost fits = { any_number };

    ghost exact = { number_exact };

    fn to_json(&self, _alloc: Global) -> Result<Value, OutOfMemory> {
        Ok(Value::from(*self))
    }

    fn from_json(_alloc: Global, json: &Value, _hashes: u8) -> Result<Option<u64>, OutOfMemory> {
        Ok(json.as_u64())
    }
}

impl JsonForm for u8 {
    ghost use Rattle.json_base.specs.Numbers.{byte_form, is_byte, byte_exact};

    ghost form = { byte_form };

    ghost fits = { is_byte };

    ghost exact = { byte_exact };

    fn to_json(&self, _alloc: Global) -> Result<Value, OutOfMemory> {
        Ok(Value::from(*self))
    }

    fn from_json(_alloc: Global, json: &Value, _hashes: u8) -> Result<Option<u8>, OutOfMemory> {
        match json.as_u64() {
            None => Ok(None),
            Some(number) => Ok(u8::try_from(number).ok()),
        }
    }
}

impl JsonForm for bool {
    ghost use Rattle.json_base.specs.Numbers.{truth_form, any_truth, truth_exact};

    ghost form = { truth_form };

    ghost fits = { any_truth };

    ghost exact = { truth_exact };

    fn to_json(&self, _alloc: Global) -> Result<Value, OutOfMemory> {
        Ok(Value::Bool(*self))
    }

    fn from_json(_alloc: Global, json: &Value, _hashes: u8) -> Result<Option<bool>, OutOfMemory> {
        Ok(json.as_bool())
    }
}

impl Present for u64 {
    ghost use Rattle.std.specs.Prelude.{refl};

    ghost present = { λ h. refl };
}

impl Present for u8 {
    ghost use Rattle.std.specs.Prelude.{refl};

    ghost present = { λ h. refl };
}

impl Present for bool {
    ghost use Rattle.std.specs.Prelude.{refl};

    ghost present = { λ h. refl };
}
