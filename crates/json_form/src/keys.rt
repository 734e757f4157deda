//! Keys, values of registers, and regions.
use crate::take::take;
use crate::{JsonForm, Present};
use json_base::{Fields, bytes_from_json, bytes_to_json};
use memory::OutOfMemory;
use region_map::{Key, Region};
use register_laws::Value;
use serde_json::{Map, Value as Json, put};
use std::alloc::Global;

impl JsonForm for Key {
    ghost use Rattle.json_form.specs.Keys.{key_form, key_fits, key_exact};

    ghost form = { key_form };

    ghost fits = { key_fits };

    ghost exact = { key_exact };

    fn to_json(&self, alloc: Global) -> Result<Json, OutOfMemory> {
        bytes_to_json(alloc, self.as_bytes())
    }

    fn from_json(alloc: Global, json: &Json, hashes: u8) -> Result<Option<Key>, OutOfMemory> {
        match bytes_from_json(alloc, json, hashes)? {
            None => Ok(None),
            Some(bytes) => Ok(Key::new(bytes).ok()),
        }
    }
}

impl JsonForm for Value {
    ghost use Rattle.json_form.specs.Keys.{value_form, value_fits, value_exact};

    ghost form = { value_form };

    ghost fits = { value_fits };

    ghost exact = { value_exact };

    fn to_json(&self, alloc: Global) -> Result<Json, OutOfMemory> {
        bytes_to_json(alloc, self.as_bytes())
    }

    fn from_json(alloc: Global, json: &Json, hashes: u8) -> Result<Option<Value>, OutOfMemory> {
        match bytes_from_json(alloc, json, hashes)? {
            None => Ok(None),
            Some(bytes) => Ok(Value::new(bytes).ok()),
        }
    }
}

impl JsonForm for Region {
    ghost use Rattle.json_form.specs.Keys.{region_form, region_fits, region_exact};

    ghost form = { region_form };

    ghost fits = { region_fits };

    ghost exact = { region_exact };

    fn to_json(&self, alloc: Global) -> Result<Json, OutOfMemory> {
        let mut members = Map::new(alloc);
        put(&mut members, alloc, "from", self.from.to_json(alloc)?)?;
        put(
            &mut members,
            alloc,
            "hash_from",
            self.hash_from.to_json(alloc)?,
        )?;
        put(&mut members, alloc, "hash_to", self.hash_to.to_json(alloc)?)?;
        put(&mut members, alloc, "to", self.to.to_json(alloc)?)?;
        Ok(Json::Object(members))
    }

    fn from_json(alloc: Global, json: &Json, hashes: u8) -> Result<Option<Region>, OutOfMemory> {
        let Some(mut fields) = Fields::of(json) else {
            return Ok(None);
        };
        let Some(from) = take(&mut fields, alloc, "from", hashes)? else {
            return Ok(None);
        };
        let Some(hash_from) = take(&mut fields, alloc, "hash_from", hashes)? else {
            return Ok(None);
        };
        let Some(hash_to) = take(&mut fields, alloc, "hash_to", hashes)? else {
            return Ok(None);
        };
        let Some(to) = take(&mut fields, alloc, "to", hashes)? else {
            return Ok(None);
        };
        if !fields.is_end() {
            return Ok(None);
        }
        Ok(Some(Region {
            hash_from,
            hash_to,
            from,
            to,
        }))
    }
}

impl Present for Key {
    ghost use Rattle.std.specs.Prelude.{refl};

    ghost present = { λ h. refl };
}

impl Present for Value {
    ghost use Rattle.std.specs.Prelude.{refl};

    ghost present = { λ h. refl };
}
