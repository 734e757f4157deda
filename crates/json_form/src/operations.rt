//! Operations and replies.
use crate::JsonForm;
use crate::take::take;
use json_base::{Fields, is_word, payload, variant, word};
use memory::OutOfMemory;
use register_laws::{Op, Reply};
use serde_json::{Map, Value, put};
use std::alloc::Global;

impl JsonForm for Op {
    ghost use Rattle.json_form.specs.Operations.{operation_form, operation_fits, operation_exact};

    ghost form = { operation_form };

    ghost fits = { operation_fits };

    ghost exact = { operation_exact };

    fn to_json(&self, alloc: Global) -> Result<Value, OutOfMemory> {
        match self {
            Op::Put(value) => variant(alloc, "put", value.to_json(alloc)?),
            Op::Delete => word(alloc, "delete"),
            Op::Cas { expect, put: next } => {
                let mut members = Map::new(alloc);
                put(&mut members, alloc, "expect", expect.to_json(alloc)?)?;
                put(&mut members, alloc, "put", next.to_json(alloc)?)?;
                variant(alloc, "cas", Value::Object(members))
            }
            Op::Read => word(alloc, "read"),
        }
    }

    fn from_json(alloc: Global, json: &Value, hashes: u8) -> Result<Option<Op>, OutOfMemory> {
        if let Some(json) = payload(json, "put") {
            let Some(value) = JsonForm::from_json(alloc, json, hashes)? else {
                return Ok(None);
            };
            return Ok(Some(Op::Put(value)));
        }
        if is_word(json, "delete") {
            return Ok(Some(Op::Delete));
        }
        if let Some(json) = payload(json, "cas") {
            let Some(mut fields) = Fields::of(json) else {
                return Ok(None);
            };
            let Some(expect) = take(&mut fields, alloc, "expect", hashes)? else {
                return Ok(None);
            };
            let Some(next) = take(&mut fields, alloc, "put", hashes)? else {
                return Ok(None);
            };
            if !fields.is_end() {
                return Ok(None);
            }
            return Ok(Some(Op::Cas { expect, put: next }));
        }
        if is_word(json, "read") {
            return Ok(Some(Op::Read));
        }
        Ok(None)
    }
}

impl JsonForm for Reply {
    ghost use Rattle.json_form.specs.Operations.{reply_form, reply_fits, reply_exact};

    ghost form = { reply_form };

    ghost fits = { reply_fits };

    ghost exact = { reply_exact };

    fn to_json(&self, alloc: Global) -> Result<Value, OutOfMemory> {
        match self {
            Reply::Was(state) => variant(alloc, "was", state.to_json(alloc)?),
            Reply::Swapped => word(alloc, "swapped"),
            Reply::Kept(state) => variant(alloc, "kept", state.to_json(alloc)?),
        }
    }

    fn from_json(alloc: Global, json: &Value, hashes: u8) -> Result<Option<Reply>, OutOfMemory> {
        if let Some(json) = payload(json, "was") {
            let Some(state) = JsonForm::from_json(alloc, json, hashes)? else {
                return Ok(None);
            };
            return Ok(Some(Reply::Was(state)));
        }
        if is_word(json, "swapped") {
            return Ok(Some(Reply::Swapped));
        }
        if let Some(json) = payload(json, "kept") {
            let Some(state) = JsonForm::from_json(alloc, json, hashes)? else {
                return Ok(None);
            };
            return Ok(Some(Reply::Kept(state)));
        }
        Ok(None)
    }
}
