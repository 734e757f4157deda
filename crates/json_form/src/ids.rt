//! Nodes, numbers of operations, and ids.
ghost use Rattle.std.specs.Prelude.{◌≡◌, option_map, IfOk};
ghost use Rattle.json_form.specs.Ids.{number_to_dot, id_of};

use crate::{JsonForm, Present};
use memory::OutOfMemory;
use region_map::{Id, NodeId};
use register_laws::OpId;
use serde_json::Value;
use std::alloc::Global;

impl JsonForm for NodeId {
    ghost use Rattle.json_form.specs.Ids.{node_form, node_fits, node_exact};

    ghost form = { node_form };

    ghost fits = { node_fits };

    ghost exact = { node_exact };

    fn to_json(&self, alloc: Global) -> Result<Value, OutOfMemory> {
        self.0.to_json(alloc)
    }

    fn from_json(alloc: Global, json: &Value, hashes: u8) -> Result<Option<NodeId>, OutOfMemory> {
        Ok(u8::from_json(alloc, json, hashes)?.map(NodeId))
    }
}

impl Present for NodeId {
    ghost use Rattle.std.specs.Prelude.{refl};

    ghost present = { λ h. refl };
}

impl JsonForm for OpId {
    ghost use Rattle.json_form.specs.Ids.{op_form, op_fits, op_exact};

    ghost form = { op_form };

    ghost fits = { op_fits };

    ghost exact = { op_exact };

    fn to_json(&self, alloc: Global) -> Result<Value, OutOfMemory> {
        self.0.to_json(alloc)
    }

    fn from_json(alloc: Global, json: &Value, hashes: u8) -> Result<Option<OpId>, OutOfMemory> {
        Ok(u64::from_json(alloc, json, hashes)?.map(OpId))
    }
}

/// The number that the digits up to a dot write, and what stands behind the dot.
fn number_to_dot(text: &[u8]) -> Option<(u64, &[u8])>
    ensures { option_map (λ p. (p.0, p.1.now)) result ≡ number_to_dot 0 text.now }
{
    let mut number = 0u64;
    for place in 0..text.len() {
        let byte = text[place];
        if byte == b'.' {
            return Some((number, &text[place + 1..]));
        }
        if !(48 <= byte && byte <= 57) {
            return None;
        }
        number = number.checked_mul(10)?.checked_add((byte - 48) as u64)?;
    }
    Some((number, &[]))
}

/// The id that a text is.
fn id_of(alloc: Global, text: &str) -> Result<Option<Id>, OutOfMemory>
    ensures { IfOk result (λ found. found ≡ id_of text.now) }
{
    let Some((node, rest)) = number_to_dot(text.as_bytes()) else {
        return Ok(None);
    };
    let Some((life, rest)) = number_to_dot(rest) else {
        return Ok(None);
    };
    let Some((counter, _)) = number_to_dot(rest) else {
        return Ok(None);
    };
    if node >= 256 {
        return Ok(None);
    }
    let id = Id {
        node: NodeId(node as u8),
        life,
        counter,
    };
    let written = format!(in alloc; "{id}")?;
    if written.as_str() == text {
        Ok(Some(id))
    } else {
        Ok(None)
    }
}

impl JsonForm for Id {
    ghost use Rattle.json_form.specs.Ids.{id_form, id_fits, id_exact};

    ghost form = { id_form };

    ghost fits = { id_fits };

    ghost exact = { id_exact };

    fn to_json(&self, alloc: Global) -> Result<Value, OutOfMemory> {
        Ok(Value::String(format!(in alloc; "{self}")?))
    }

    fn from_json(alloc: Global, json: &Value, _hashes: u8) -> Result<Option<Id>, OutOfMemory> {
        match json.as_str() {
            None => Ok(None),
            Some(text) => id_of(alloc, text),
        }
    }
}

impl Present for OpId {
    ghost use Rattle.std.specs.Prelude.{refl};

    ghost present = { λ h. refl };
}

impl Present for Id {
    ghost use Rattle.std.specs.Prelude.{refl};

    ghost present = { λ h. refl };
}
