//! The members of a line.
ghost use Rattle.std.specs.Prelude.{◌≡◌, List, map, option_map, string_bytes, bytes_eq};
ghost use Rattle.std.specs.List.{list_all, list_any};
ghost use Rattle.std.specs.Map.{keys_of};
ghost use Rattle.script_text.specs.Members.{number_in, number_or, text_in, op_in, node_at, node_in, node_or_none, truth_in, has_only};
ghost use Rattle.script_text.specs.Grammar.{key_of};
ghost use Rattle.script_text.specs.LineReads.{IsReadAs};
ghost use Rattle.serde_json.specs.Find.{get};
ghost use Rattle.serde_json.specs.View.{view};

use crate::Reason;
use crate::line_refused::LineRefused;
use contract_types::Setup;
use region_map::{Key, NodeId};
use register_laws::OpId;
use serde_json::{Map, Value};
use std::alloc::Global;

/// The number at a name.
pub(crate) fn number_in(name: &str, line: &Value) -> Option<u64>
    ensures { result ≡ number_in name.now (view line.now) }
{
    line.get(name).and_then(Value::as_u64)
}

/// The number at a name, or another where nothing stands there.
pub(crate) fn number_or(default: u64, name: &str, line: &Value) -> Option<u64>
    ensures { result ≡ number_or default (get name.now (view line.now)) }
{
    match line.get(name) {
        None => Some(default),
        Some(value) => value.as_u64(),
    }
}

/// The text at a name.
pub(crate) fn text_in<'v>(name: &str, line: &'v Value) -> Option<&'v str>
    ensures { option_map (λ s. s.now) result ≡ text_in name.now (view line.now) }
{
    line.get(name).and_then(Value::as_str)
}

/// The number of an operation at a name.
pub(crate) fn op_in(name: &str, line: &Value) -> Option<OpId>
    ensures { result ≡ op_in name.now (view line.now) }
{
    number_in(name, line).map(OpId)
}

/// The node at a name, if it is one of the table.
pub(crate) fn node_at(name: &str, setup: &Setup, line: &Value) -> Option<NodeId>
    ensures { result ≡ node_at name.now setup.now (view line.now) }
{
    let node = number_in(name, line)?;
    if node < setup.nodes() as u64 {
        Some(NodeId(node as u8))
    } else {
        None
    }
}

/// The node of a line, if it is one of the table.
pub(crate) fn node_in(setup: &Setup, line: &Value) -> Option<NodeId>
    ensures { result ≡ node_in setup.now (view line.now) }
{
    node_at("node", setup, line)
}

/// The node at a name, or none where nothing stands there.
pub(crate) fn node_or_none(name: &str, setup: &Setup, line: &Value) -> Option<Option<NodeId>>
    ensures { result ≡ node_or_none name.now setup.now (view line.now) }
{
    if line.get(name).is_none() {
        return Some(None);
    }
    let node = node_at(name, setup, line)?;
    Some(Some(node))
}

/// True or false, at a name.
pub(crate) fn truth_in(name: &str, line: &Value) -> Option<bool>
    ensures { result ≡ truth_in name.now (view line.now) }
{
    line.get(name).and_then(Value::as_bool)
}

/// A text as a key.
pub(crate) fn key_of(alloc: Global, text: &str) -> Result<Key, LineRefused>
    ensures { IsReadAs result (key_of text.now) }
{
    let bytes = Vec::from_slice(alloc, text.as_bytes())?;
    match Key::new(bytes) {
        Ok(key) => Ok(key),
        Err(_length) => Err(LineRefused::Because(Reason::KeyLength)),
    }
}

/// Whether each member of a line has one of these names.
pub(crate) fn has_only(names: &[&str], line: &Value) -> bool
    ensures { result ≡ has_only (map (λ s. s.now) names.now) (view line.now) }
{
    match line {
        Value::Object(members) => are_named(names, members),
        _ => false,
    }
}

/// Whether each key has one of these names.
fn are_named(names: &[&str], members: &Map<String, Value>) -> bool
    ensures { result
        ≡ list_all (λ key. list_any (λ name. bytes_eq (string_bytes key) name.now) names.now)
        (keys_of members.now.entries) }
{
    members.keys().all(|key| is_one_of(names, key.as_str()))
}

/// Whether a name is one of these.
fn is_one_of(names: &[&str], name: &str) -> bool
    ensures { result ≡ list_any (λ other. bytes_eq name.now other.now) names.now }
{
    names.iter().any(|other| name == *other)
}
