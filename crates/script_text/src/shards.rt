//! The shards that a setup asks for.
ghost use Rattle.std.specs.Prelude.{◌≡◌, ◌<◌, [], option_map, IfSome, IsTrue};
ghost use Rattle.contract_types.specs.Setup.{is_setup};
ghost use Rattle.script_text.specs.Members.{node_of, nodes_with, nodes_of, nodes_or, hash_at, band_of, band_or};
ghost use Rattle.script_text.specs.Grammar.{from_or, to_or, region_of, shard_of, shards_from, shards_of, config_of, setup_with};
ghost use Rattle.script_text.specs.LineReads.{IsReadAs, AreReadAs};
ghost use Rattle.serde_json.specs.View.{view, items_view};

use crate::Reason;
use crate::line_refused::LineRefused;
use crate::members::key_of;
use contract_types::{Setup, ShardConfig, TableConfig};
use region_map::{Key, NodeId, NodeSet, Region};
use serde_json::Value;
use std::alloc::Global;

/// A node by its number.
pub(crate) fn node_of(value: &Value) -> Option<NodeId>
    ensures value { result ≡ node_of (view value.now) }
    ensures small { IfSome result (λ node. node.0 < 64) }
{
    let node = value.as_u64()?;
    if node < 64 {
        Some(NodeId(node as u8))
    } else {
        None
    }
}

/// The set of these nodes.
fn set_of(items: &[Value]) -> Option<NodeSet>
    ensures { result ≡ nodes_with [] (items_view items.now) }
{
    let mut set = NodeSet::empty();
    for item in items {
        set = set.with(node_of(item)?);
    }
    Some(set)
}

/// The nodes of a list, each of which counts once.
pub(crate) fn nodes_of(list: &Value) -> Option<NodeSet>
    ensures { result ≡ nodes_of (view list.now) }
{
    set_of(list.as_array()?)
}

/// The nodes of a list, or others where there is none.
fn nodes_or(default: NodeSet, list: Option<&Value>) -> Option<NodeSet>
    ensures { result ≡ nodes_or default (option_map (λ v. view v.now) list.entry) }
{
    match list {
        None => Some(default),
        Some(list) => nodes_of(list),
    }
}

/// The number of hashes at a place of a pair.
fn hash_at(place: usize, pair: &Value) -> Option<u8>
    ensures { result ≡ hash_at place (view pair.now) }
{
    let hash = pair.get(place).and_then(Value::as_u64)?;
    if hash < 64 { Some(hash as u8) } else { None }
}

/// The two hashes of a pair.
fn band_of(pair: &Value) -> Option<(u8, u8)>
    ensures { result ≡ band_of (view pair.now) }
{
    let from = hash_at(0, pair)?;
    let to = hash_at(1, pair)?;
    if pair.get(2usize).is_some() {
        return None;
    }
    Some((from, to))
}

/// The two hashes of a pair, or all hashes where there is none.
pub(crate) fn band_or(hashes: u8, pair: Option<&Value>) -> Option<(u8, u8)>
    ensures { result ≡ band_or hashes (option_map (λ v. view v.now) pair.entry) }
{
    match pair {
        None => Some((0, hashes)),
        Some(pair) => band_of(pair),
    }
}

/// Where a shard begins: at the least key where nothing stands.
fn from_or(alloc: Global, from: Option<&Value>) -> Result<Option<Key>, LineRefused>
    ensures { IsReadAs result (from_or (option_map (λ v. view v.now) from.entry)) }
{
    let Some(from) = from else {
        return Ok(None);
    };
    let text = from.as_str().ok_or(Reason::Member)?;
    if text.is_empty() {
        return Ok(None);
    }
    let key = key_of(alloc, text)?;
    Ok(Some(key))
}

/// Where a shard ends: nowhere where nothing stands.
fn to_or(alloc: Global, to: Option<&Value>) -> Result<Option<Key>, LineRefused>
    ensures { IsReadAs result (to_or (option_map (λ v. view v.now) to.entry)) }
{
    let Some(to) = to else {
        return Ok(None);
    };
    if to.is_null() {
        return Ok(None);
    }
    let text = to.as_str().ok_or(Reason::Member)?;
    let key = key_of(alloc, text)?;
    Ok(Some(key))
}

/// The region of a shard.
fn region_of(alloc: Global, hashes: u8, shard: &Value) -> Result<Region, LineRefused>
    ensures { IsReadAs result (region_of hashes (view shard.now)) }
{
    let (hash_from, hash_to) = band_or(hashes, shard.get("hash")).ok_or(Reason::Member)?;
    let from = from_or(alloc, shard.get("from"))?;
    let to = to_or(alloc, shard.get("to"))?;
    Ok(Region {
        hash_from,
        hash_to,
        from,
        to,
    })
}

/// One shard.
fn shard_of(alloc: Global, hashes: u8, shard: &Value) -> Result<ShardConfig, LineRefused>
    ensures { IsReadAs result (shard_of hashes (view shard.now)) }
{
    let region = region_of(alloc, hashes, shard)?;
    let replicas = shard
        .get("replicas")
        .and_then(nodes_of)
        .ok_or(Reason::Member)?;
    let voters = nodes_or(replicas, shard.get("voters")).ok_or(Reason::Member)?;
    let primary = shard
        .get("primary")
        .and_then(node_of)
        .ok_or(Reason::Member)?;
    Ok(ShardConfig {
        region,
        replicas,
        voters,
        primary,
    })
}

/// These shards.
#[tactic(auto, using(crate::proofs::ShardLaws::after_nothing, crate::proofs::ShardLaws::after_both))]
fn shards_from(alloc: Global, hashes: u8, items: &[Value]) -> Result<Vec<ShardConfig>, LineRefused>
    ensures { AreReadAs result (shards_from hashes (items_view items.now)) }
{
    let mut shards = Vec::new(alloc);
    for item in items {
        shards.push(shard_of(alloc, hashes, item)?)?;
    }
    Ok(shards)
}

/// The shards of a list.
fn shards_of(alloc: Global, hashes: u8, list: &Value) -> Result<Vec<ShardConfig>, LineRefused>
    ensures { AreReadAs result (shards_of hashes (view list.now)) }
{
    let items = list.as_array().ok_or(Reason::Member)?;
    shards_from(alloc, hashes, items)
}

/// These shards as a configuration, if they break no rule.
fn config_of(
    alloc: Global,
    nodes: u8,
    hashes: u8,
    shards: Vec<ShardConfig>,
) -> Result<TableConfig, LineRefused>
    ensures { IsReadAs result (config_of nodes hashes shards.items) }
{
    let config = TableConfig::new(alloc, nodes, hashes, shards)?;
    Ok(config)
}

/// What a table of so many nodes and hashes begins with: these shards, or one of all keys.
pub(crate) fn setup_with(
    alloc: Global,
    nodes: u8,
    hashes: u8,
    shards: Option<&Value>,
) -> Result<Setup, LineRefused>
    requires { IsTrue (is_setup nodes hashes) }
    ensures { IsReadAs result (setup_with nodes hashes (option_map (λ v. view v.now) shards.entry)) }
{
    match shards {
        None => Ok(Setup::whole(alloc, nodes, hashes)?),
        Some(list) => {
            let shards = shards_of(alloc, hashes, list)?;
            let config = config_of(alloc, nodes, hashes, shards)?;
            Ok(Setup::new(config))
        }
    }
}
