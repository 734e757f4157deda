//! What the tables of the tests are made of: two nodes, one hash, and keys cut at "m".
ghost use Rattle.std.specs.Prelude.{◌≡◌, IfOk};

use branch_history::Version;
use contract_types::{Ack, ServerAck, ShardConfig, TableConfig, TableState};
use region_map::{Id, Key, NodeId, NodeSet, Region, RegionMap};
use std::alloc::Global;
use std::test::Fail;

pub fn id(node: u8, life: u64, counter: u64) -> Id {
    Id {
        node: NodeId(node),
        life,
        counter,
    }
}

/// The key of a text.
pub fn key(alloc: Global, text: &str) -> Result<Key, Fail> {
    let bytes = Vec::from_slice(alloc, text.as_bytes())?;
    let key = Key::new(bytes)?;
    Ok(key)
}

/// A bound of a region: the empty text is none.
fn bound(alloc: Global, text: &str) -> Result<Option<Key>, Fail> {
    if text.is_empty() {
        return Ok(None);
    }
    let key = key(alloc, text)?;
    Ok(Some(key))
}

/// The keys from one bound to another.
pub fn keys(alloc: Global, from: &str, to: &str) -> Result<Region, Fail> {
    let from = bound(alloc, from)?;
    let to = bound(alloc, to)?;
    Ok(Region {
        hash_from: 0,
        hash_to: 1,
        from,
        to,
    })
}

pub fn everything() -> Region {
    Region {
        hash_from: 0,
        hash_to: 1,
        from: None,
        to: None,
    }
}

/// The nodes 0 and 1.
pub fn both() -> NodeSet {
    NodeSet::empty().with(NodeId(0)).with(NodeId(1))
}

/// One node; of a number that is none, no node.
pub fn only(node: u8) -> NodeSet {
    if node < 64 {
        NodeSet::empty().with(NodeId(node))
    } else {
        NodeSet::empty()
    }
}

/// A shard with these replicas, which all vote.
pub fn shard(region: Region, replicas: NodeSet, primary: u8) -> ShardConfig {
    ShardConfig {
        region,
        replicas,
        voters: replicas,
        primary: NodeId(primary),
    }
}

/// A table of two nodes and one shard with these replicas, whose primary is node 0.
pub fn table(alloc: Global, replicas: NodeSet) -> Result<TableState, Fail>
    ensures { IfOk result (λ t. t.config.hashes ≡ 1) }
{
    let shards = vec![in alloc; shard(everything(), replicas, 0)]?;
    let config = TableConfig::new(alloc, 2, 1, shards)?;
    let state = TableState::begin(alloc, config)?;
    Ok(state)
}

/// One branch at all keys.
pub fn branches(alloc: Global, id: Id) -> Result<RegionMap<Id>, Fail>
    ensures { IfOk result (λ m. m.hashes ≡ 1) }
{
    let map = RegionMap::constant(alloc, everything(), 1, id)?;
    Ok(map)
}

/// One version at all keys.
pub fn versions(alloc: Global, version: Version) -> Result<RegionMap<Version>, Fail>
    ensures { IfOk result (λ m. m.hashes ≡ 1) }
{
    let map = RegionMap::constant(alloc, everything(), 1, version)?;
    Ok(map)
}

/// A server needs a branch that goes on from nothing, based on another one.
pub fn need_branch(alloc: Global, server: u8, branch: Id, based_on: Id) -> Result<ServerAck, Fail> {
    let based_on = branches(alloc, based_on)?;
    let origin = versions(alloc, Version::zero())?;
    Ok(ServerAck {
        server: NodeId(server),
        ack: Ack::NeedBranch {
            branch,
            based_on,
            origin,
        },
    })
}
