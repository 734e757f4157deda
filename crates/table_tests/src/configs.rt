//! The worked configurations, and what a table begins with.
use crate::parts::{id, key, keys, only, shard};
use contract_types::{ConfigRefused, IdSource, ShardConfig, TableConfig, TableState};
use region_map::{NodeId, NodeSet};
use std::alloc::Global;
use std::test::Fail;

/// Whether two nodes and one hash say this to shards.
fn says(alloc: Global, shards: Vec<ShardConfig>, refusal: Option<ConfigRefused>) -> bool {
    match TableConfig::new(alloc, 2, 1, shards) {
        Ok(_config) => refusal == None,
        Err(error) => refusal == Some(error),
    }
}

/// Whether they say this to one shard of the keys between two bounds.
fn says_to_one(
    alloc: Global,
    from: &str,
    to: &str,
    replicas: NodeSet,
    primary: u8,
    refusal: ConfigRefused,
) -> Result<bool, Fail> {
    let shards = vec![in alloc; shard(keys(alloc, from, to)?, replicas, primary)]?;
    Ok(says(alloc, shards, Some(refusal)))
}

/// Shards of node 0: the keys below one bound, and those from another one on.
fn two(alloc: Global, to: &str, from: &str) -> Result<Vec<ShardConfig>, Fail> {
    let low = shard(keys(alloc, "", to)?, only(0), 0);
    let high = shard(keys(alloc, from, "")?, only(0), 0);
    let shards = vec![in alloc; low, high]?;
    Ok(shards)
}

/// Whether the two nodes say this to these shards.
fn says_to_two(
    alloc: Global,
    to: &str,
    from: &str,
    refusal: Option<ConfigRefused>,
) -> Result<bool, Fail> {
    let shards = two(alloc, to, from)?;
    Ok(says(alloc, shards, refusal))
}

#[test]
fn the_first_broken_rule_is_named(rt: HostRuntime) -> Result<(), Fail> {
    let alloc = rt.alloc();
    assert!(rt; says(alloc, Vec::new(alloc), Some(ConfigRefused::NoShards)));
    for (from, to, node, primary, refusal) in [
        ("m", "m", 0, 0, ConfigRefused::Region),
        ("", "", 2, 2, ConfigRefused::Replicas),
        ("", "", 0, 1, ConfigRefused::Roles),
    ] {
        assert!(rt; says_to_one(alloc, from, to, only(node), primary, refusal)?);
    }
    for (to, from, refusal) in [
        ("n", "m", Some(ConfigRefused::Overlap)),
        ("m", "n", Some(ConfigRefused::Gap)),
        ("m", "m", None),
    ] {
        assert!(rt; says_to_two(alloc, to, from, refusal)?);
    }
    Ok(())
}

/// A table of two shards whose primary is node 0 has two contracts, and at "z" the branch of the second one.
fn begins_by_shards(alloc: Global) -> Result<bool, Fail> {
    let low = shard(keys(alloc, "", "m")?, only(1), 1);
    let high = shard(keys(alloc, "m", "")?, only(1), 1);
    let shards = vec![in alloc; low, high]?;
    let config = TableConfig::new(alloc, 2, 1, shards)?;
    let state = TableState::begin(alloc, config)?;
    let key = key(alloc, "z")?;
    let branch = id(1, 1, 1);
    Ok(
        state.contracts().as_slice().len() == 2
            && state.current().get(&key) == Some(&branch)
            && state.history().birth(&branch).is_some(),
    )
}

#[test]
fn a_table_begins_with_a_contract_and_a_branch_for_each_shard(rt: HostRuntime) -> Result<(), Fail> {
    assert!(rt; begins_by_shards(rt.alloc())?);
    Ok(())
}

#[test]
fn ids_end_where_the_numbers_end(rt: HostRuntime) -> Result<(), Fail> {
    let mut ids = IdSource {
        node: NodeId(3),
        life: 2,
        next: 4611686018427387902,
    };
    assert!(rt; ids.make().is_some() && ids.next == 4611686018427387903);
    assert!(rt; ids.make() == None && ids.next == 4611686018427387903);
    Ok(())
}
