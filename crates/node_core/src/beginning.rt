//! What a node begins with: of each shard its part.
ghost use Rattle.std.specs.Prelude.{◌≡◌, ◌++◌, ◌∷◌, [], IfOk, OnOk, if◌then◌else◌};
ghost use Rattle.region_map.specs.Nodes.{has};
ghost use Rattle.contract_types.specs.Tables.{first_id};
ghost use Rattle.store_api.specs.Versions.{point, replaced_map};
ghost use Rattle.node_core.specs.Step.{is_led, is_followed, executions_from, followings_from, versions_from};

use contract_types::{ShardConfig, first_contract, setup_id};
use memory::OutOfMemory;
use primary_exec::Primary;
use region_map::NodeId;
use secondary_exec::Following;
use std::alloc::Global;
use store_api::Store;
use store_plain::PlainStore;

/// Whether a shard has the node as its primary.
fn is_led(me: NodeId, shard: &ShardConfig) -> bool
    ensures { result ≡ is_led me.0 shard.now }
{
    shard.primary == me
}

/// Whether a shard has the node as a replica beside its primary.
fn is_followed(me: NodeId, shard: &ShardConfig) -> bool
    ensures { result ≡ is_followed me.0 shard.now }
{
    shard.replicas.has(me) && !is_led(me, shard)
}

/// Starts the execution of the shard of a place, where the node is its primary.
fn begin_execution(
    alloc: Global,
    place: u64,
    shard: &ShardConfig,
    me: NodeId,
    executions: &mut Vec<Primary>,
) -> Result<(), OutOfMemory>
    ensures { OnOk result (executions.new.items ≡ executions.old.items ++ executions_from me.0 place (shard.now ∷ [])) }
{
    if is_led(me, shard) {
        let contract = first_contract(alloc, place, shard)?;
        executions.push(Primary::setup(alloc, contract, shard.primary, place)?)?;
    }
    Ok(())
}

/// The executions of the shards that have the node as their primary.
pub fn begin_executions(
    alloc: Global,
    shards: &[ShardConfig],
    me: NodeId,
) -> Result<Vec<Primary>, OutOfMemory>
    ensures { IfOk result (λ executions. executions.items ≡ executions_from me.0 0 shards.now) }
{
    let mut executions = Vec::new(alloc);
    for place in 0..shards.len() {
        begin_execution(alloc, place as u64, &shards[place], me, &mut executions)?;
    }
    Ok(executions)
}

/// Begins to follow the primary of the shard of a place, where the node is another of its replicas.
fn begin_following(
    alloc: Global,
    place: u64,
    shard: &ShardConfig,
    me: NodeId,
    followings: &mut Vec<Following>,
) -> Result<(), OutOfMemory>
    ensures { OnOk result (followings.new.items ≡ followings.old.items ++ followings_from me.0 place (shard.now ∷ [])) }
{
    if is_followed(me, shard) {
        let contract = first_contract(alloc, place, shard)?;
        followings.push(Following::setup(alloc, &contract, shard.primary, me, place)?)?;
    }
    Ok(())
}

/// The followings of the shards that have the node as a replica beside their primary.
pub fn begin_followings(
    alloc: Global,
    shards: &[ShardConfig],
    me: NodeId,
) -> Result<Vec<Following>, OutOfMemory>
    ensures { IfOk result (λ followings. followings.items ≡ followings_from me.0 0 shards.now) }
{
    let mut followings = Vec::new(alloc);
    for place in 0..shards.len() {
        begin_following(alloc, place as u64, &shards[place], me, &mut followings)?;
    }
    Ok(followings)
}

/// Lets the node's store begin the first branch of the shard of a place, where the node is one of its replicas.
fn begin_branch(
    alloc: Global,
    place: u64,
    shard: &ShardConfig,
    me: NodeId,
    store: &mut PlainStore,
) -> Result<(), OutOfMemory>
    ensures rows { OnOk result (store.new.rows ≡ store.old.rows) }
    ensures versions { OnOk result (store.new.versions ≡ versions_from me.0 place (shard.now ∷ []) store.old.versions) }
{
    if shard.replicas.has(me) {
        store.start_branch(alloc, &shard.region, setup_id(place, shard.primary), 0)?;
    }
    Ok(())
}

/// Lets the node's store begin the first branches of the shards that have the node as a replica.
pub fn begin_branches(
    alloc: Global,
    shards: &[ShardConfig],
    me: NodeId,
    store: &mut PlainStore,
) -> Result<(), OutOfMemory>
    ensures rows { OnOk result (store.new.rows ≡ store.old.rows) }
    ensures versions { OnOk result (store.new.versions ≡ versions_from me.0 0 shards.now store.old.versions) }
{
    for place in 0..shards.len() {
        begin_branch(alloc, place as u64, &shards[place], me, store)?;
    }
    Ok(())
}
