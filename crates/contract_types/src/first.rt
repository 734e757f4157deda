//! The contracts and branches that a table begins with.
ghost use Rattle.std.specs.Prelude.{◌≡◌, ◌+◌, [], ◌∷◌, not, IsTrue, IfOk, OnOk};
ghost use Rattle.contract_types.specs.Configs.{is_bad_region};
ghost use Rattle.contract_types.specs.Tables.{IsKept, IsBegun, first_contract, first_contracts, setup_id, first_id, first_birth, first_branches, zero_origin};

use crate::table::add_branch;
use crate::{Contract, Contracts, Holder, ShardConfig, TableConfig};
use branch_history::{BranchBirth, History, Version};
use memory::OutOfMemory;
use region_map::bound::is_known;
use region_map::{Id, NodeId, Region, RegionMap};
use std::alloc::Global;

/// The contract that the shard of a place, from 0, begins with.
pub fn first_contract(
    alloc: Global,
    place: u64,
    shard: &ShardConfig,
) -> Result<Contract, OutOfMemory>
    ensures { IfOk result (λ contract. contract ≡ first_contract place shard.now) }
{
    Ok(Contract {
        id: Id {
            node: NodeId(0),
            life: 0,
            counter: place,
        },
        region: shard.region.copy(alloc)?,
        replicas: shard.replicas,
        voters: shard.voters,
        temp_voters: None,
        primary: Some(Holder {
            server: shard.primary,
            hand_over: None,
        }),
        since: 0,
        tenure: 0,
    })
}

/// The contracts that these shards begin with, in their order.
pub(crate) fn first_contracts(
    alloc: Global,
    shards: &[ShardConfig],
) -> Result<Contracts, OutOfMemory>
    ensures { IfOk result (λ contracts. contracts ≡ first_contracts 0 shards.now) }
{
    let mut contracts = Vec::new(alloc);
    for place in 0..shards.len() {
        contracts.push(first_contract(alloc, place as u64, &shards[place])?)?;
    }
    Ok(Contracts::from(contracts))
}

/// The id that a node has made in its first life for the shard of a place, from 0: of the shard's first branch, and of
/// what it asked for and opened of the sessions with which the table begins.
pub fn setup_id(place: u64, node: NodeId) -> Id
    ensures { result ≡ setup_id place node }
{
    Id {
        node,
        life: 1,
        counter: place,
    }
}

/// The zero version on a region.
fn zero_origin(
    alloc: Global,
    region: &Region,
    hashes: u8,
) -> Result<RegionMap<Version>, OutOfMemory>
    requires { IsTrue (not (is_bad_region hashes region.now)) }
    ensures { IfOk result (λ origin. origin ≡ zero_origin hashes region.now) }
{
    is_known(&region.from);
    is_known(&region.to);
    let origin = RegionMap::constant(alloc, region.copy(alloc)?, hashes, Version::zero())?;
    let _hashes = origin.hashes();
    Ok(origin)
}

#[tactic(auto, using(crate::proofs::Begins::begun_next, crate::proofs::Begins::below_unknown))]
/// Adds the branch that a shard begins with.
fn begin_branch(
    alloc: Global,
    hashes: u8,
    place: u64,
    shard: &ShardConfig,
    history: &mut History,
    current: &mut RegionMap<Id>,
) -> Result<(), OutOfMemory>
    requires region { IsTrue (not (is_bad_region hashes shard.now.region)) }
    requires begun { IsBegun hashes place history.old current.old }
    ensures history { OnOk result (history.new ≡ (first_id place shard.now, first_birth hashes shard.now) ∷ history.old) }
    ensures begun { OnOk result (IsBegun hashes (place + 1) history.new current.new) }
{
    let id = setup_id(place, shard.primary);
    let birth = BranchBirth {
        region: shard.region.copy(alloc)?,
        initial: 0,
        origin: zero_origin(alloc, &shard.region, hashes)?,
        tenure: 0,
    };
    current.set(alloc, &shard.region, id)?;
    add_branch(history, id, birth)?;
    Ok(())
}

/// The branches that these shards begin with, and the map of the current ones.
pub(crate) fn first_branches(
    alloc: Global,
    config: &TableConfig,
) -> Result<(History, RegionMap<Id>), OutOfMemory>
    ensures history { IfOk result (λ r. r.0 ≡ first_branches config.now.hashes 0 config.now.shards []) }
    ensures kept { IfOk result (λ r. IsKept config.now.hashes r.0 r.1) }
{
    let hashes = config.hashes();
    let shards = config.shards();
    let everything = Region {
        hash_from: 0,
        hash_to: hashes,
        from: None,
        to: None,
    };
    let nobody = Id {
        node: NodeId(0),
        life: 0,
        counter: 0,
    };
    let mut history = History::new(alloc);
    let mut current = RegionMap::constant(alloc, everything, hashes, nobody)?;
    for place in 0..shards.len() {
        begin_branch(
            alloc,
            hashes,
            place as u64,
            &shards[place],
            &mut history,
            &mut current,
        )?;
    }
    Ok((history, current))
}
