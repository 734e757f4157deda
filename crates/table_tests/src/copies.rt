//! Values of a table and their copies: what is seen of the one is seen of the other.
use crate::parts::{both, branches, everything, id, key, only, shard, versions};
use branch_history::Version;
use contract_types::{
    Ack, Change, Contract, Contracts, Holder, Ids, Setup, TableConfig, first_contract, setup_id,
};
use raft_vote::RaftEntry;
use region_map::{Id, Key, NodeId, NodeSet, Region, RegionMap};
use std::alloc::Global;
use std::test::Fail;

fn has_all_keys(region: &Region) -> bool {
    region.hash_from == 0 && region.hash_to == 1 && region.from.is_none() && region.to.is_none()
}

/// Two nodes, one hash, and one shard of both nodes with node 0 as its primary.
fn is_whole(config: &TableConfig) -> bool {
    let one_shard = match config.shards() {
        [only] => {
            only.replicas == both()
                && only.voters == both()
                && only.primary == NodeId(0)
                && has_all_keys(&only.region)
        }
        _ => false,
    };
    config.nodes() == 2 && config.hashes() == 1 && one_shard
}

fn sets_up_whole(setup: &Setup) -> bool {
    setup.nodes() == 2 && setup.hashes() == 1 && is_whole(setup.config())
}

fn setup_is_copied(alloc: Global) -> Result<bool, Fail> {
    let setup = Setup::whole(alloc, 2, 1)?;
    let copy = setup.copy(alloc)?;
    Ok(sets_up_whole(&setup) && sets_up_whole(&copy))
}

#[test]
fn a_setup_is_copied(rt: HostRuntime) -> Result<(), Fail> {
    assert!(rt; setup_is_copied(rt.alloc())?);
    Ok(())
}

/// The branch that node 1 begins with.
fn first() -> Id {
    setup_id(0, NodeId(1))
}

fn are_first(ids: &Ids) -> bool {
    matches!(ids.as_slice(), [only] if *only == first())
}

fn ids(alloc: Global) -> Result<Ids, Fail> {
    let items = vec![in alloc; first()]?;
    Ok(Ids::from(items))
}

fn ids_are_copied(alloc: Global) -> Result<bool, Fail> {
    let ids = ids(alloc)?;
    let copy = ids.copy(alloc)?;
    Ok(are_first(&ids) && are_first(&copy))
}

/// The first contract of a shard of node 1.
fn begins(contract: &Contract) -> bool {
    let holder = Holder {
        server: NodeId(1),
        hand_over: None,
    };
    contract.id == id(0, 0, 0)
        && has_all_keys(&contract.region)
        && contract.replicas == only(1)
        && contract.voters == only(1)
        && contract.temp_voters == None
        && contract.primary == Some(holder)
        && contract.since == 0
        && contract.tenure == 0
}

fn begin(contracts: &Contracts) -> bool {
    matches!(contracts.as_slice(), [only] if begins(only))
}

fn contracts(alloc: Global) -> Result<Contracts, Fail> {
    let shard = shard(everything(), only(1), 1);
    let mut contracts = Contracts::new(alloc);
    contracts.push(first_contract(alloc, 0, &shard)?)?;
    Ok(contracts)
}

fn contracts_are_copied(alloc: Global) -> Result<bool, Fail> {
    let contracts = contracts(alloc)?;
    let copy = contracts.copy(alloc)?;
    Ok(begin(&contracts) && begin(&copy))
}

#[test]
fn ids_and_contracts_are_copied(rt: HostRuntime) -> Result<(), Fail> {
    assert!(rt; ids_are_copied(rt.alloc())? && contracts_are_copied(rt.alloc())?);
    Ok(())
}

/// The first branch of node 1 at a key.
fn has_first(map: &RegionMap<Id>, key: &Key) -> bool {
    map.hashes() == 1 && map.get(key) == Some(&first())
}

/// The zero version at a key.
fn has_zero(map: &RegionMap<Version>, key: &Key) -> bool {
    map.hashes() == 1 && map.get(key) == Some(&Version::zero())
}

fn registration(alloc: Global) -> Result<Change, Fail> {
    let based_on = branches(alloc, first())?;
    let origin = versions(alloc, Version::zero())?;
    Ok(Change::RegisterBranch {
        branch: first(),
        region: everything(),
        tenure: 1,
        maker: NodeId(1),
        based_on,
        origin,
    })
}

/// The changes of this test by number, in the order of their variants.
fn change(alloc: Global, number: u8) -> Result<Change, Fail> {
    match number {
        0 => Ok(Change::Noop),
        1 => Ok(Change::SetConfig(TableConfig::whole(alloc, 2, 1)?)),
        2 => {
            let removed = ids(alloc)?;
            let added = contracts(alloc)?;
            Ok(Change::NewContracts { removed, added })
        }
        _ => registration(alloc),
    }
}

fn is_change(change: &Change, number: u8, key: &Key) -> bool {
    match change {
        Change::Noop => number == 0,
        Change::SetConfig(config) => number == 1 && is_whole(config),
        Change::NewContracts { removed, added } => {
            number == 2 && are_first(removed) && begin(added)
        }
        Change::RegisterBranch {
            branch,
            region,
            tenure,
            maker,
            based_on,
            origin,
        } => {
            number == 3
                && *branch == first()
                && has_all_keys(region)
                && *tenure == 1
                && *maker == NodeId(1)
                && has_first(based_on, key)
                && has_zero(origin, key)
        }
    }
}

fn change_is_copied(alloc: Global, number: u8) -> Result<bool, Fail> {
    let key = key(alloc, "k")?;
    let change = change(alloc, number)?;
    let copy = change.copy(alloc)?;
    Ok(is_change(&change, number, &key) && is_change(&copy, number, &key))
}

#[test]
fn a_change_is_copied(rt: HostRuntime) -> Result<(), Fail> {
    for number in 0..4 {
        assert!(rt; change_is_copied(rt.alloc(), number)?);
    }
    Ok(())
}

/// The acks of this test by number, in the order of their variants.
fn ack(alloc: Global, number: u8) -> Result<Ack, Fail> {
    match number {
        0 => {
            let based_on = branches(alloc, first())?;
            let origin = versions(alloc, Version::zero())?;
            Ok(Ack::NeedBranch {
                branch: first(),
                based_on,
                origin,
            })
        }
        1 => Ok(Ack::InProgress),
        2 => Ok(Ack::Ready),
        3 => {
            let versions = versions(alloc, Version::zero())?;
            Ok(Ack::NeedPrimary { versions })
        }
        4 => Ok(Ack::Backfilling),
        _ => Ok(Ack::Streaming),
    }
}

fn is_ack(ack: &Ack, number: u8, key: &Key) -> bool {
    match ack {
        Ack::NeedBranch {
            branch,
            based_on,
            origin,
        } => {
            number == 0 && *branch == first() && has_first(based_on, key) && has_zero(origin, key)
        }
        Ack::InProgress => number == 1,
        Ack::Ready => number == 2,
        Ack::NeedPrimary { versions } => number == 3 && has_zero(versions, key),
        Ack::Backfilling => number == 4,
        Ack::Streaming => number == 5,
    }
}

fn ack_is_copied(alloc: Global, number: u8) -> Result<bool, Fail> {
    let key = key(alloc, "k")?;
    let ack = ack(alloc, number)?;
    let copy = ack.copy(alloc)?;
    Ok(is_ack(&ack, number, &key) && is_ack(&copy, number, &key))
}

#[test]
fn an_ack_is_copied(rt: HostRuntime) -> Result<(), Fail> {
    for number in 0..6 {
        assert!(rt; ack_is_copied(rt.alloc(), number)?);
    }
    Ok(())
}
