//! The worked proposals for a table of two shards.
use crate::parts::{both, id, keys, need_branch, shard};
use contract_types::{Change, TableConfig, TableState};
use coordinator::Acks;
use region_map::{Id, NodeId};
use std::alloc::Global;
use std::test::Fail;

/// A table of two nodes and two shards: node 0 is the primary of the keys below "m", node 1 of the others.
fn table(alloc: Global) -> Result<TableState, Fail> {
    let low = shard(keys(alloc, "", "m")?, both(), 0);
    let high = shard(keys(alloc, "m", "")?, both(), 1);
    let shards = vec![in alloc; low, high]?;
    let config = TableConfig::new(alloc, 2, 1, shards)?;
    let state = TableState::begin(alloc, config)?;
    Ok(state)
}

/// A server asks for a branch under the contract that the shard of a place begins with.
#[derive(Clone, Copy)]
struct Asked {
    place: u64,
    server: u8,
    branch: Id,
}

fn ask(place: u64, server: u8, branch: Id) -> Asked {
    Asked {
        place,
        server,
        branch,
    }
}

/// The acks after these servers asked, in this order.
fn acks_of(alloc: Global, all: &[Asked]) -> Result<Acks, Fail> {
    let mut acks = Acks::new(alloc);
    for one in all {
        let asked = need_branch(alloc, one.server, one.branch, one.branch)?;
        acks.take(alloc, id(0, 0, one.place), asked.server, asked.ack)?;
    }
    Ok(acks)
}

/// The branches that are proposed, in order.
fn proposed(alloc: Global, acks: &mut Acks) -> Result<Vec<Id>, Fail> {
    let state = table(alloc)?;
    let mut branches = Vec::new(alloc);
    for change in &acks.proposals(alloc, &state)? {
        if let Change::RegisterBranch { branch, .. } = change {
            branches.push(*branch)?;
        }
    }
    Ok(branches)
}

/// Whether just these branches are proposed, in this order.
fn are_proposed(alloc: Global, acks: &mut Acks, branches: &[Id]) -> Result<bool, Fail> {
    let proposed = proposed(alloc, acks)?;
    Ok(proposed.as_slice() == branches)
}

/// Whether these servers make just these proposals, and none again.
fn lead_to(alloc: Global, asked: &[Asked], branches: &[Id]) -> Result<bool, Fail> {
    let mut acks = acks_of(alloc, asked)?;
    Ok(are_proposed(alloc, &mut acks, branches)? && are_proposed(alloc, &mut acks, &[])?)
}

#[test]
fn each_primary_has_its_branch_once_in_table_order(rt: HostRuntime) -> Result<(), Fail> {
    let alloc = rt.alloc();
    let low = id(0, 1, 7);
    let high = id(1, 1, 9);
    assert!(rt; lead_to(alloc, &[ask(1, 1, high), ask(0, 0, low)], &[low, high])?);
    Ok(())
}

#[test]
fn acks_that_ask_for_nothing_new_lead_to_nothing(rt: HostRuntime) -> Result<(), Fail> {
    let alloc = rt.alloc();
    let new = id(0, 1, 7);
    let registered = id(0, 1, 0);
    assert!(rt; lead_to(alloc, &[], &[])?);
    assert!(rt; lead_to(alloc, &[ask(0, 1, new), ask(5, 0, new)], &[])?);
    assert!(rt; lead_to(alloc, &[ask(0, 0, new), ask(0, 0, registered)], &[])?);
    Ok(())
}

/// Acks that were cleared lead to nothing.
fn forgets(alloc: Global) -> Result<bool, Fail> {
    let mut acks = acks_of(alloc, &[ask(0, 0, id(0, 1, 7))])?;
    acks.clear();
    are_proposed(alloc, &mut acks, &[])
}

#[test]
fn a_new_leader_has_no_acks(rt: HostRuntime) -> Result<(), Fail> {
    assert!(rt; forgets(rt.alloc())?);
    Ok(())
}
