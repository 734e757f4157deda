//! A table of one node: what it proposes is committed at once, and acted on when it catches up.
use crate::parts::{branches, everything, id, key, versions};
use branch_history::Version;
use contract_types::{Applied, Change, Condition, TableConfig};
use raft_node::RaftInput;
use region_map::{Id, NodeId, NodeSet};
use std::alloc::Global;
use std::test::Fail;
use table_log::TableLog;

/// The branches of node 0 in its first life.
fn branch(counter: u64) -> Id {
    id(0, 1, counter)
}

/// The log of a table of one node, after a tick, at which the node is elected.
fn elected(alloc: Global) -> Result<TableLog, Fail> {
    let config = TableConfig::whole(alloc, 1, 1)?;
    let log = TableLog::begin(alloc, config, NodeId(0))?;
    let unseen = NodeSet::empty();
    let (log, _sent) = log.step(alloc, RaftInput::Tick { unseen })?;
    Ok(log)
}

/// Node 0 begins a branch of all keys, which it based on the one that the table began with.
fn second_branch(alloc: Global) -> Result<Change, Fail> {
    let based_on = branches(alloc, branch(0))?;
    let origin = versions(alloc, Version::zero())?;
    Ok(Change::RegisterBranch {
        branch: branch(1),
        region: everything(),
        tenure: 0,
        maker: NodeId(0),
        based_on,
        origin,
    })
}

/// Proposes it, and gives its index.
fn propose(alloc: Global, log: &mut TableLog) -> Result<Option<u64>, Fail> {
    let change = second_branch(alloc)?;
    if !log.fits(&change) {
        return Ok(None);
    }
    Ok(log.propose(change).ok())
}

/// Catches up, and gives the index of the one change that it acts on, with what became of it.
fn act(alloc: Global, log: &mut TableLog) -> Result<Option<(u64, Applied)>, Fail> {
    match log.catch_up(alloc)? {
        None => Ok(None),
        Some(viewed) => match viewed.results.as_slice() {
            [only] => Ok(Some((viewed.first, only.1))),
            _ => Ok(None),
        },
    }
}

/// Whether the table has the second branch as the current one of a key.
fn has_second_branch(alloc: Global, log: &TableLog) -> Result<bool, Fail> {
    let key = key(alloc, "k")?;
    Ok(log.table().current().get(&key) == Some(&branch(1)))
}

fn acts_on_its_empty_change(alloc: Global) -> Result<bool, Fail> {
    let mut log = elected(alloc)?;
    let leads = log.is_leader() && log.has_news();
    let first = act(alloc, &mut log)?;
    let second = act(alloc, &mut log)?;
    Ok(leads && first == Some((1, Applied::Taken)) && second == None)
}

#[test]
fn a_leader_acts_on_its_empty_change(rt: HostRuntime) -> Result<(), Fail> {
    assert!(rt; acts_on_its_empty_change(rt.alloc())?);
    Ok(())
}

/// A branch is proposed twice: the second time it is not based on the current one.
fn registers_once(alloc: Global, log: &mut TableLog) -> Result<bool, Fail> {
    let _first = act(alloc, log)?;
    let index = propose(alloc, log)?;
    let taken = act(alloc, log)?;
    let _index = propose(alloc, log)?;
    let skipped = act(alloc, log)?;
    Ok(
        index == Some(2)
            && taken == Some((2, Applied::Taken))
            && skipped == Some((3, Applied::Skipped(Condition::BasedOn)))
            && has_second_branch(alloc, log)?,
    )
}

/// After a crash the log and the table are the same, and no leader is known.
fn comes_back(alloc: Global, log: TableLog) -> Result<bool, Fail> {
    let log = log.restart(alloc)?;
    let follows = !log.is_leader() && log.leader() == None;
    let has_all = log.term() == 1 && log.last_index() == 3 && log.acted() == 3;
    Ok(follows && has_all && has_second_branch(alloc, &log)?)
}

fn registers_and_comes_back(alloc: Global) -> Result<bool, Fail> {
    let mut log = elected(alloc)?;
    Ok(registers_once(alloc, &mut log)? && comes_back(alloc, log)?)
}

#[test]
fn a_branch_is_registered_once_and_stays_over_a_crash(rt: HostRuntime) -> Result<(), Fail> {
    assert!(rt; registers_and_comes_back(rt.alloc())?);
    Ok(())
}
