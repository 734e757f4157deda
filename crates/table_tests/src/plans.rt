//! The worked plans of the contract that a table begins with.
use crate::parts::{both, id, need_branch, table};
use contract_plan::{Plan, plan};
use contract_types::{Ack, Change, ServerAck};
use region_map::{Id, NodeId};
use std::alloc::Global;
use std::test::Fail;

/// The branch that is planned for the table's contract, with its maker, where one is.
fn planned(alloc: Global, acks: &[ServerAck]) -> Result<Option<(Id, NodeId)>, Fail> {
    let state = table(alloc, both())?;
    let contract = state.contracts().as_slice().first().ok_or("no contract")?;
    match plan(alloc, contract, &state, acks)? {
        Plan::Propose(Change::RegisterBranch { branch, maker, .. }) => Ok(Some((branch, maker))),
        _ => Ok(None),
    }
}

/// The acks by which servers need branches that are based on the first branch of node 0.
fn acks_of(alloc: Global, needs: &[(u8, Id)]) -> Result<Vec<ServerAck>, Fail> {
    let mut acks = Vec::new(alloc);
    for (server, branch) in needs {
        acks.push(need_branch(alloc, *server, *branch, id(0, 1, 0))?)?;
    }
    Ok(acks)
}

/// Whether servers that need these branches make this plan.
fn plans(alloc: Global, needs: &[(u8, Id)], branch: Option<(Id, NodeId)>) -> Result<bool, Fail> {
    let acks = acks_of(alloc, needs)?;
    let planned = planned(alloc, &acks)?;
    Ok(planned == branch)
}

#[test]
fn a_branch_that_the_primary_needs_is_registered(rt: HostRuntime) -> Result<(), Fail> {
    let alloc = rt.alloc();
    let new = id(0, 2, 0);
    let other = (1, id(1, 1, 5));
    assert!(rt; plans(alloc, &[], None)?);
    assert!(rt; plans(alloc, &[other, (0, new)], Some((new, NodeId(0))))?);
    assert!(rt; plans(alloc, &[other], None)?);
    assert!(rt; plans(alloc, &[(0, id(0, 1, 0))], None)?);
    Ok(())
}

fn keeps_at_ready(alloc: Global) -> Result<bool, Fail> {
    let ready = ServerAck {
        server: NodeId(0),
        ack: Ack::Ready,
    };
    let planned = planned(alloc, &[ready])?;
    Ok(planned == None)
}

#[test]
fn an_ack_that_needs_nothing_keeps_the_contract(rt: HostRuntime) -> Result<(), Fail> {
    assert!(rt; keeps_at_ready(rt.alloc())?);
    Ok(())
}
