//! The rules of planning.
ghost use Rattle.std.specs.Prelude.{◌≡◌, IfOk, option_copied};
ghost use Rattle.branch_history.specs.Histories.{knows};
ghost use Rattle.table_apply.specs.Conditions.{is_held_by};
ghost use Rattle.contract_plan.specs.Plans.{ack_in, planned, plan_of, registers, rests_on, wants_branch};

use crate::Plan;
use branch_history::{History, Version};
use contract_types::{Ack, Change, Contract, Holder, ServerAck, TableState};
use memory::OutOfMemory;
use region_map::{Id, NodeId, RegionMap};
use std::alloc::Global;

/// What is planned for a contract of the table. The acks are those that servers sent last under the contract's id; if
/// a server stands there twice, its first one counts.
pub fn plan(
    alloc: Global,
    contract: &Contract,
    state: &TableState,
    acks: &[ServerAck],
) -> Result<Plan, OutOfMemory>
    ensures { IfOk result (λ plan. plan ≡ plan_of contract.now state.now (ack_in acks.now)) }
{
    match &contract.primary {
        None => Ok(Plan::Keep),
        Some(holder) => {
            let ack = ack_in(acks, holder.server);
            let plan = planned(alloc, contract, holder.server, state.history(), ack)?;
            Ok(plan)
        }
    }
}

/// Whether the plan for a contract rests on this ack, if the server sent it last under the contract's id.
pub fn rests_on(contract: &Contract, state: &TableState, server: NodeId, ack: &Ack) -> bool
    ensures { result ≡ rests_on contract.now state.now.history server ack.now }
{
    is_held_by(&contract.primary, server) && wants_branch(state.history(), ack)
}

/// The ack of a server: the first that stands there.
fn ack_in(acks: &[ServerAck], server: NodeId) -> Option<&Ack>
    ensures { option_copied result ≡ ack_in acks.now server }
{
    for ack in acks {
        if ack.server.0 == server.0 {
            return Some(&ack.ack);
        }
    }
    None
}

/// What is planned by the last ack of the primary.
fn planned(
    alloc: Global,
    contract: &Contract,
    maker: NodeId,
    history: &History,
    ack: Option<&Ack>,
) -> Result<Plan, OutOfMemory>
    ensures { IfOk result (λ plan. plan ≡ planned contract.now maker history.now (option_copied ack.entry)) }
{
    match ack {
        Some(
            Ack::NeedBranch {
                branch,
                based_on,
                origin,
            },
        ) => {
            let plan = registers(alloc, contract, maker, history, branch, based_on, origin)?;
            Ok(plan)
        }
        _ => Ok(Plan::Keep),
    }
}

/// A branch that the primary needs is registered, unless it is already.
fn registers(
    alloc: Global,
    contract: &Contract,
    maker: NodeId,
    history: &History,
    branch: &Id,
    based_on: &RegionMap<Id>,
    origin: &RegionMap<Version>,
) -> Result<Plan, OutOfMemory>
    ensures { IfOk result (λ plan. plan ≡ registers contract.now maker history.now branch.now based_on.now origin.now) }
{
    if is_known(history, branch) {
        return Ok(Plan::Keep);
    }
    let region = contract.region.copy(alloc)?;
    let based_on = based_on.copy(alloc)?;
    let origin = origin.copy(alloc)?;
    Ok(Plan::Propose(Change::RegisterBranch {
        branch: *branch,
        region,
        tenure: contract.tenure,
        maker,
        based_on,
        origin,
    }))
}

/// Whether an ack asks for a branch that is not registered.
fn wants_branch(history: &History, ack: &Ack) -> bool
    ensures { result ≡ wants_branch history.now ack.now }
{
    match ack {
        Ack::NeedBranch { branch, .. } => !is_known(history, branch),
        _ => false,
    }
}

#[tactic(auto, using(table_apply::proofs::Based::knows_birth))]
fn is_known(history: &History, id: &Id) -> bool
    ensures { result ≡ knows history.now id.now }
{
    history.birth(id).is_some()
}

fn is_held_by(primary: &Option<Holder>, server: NodeId) -> bool
    ensures { result ≡ is_held_by primary.now server }
{
    match primary {
        None => false,
        Some(holder) => holder.server.0 == server.0,
    }
}
