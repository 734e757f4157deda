//! The last acks, and the changes that they lead to.
ghost use Rattle.std.specs.Prelude.{◌≡◌, [], map, position, IfOk, OnOk, OnErr};
ghost use Rattle.region_map.specs.Equal.{same_id};
ghost use Rattle.coordinator.specs.Acks.{with_ack, acks_under};
ghost use Rattle.coordinator.specs.Proposals.{changes_for, proposals_of, without_used, after_proposals};

use crate::ServerAcks;
use branch_history::version::is_same_id;
use contract_plan::{Plan, plan};
use contract_types::{Ack, Change, Contract, ServerAck, TableState};
use memory::OutOfMemory;
use region_map::{Id, NodeId};
use std::alloc::Global;
use std::marker::Model;

/// The last acks that servers sent under a contract's id.
#[derive(Drop)]
pub struct ContractAcks {
    pub contract: Id,
    pub acks: ServerAcks,
}

/// The last ack of each server under each contract's id, in the order in which the ids were first named. They are few,
/// at most as many as contracts and nodes, so they are looked up one after the other.
#[derive(Drop)]
pub struct Acks {
    contracts: Vec<ContractAcks>,
}

impl Model for Acks {
    ghost use Rattle.std.specs.Prelude.{List};
    ghost use Rattle.coordinator.specs.declared.acks.ContractAcks.{ContractAcks};

    ghost Value = { List ContractAcks };

    ghost view = { λ a. a.contracts.items };
}

impl Acks {
    /// No acks: what a leader begins with.
    pub fn new(alloc: Global) -> Acks
        ensures { result ≡ [] }
    {
        Acks {
            contracts: Vec::new(alloc),
        }
    }

    /// Forgets all acks.
    pub fn clear(&mut self)
        ensures { self.new ≡ [] }
    {
        self.contracts.clear();
    }

    /// A server sent this ack under a contract's id. It comes in the place of the one before it.
    pub fn take(
        &mut self,
        alloc: Global,
        contract: Id,
        server: NodeId,
        ack: Ack,
    ) -> Result<(), OutOfMemory>
        ensures ok { OnOk result (self.new ≡ with_ack contract server ack self.old) }
        ensures err { OnErr result (self.new ≡ self.old) }
    {
        match place_of(&self.contracts, &contract) {
            Some(place) => {
                self.contracts[place].acks.put(server, ack)?;
                Ok(())
            }
            None => {
                let acks = ServerAcks::first(alloc, server, ack)?;
                self.contracts.push(ContractAcks { contract, acks })?;
                Ok(())
            }
        }
    }

    /// The changes that are planned for the contracts of the table, in table order. The acks that these plans rest on
    /// are forgotten, so none of them is used twice.
    pub fn proposals(
        &mut self,
        alloc: Global,
        state: &TableState,
    ) -> Result<Vec<Change>, OutOfMemory>
        ensures changes { IfOk result (λ changes. changes.items ≡ proposals_of self.old state.now) }
        ensures ok { OnOk result (self.new ≡ after_proposals self.old state.now) }
        ensures err { OnErr result (self.new ≡ self.old) }
    {
        let changes = changes_for(alloc, &self.contracts, state, state.contracts().as_slice())?;
        forget_used(&mut self.contracts, state);
        Ok(changes)
    }
}

/// The changes that are planned for these contracts.
fn changes_for(
    alloc: Global,
    acks: &[ContractAcks],
    state: &TableState,
    contracts: &[Contract],
) -> Result<Vec<Change>, OutOfMemory>
    ensures { IfOk result (λ changes. changes.items ≡ changes_for acks.now state.now contracts.now) }
{
    let mut changes = Vec::new(alloc);
    for contract in contracts {
        let plan = plan(alloc, contract, state, acks_under(acks, &contract.id))?;
        if let Plan::Propose(change) = plan {
            changes.push(change)?;
        }
    }
    Ok(changes)
}

/// The acks under a contract's id.
fn acks_under<'a>(acks: &'a [ContractAcks], contract: &Id) -> &'a [ServerAck]
    ensures { result.now ≡ acks_under acks.now contract.now }
{
    for kept in acks {
        if is_same_id(&kept.contract, contract) {
            return kept.acks.as_slice();
        }
    }
    &[]
}

/// Where the acks under a contract's id are.
fn place_of(acks: &[ContractAcks], contract: &Id) -> Option<usize>
    ensures { result ≡ position (λ c. same_id c.contract contract.now) acks.now }
{
    acks.iter()
        .position(|kept| is_same_id(&kept.contract, contract))
}

/// Forgets the acks that the plans for the contracts of the table rest on.
fn forget_used(acks: &mut [ContractAcks], state: &TableState)
    ensures { acks.new ≡ map (without_used state.now) acks.old }
{
    for kept in acks.iter_mut() {
        kept.acks.forget_used(state, &kept.contract);
    }
}
