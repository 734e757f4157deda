//! A committed change is taken, or skipped.
ghost use Rattle.std.specs.Prelude.{◌≡◌, IfOk, OnErr};
ghost use Rattle.table_apply.specs.Effects.{applied_at, new_contracts, register, FitsTable};

use crate::branches::{greatest, has_tenure, is_based_on, is_new_branch};
use crate::contracts::{add_placed, are_current, are_new, have_primaries, leaving, staying, tile};
use branch_history::{BranchBirth, Version};
use contract_types::{Applied, Change, Condition, Contract, Contracts, TableState};
use memory::OutOfMemory;
use region_map::{Id, NodeId, Region, RegionMap};
use std::alloc::Global;

/// Applies the change at an index of the log. After want of memory the table is as before.
pub fn apply(
    alloc: Global,
    state: &mut TableState,
    index: u64,
    change: &Change,
) -> Result<Applied, OutOfMemory>
    requires { FitsTable state.old.config.hashes change.now }
    ensures ok { IfOk result (λ applied. record { table = state.new; applied = applied } ≡ applied_at state.old index change.now) }
    ensures err { OnErr result (state.new ≡ state.old) }
{
    match change {
        Change::Noop => Ok(Applied::Taken),
        Change::SetConfig(config) => {
            let config = config.copy(alloc)?;
            state.set_config(config);
            Ok(Applied::Taken)
        }
        Change::NewContracts { removed, added } => {
            let applied = new_contracts(alloc, state, index, removed.as_slice(), added.as_slice())?;
            Ok(applied)
        }
        Change::RegisterBranch {
            branch,
            region,
            tenure,
            maker,
            based_on,
            origin,
        } => {
            let applied = register(
                alloc, state, *branch, region, *tenure, *maker, based_on, origin,
            )?;
            Ok(applied)
        }
    }
}

fn new_contracts(
    alloc: Global,
    state: &mut TableState,
    index: u64,
    removed: &[Id],
    added: &[Contract],
) -> Result<Applied, OutOfMemory>
    ensures ok { IfOk result (λ applied. record { table = state.new; applied = applied } ≡ new_contracts state.old index removed.now added.now) }
    ensures err { OnErr result (state.new ≡ state.old) }
{
    let contracts = state.contracts().as_slice();
    if !are_current(contracts, removed) {
        return Ok(Applied::Skipped(Condition::Removed));
    }
    let gone = leaving(alloc, contracts, removed)?;
    if !tile(added, &gone) {
        return Ok(Applied::Skipped(Condition::Regions));
    }
    if !have_primaries(&gone, added) {
        return Ok(Applied::Skipped(Condition::Primary));
    }
    if !are_new(contracts, added) {
        return Ok(Applied::Skipped(Condition::IdNew));
    }
    let mut kept = staying(alloc, contracts, removed)?;
    add_placed(alloc, &mut kept, &gone, index, added)?;
    state.set_contracts(Contracts::from(kept));
    Ok(Applied::Taken)
}

fn register(
    alloc: Global,
    state: &mut TableState,
    branch: Id,
    region: &Region,
    tenure: u64,
    maker: NodeId,
    based_on: &RegionMap<Id>,
    origin: &RegionMap<Version>,
) -> Result<Applied, OutOfMemory>
    requires { origin.now.hashes ≡ state.old.config.hashes }
    ensures ok { IfOk result (λ applied. record { table = state.new; applied = applied }
        ≡ register state.old branch region.now tenure maker based_on.now origin.now) }
    ensures err { OnErr result (state.new ≡ state.old) }
{
    if !has_tenure(state.contracts().as_slice(), region, tenure, maker) {
        return Ok(Applied::Skipped(Condition::Tenure));
    }
    if !is_based_on(alloc, state, region, based_on)? {
        return Ok(Applied::Skipped(Condition::BasedOn));
    }
    if !is_new_branch(state.history(), &branch, origin) {
        return Ok(Applied::Skipped(Condition::IdNew));
    }
    let birth = BranchBirth {
        region: region.copy(alloc)?,
        initial: greatest(origin.pieces()),
        origin: origin.copy(alloc)?,
        tenure,
    };
    state.register(alloc, branch, birth)?;
    Ok(Applied::Taken)
}
