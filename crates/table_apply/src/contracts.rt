//! Contracts that come in the place of others.
ghost use Rattle.std.specs.Prelude.{◌≡◌, ◌++◌, map, IfOk, OnOk};
ghost use Rattle.std.specs.List.{list_any};
ghost use Rattle.table_apply.specs.Conditions.{is_among, has_id, leaving, staying, same_bounds, same_regions, is_held_by, is_held, same_primaries, are_current, tile, may_follow, have_primaries, are_new};
ghost use Rattle.table_apply.specs.Effects.{tenure_from, placed};

use branch_history::version::is_same_id;
use contract_types::tiling::{Rule, allows_everywhere};
use contract_types::{Contract, Holder};
use memory::OutOfMemory;
use region_map::{Id, Key, NodeId, Region};
use std::alloc::Global;

fn is_among(ids: &[Id], id: &Id) -> bool
    ensures { result ≡ is_among ids.now id.now }
{
    ids.iter().any(|other| is_same_id(other, id))
}

fn has_id(contracts: &[Contract], id: &Id) -> bool
    ensures { result ≡ has_id contracts.now id.now }
{
    contracts.iter().any(|c| is_same_id(&c.id, id))
}

/// Whether each of these ids is that of a contract.
pub(crate) fn are_current(contracts: &[Contract], removed: &[Id]) -> bool
    ensures { result ≡ are_current contracts.now removed.now }
{
    removed.iter().all(|id| has_id(contracts, id))
}

/// The contracts that leave.
pub(crate) fn leaving(
    alloc: Global,
    contracts: &[Contract],
    removed: &[Id],
) -> Result<Vec<Contract>, OutOfMemory>
    ensures { IfOk result (λ v. v.items ≡ leaving contracts.now removed.now) }
{
    let mut found = Vec::new(alloc);
    for contract in contracts {
        if is_among(removed, &contract.id) {
            found.push(contract.copy(alloc)?)?;
        }
    }
    Ok(found)
}

/// The contracts that stay.
pub(crate) fn staying(
    alloc: Global,
    contracts: &[Contract],
    removed: &[Id],
) -> Result<Vec<Contract>, OutOfMemory>
    ensures { IfOk result (λ v. v.items ≡ staying contracts.now removed.now) }
{
    let mut found = Vec::new(alloc);
    for contract in contracts {
        if !is_among(removed, &contract.id) {
            found.push(contract.copy(alloc)?)?;
        }
    }
    Ok(found)
}

fn same_bounds(a: &Option<Key>, b: &Option<Key>) -> bool
    ensures { result ≡ same_bounds a.now b.now }
{
    match (a, b) {
        (None, None) => true,
        (Some(a), Some(b)) => a == b,
        _ => false,
    }
}

/// Whether two regions are the same.
pub fn same_regions(a: &Region, b: &Region) -> bool
    ensures { result ≡ same_regions a.now b.now }
{
    (a.hash_from == b.hash_from && a.hash_to == b.hash_to)
        && (same_bounds(&a.from, &b.from) && same_bounds(&a.to, &b.to))
}

/// Whether a server is the primary.
pub fn is_held_by(primary: &Option<Holder>, server: NodeId) -> bool
    ensures { result ≡ is_held_by primary.now server }
{
    match primary {
        None => false,
        Some(holder) => holder.server.0 == server.0,
    }
}

fn is_held(primary: &Option<Holder>) -> bool
    ensures { result ≡ is_held primary.now }
{
    primary.is_some()
}

fn same_primaries(a: &Option<Holder>, b: &Option<Holder>) -> bool
    ensures { result ≡ same_primaries a.now b.now }
{
    match (a, b) {
        (None, None) => true,
        (Some(a), Some(b)) => a.server.0 == b.server.0,
        _ => false,
    }
}

/// Whether no pair lies in two of the added regions, and each lies in one where it lies in one of the removed.
#[tactic(auto, unfolding(crate::specs::Conditions::tile))]
pub(crate) fn tile(added: &[Contract], removed: &[Contract]) -> bool
    ensures { result ≡ tile added.now removed.now }
{
    allows_everywhere(Rule::Tiles, added, removed)
}

/// Whether a contract with a primary may come in the place of another.
fn may_follow(contract: &Contract, old: &Contract) -> bool
    ensures { result ≡ may_follow contract.now old.now }
{
    same_regions(&old.region, &contract.region)
        && (!is_held(&old.primary) || same_primaries(&old.primary, &contract.primary))
}

fn may_follow_any(contract: &Contract, removed: &[Contract]) -> bool
    ensures { result ≡ list_any (may_follow contract.now) removed.now }
{
    removed.iter().any(|old| may_follow(contract, old))
}

/// Whether each added contract with a primary may come in the place of a removed one.
pub(crate) fn have_primaries(removed: &[Contract], added: &[Contract]) -> bool
    ensures { result ≡ have_primaries removed.now added.now }
{
    added
        .iter()
        .all(|c| !is_held(&c.primary) || may_follow_any(c, removed))
}

/// Whether no added id is that of a contract, or of another added one.
pub(crate) fn are_new(contracts: &[Contract], added: &[Contract]) -> bool
    ensures { result ≡ are_new contracts.now added.now }
{
    for place in 0..added.len() {
        let id = added[place].id;
        if has_id(contracts, &id) || has_id(&added[place + 1..], &id) {
            return false;
        }
    }
    true
}

/// The tenure that a contract goes on with, or begins.
fn tenure_from(removed: &[Contract], index: u64, contract: &Contract) -> u64
    ensures { result ≡ tenure_from removed.now index contract.now }
{
    for old in removed {
        if same_regions(&old.region, &contract.region)
            && same_primaries(&old.primary, &contract.primary)
        {
            return old.tenure;
        }
    }
    index
}

/// An added contract, as it stands in the table.
fn placed(
    alloc: Global,
    removed: &[Contract],
    index: u64,
    contract: &Contract,
) -> Result<Contract, OutOfMemory>
    ensures { IfOk result (λ c. c ≡ placed removed.now index contract.now) }
{
    let tenure = tenure_from(removed, index, contract);
    let mut copy = contract.copy(alloc)?;
    copy.since = index;
    copy.tenure = tenure;
    Ok(copy)
}

/// Puts the added contracts behind the others.
pub(crate) fn add_placed(
    alloc: Global,
    contracts: &mut Vec<Contract>,
    removed: &[Contract],
    index: u64,
    added: &[Contract],
) -> Result<(), OutOfMemory>
    ensures { OnOk result (contracts.new.items ≡ contracts.old.items ++ map (placed removed.now index) added.now) }
{
    for contract in added {
        contracts.push(placed(alloc, removed, index, contract)?)?;
    }
    Ok(())
}
