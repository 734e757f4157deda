//! A branch that goes on from others.
ghost use Rattle.std.specs.Prelude.{◌≡◌, IfOk};
ghost use Rattle.branch_history.specs.Histories.{knows, knows_branch, knows_origins};
ghost use Rattle.table_apply.specs.Conditions.{has_tenure, is_based_on, is_new_branch, same_pieces};
ghost use Rattle.table_apply.specs.Effects.{greatest};

use crate::contracts::{is_held_by, same_regions};
use branch_history::version::is_same_id;
use branch_history::{History, Version};
use contract_types::{Contract, TableState};
use memory::OutOfMemory;
use region_map::{Id, NodeId, Region, RegionMap};
use std::alloc::Global;

/// Whether a contract has this region and tenure, and this primary.
pub(crate) fn has_tenure(
    contracts: &[Contract],
    region: &Region,
    tenure: u64,
    maker: NodeId,
) -> bool
    ensures { result ≡ has_tenure contracts.now region.now tenure maker }
{
    contracts.iter().any(|c| {
        same_regions(&c.region, region) && (c.tenure == tenure && is_held_by(&c.primary, maker))
    })
}

fn same_pieces(a: &[(Region, Id)], b: &[(Region, Id)]) -> bool
    ensures { result ≡ same_pieces a.now b.now }
{
    if a.len() != b.len() {
        return false;
    }
    for place in 0..a.len() {
        if !(same_regions(&a[place].0, &b[place].0) && is_same_id(&a[place].1, &b[place].1)) {
            return false;
        }
    }
    true
}

#[tactic(auto, unfolding(crate::specs::Conditions::is_based_on))]
/// Whether a map is that of the current branches on a region.
pub(crate) fn is_based_on(
    alloc: Global,
    state: &TableState,
    region: &Region,
    based_on: &RegionMap<Id>,
) -> Result<bool, OutOfMemory>
    ensures { IfOk result (λ b. b ≡ is_based_on state.now.config.hashes state.now.history region.now based_on.now) }
{
    let current = state.current();
    let hashes = current.hashes();
    if based_on.hashes() != hashes {
        return Ok(false);
    }
    let here = current.mask(alloc, region)?;
    let _hashes = here.hashes();
    Ok(same_pieces(here.pieces(), based_on.pieces()))
}

#[tactic(auto, using(crate::proofs::Based::knows_birth))]
fn is_known(history: &History, id: &Id) -> bool
    ensures { result ≡ knows history.now id.now }
{
    history.birth(id).is_some()
}

fn is_branch_known(history: &History, version: &Version) -> bool
    ensures { result ≡ knows_branch history.now version.now.branch }
{
    match &version.branch {
        None => true,
        Some(id) => is_known(history, id),
    }
}

/// Whether all branches that these versions name are registered.
fn are_known(history: &History, pieces: &[(Region, Version)]) -> bool
    ensures { result ≡ knows_origins history.now pieces.now }
{
    pieces
        .iter()
        .all(|piece| is_branch_known(history, &piece.1))
}

/// Whether a branch is new, and all that it goes on from is registered.
pub(crate) fn is_new_branch(history: &History, branch: &Id, origin: &RegionMap<Version>) -> bool
    ensures { result ≡ is_new_branch history.now branch.now origin.now.pieces }
{
    !is_known(history, branch) && are_known(history, origin.pieces())
}

/// The greatest timestamp of these.
pub(crate) fn greatest(pieces: &[(Region, Version)]) -> u64
    ensures { result ≡ greatest pieces.now }
{
    let mut most = 0;
    for piece in pieces {
        most = piece.1.timestamp.max(most);
    }
    most
}
