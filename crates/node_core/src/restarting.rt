//! What a node begins with as it comes up again: as a primary it asks for a branch, as a secondary it waits to join.
ghost use Rattle.std.specs.Prelude.{◌≡◌, ◌<◌, ◌^◌, IfOk};
ghost use Rattle.node_core.specs.Step.{id_in, askings_from, primary_followed, waitings_from};

use contract_types::Contract;
use memory::OutOfMemory;
use primary_exec::Asking;
use region_map::{Id, NodeId};
use secondary_exec::Waiting;
use std::alloc::Global;
use table_apply::is_held_by;

/// The id of a counter that a node makes in one of its lives.
fn id_in(me: NodeId, life: u64, counter: u64) -> Id
    ensures { result ≡ id_in me life counter }
{
    Id {
        node: me,
        life,
        counter,
    }
}

/// A primary asks for a branch of its own in each of its contracts.
pub fn begin_askings(
    alloc: Global,
    me: NodeId,
    life: u64,
    contracts: &[Contract],
) -> Result<Vec<Asking>, OutOfMemory>
    ensures { IfOk result (λ askings. askings.items ≡ askings_from me life 0 contracts.now) }
{
    let mut askings = Vec::new(alloc);
    for contract in contracts {
        if is_held_by(&contract.primary, me) {
            askings.push(Asking {
                contract: contract.copy(alloc)?,
                branch: id_in(me, life, askings.len() as u64),
            })?;
        }
    }
    Ok(askings)
}

/// The primary, where it is another one, of a contract that has the node as a replica.
fn primary_followed(me: NodeId, contract: &Contract) -> Option<NodeId>
    ensures { result ≡ primary_followed me contract.now contract.now.primary }
{
    match contract.primary {
        None => None,
        Some(holder) => {
            if contract.replicas.has(me) && holder.server != me {
                Some(holder.server)
            } else {
                None
            }
        }
    }
}

/// A secondary waits, under ids from a counter on, for its primaries to let it join.
pub fn begin_waitings(
    alloc: Global,
    me: NodeId,
    life: u64,
    first: u64,
    contracts: &[Contract],
) -> Result<Vec<Waiting>, OutOfMemory>
    requires { first < 2 ^ 63 }
    ensures { IfOk result (λ waitings. waitings.items ≡ waitings_from me life first contracts.now) }
{
    let mut waitings = Vec::new(alloc);
    for contract in contracts {
        if let Some(primary) = primary_followed(me, contract) {
            let asked = id_in(me, life, first + waitings.len() as u64);
            waitings.push(Waiting::begin(alloc, contract, primary, asked)?)?;
        }
    }
    Ok(waitings)
}
