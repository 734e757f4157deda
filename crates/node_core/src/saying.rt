//! What a node says at a tick of the contracts of which it is a replica.
ghost use Rattle.std.specs.Prelude.{◌≡◌, ◌++◌, IfOk, OnOk};
ghost use Rattle.std.specs.List.{list_any};
ghost use Rattle.node_core.specs.Saying.{is_waiting_under, is_following_under, asking_ack, execution_ack, waiting_ack, following_ack, ack_under, says_to, acknowledges, says_under, says_all};
ghost use Rattle.node_core.specs.Step.{ack_fits};

use branch_history::version::is_same_id;
use contract_types::{Ack, Contract};
use exec_types::{Message, Output, Outputs};
use memory::OutOfMemory;
use primary_exec::{Asking, Primary};
use region_map::{Id, NodeId, RegionMap};
use secondary_exec::{Following, Waiting};
use std::alloc::Global;
use store_api::Store;
use store_plain::PlainStore;
use table_apply::same_regions;

/// Whether the maps of an ack have so many hashes.
pub fn ack_fits(hashes: u8, ack: &Ack) -> bool
    ensures { result ≡ ack_fits hashes ack.now }
{
    match ack {
        Ack::NeedBranch {
            based_on,
            origin,
            ..
        } => based_on.hashes() == hashes && origin.hashes() == hashes,
        Ack::InProgress => true,
        Ack::Ready => true,
        Ack::NeedPrimary { versions } => versions.hashes() == hashes,
        Ack::Backfilling => true,
        Ack::Streaming => true,
    }
}

/// What a primary that waits for its branch under a contract says, if there is one.
fn asking_ack(
    alloc: Global,
    contract: &Contract,
    current: &RegionMap<Id>,
    store: &PlainStore,
    asking: &[Asking],
) -> Result<Option<Ack>, OutOfMemory>
    ensures { IfOk result (λ ack. ack ≡ asking_ack contract.now current.now store.now.versions asking.now) }
{
    for asks in asking {
        if is_same_id(&asks.contract.id, &contract.id) {
            return Ok(Some(asks.ack(alloc, current, store)?));
        }
    }
    Ok(None)
}

/// What a started execution of a contract says, if there is one.
fn execution_ack(contract: &Contract, executions: &[Primary]) -> Option<Ack>
    ensures { result ≡ execution_ack contract.now executions.now }
{
    for execution in executions {
        if is_same_id(&execution.contract().id, &contract.id) {
            return Some(execution.ack());
        }
    }
    None
}

/// Whether a secondary waits for this primary to let it join, in the contract's region and tenure.
fn is_waiting_under(contract: &Contract, primary: NodeId, waiting: &Waiting) -> bool
    ensures { result ≡ is_waiting_under contract.now primary waiting.now }
{
    waiting.primary == primary
        && same_regions(&waiting.region, &contract.region)
        && waiting.tenure == contract.tenure
}

/// Whether a secondary follows this primary in the contract's region.
fn is_following_under(contract: &Contract, primary: NodeId, following: &Following) -> bool
    ensures { result ≡ is_following_under contract.now primary following.now }
{
    following.primary == primary && same_regions(&following.region, &contract.region)
}

/// Whether one of these waits for the primary under the contract.
fn waits_under(contract: &Contract, primary: NodeId, waiting: &[Waiting]) -> bool
    ensures { result ≡ list_any (is_waiting_under contract.now primary) waiting.now }
{
    waiting
        .iter()
        .any(|waits| is_waiting_under(contract, primary, waits))
}

/// What a secondary says that waits to join, if there is one.
fn waiting_ack(contract: &Contract, primary: NodeId, waiting: &[Waiting]) -> Option<Ack>
    ensures { result ≡ waiting_ack contract.now primary waiting.now }
{
    if waits_under(contract, primary, waiting) {
        Some(Ack::Backfilling)
    } else {
        None
    }
}

/// Whether one of these follows the primary under the contract.
fn follows_under(contract: &Contract, primary: NodeId, followings: &[Following]) -> bool
    ensures { result ≡ list_any (is_following_under contract.now primary) followings.now }
{
    followings
        .iter()
        .any(|follows| is_following_under(contract, primary, follows))
}

/// What a secondary says that joined, if there is one.
fn following_ack(contract: &Contract, primary: NodeId, followings: &[Following]) -> Option<Ack>
    ensures { result ≡ following_ack contract.now primary followings.now }
{
    if follows_under(contract, primary, followings) {
        Some(Ack::Streaming)
    } else {
        None
    }
}

/// How far a node is under a contract of which it is a replica.
fn ack_under(
    alloc: Global,
    me: NodeId,
    current: &RegionMap<Id>,
    store: &PlainStore,
    asking: &[Asking],
    executions: &[Primary],
    waiting: &[Waiting],
    followings: &[Following],
    contract: &Contract,
) -> Result<Option<Ack>, OutOfMemory>
    ensures { IfOk result (λ ack. ack ≡ ack_under me current.now store.now.versions
        (record { asking = asking.now; executions = executions.now; waiting = waiting.now; followings = followings.now })
        contract.now contract.now.primary) }
{
    let Some(holder) = contract.primary else {
        let versions = store.versions(alloc, &contract.region)?;
        return Ok(Some(Ack::NeedPrimary { versions }));
    };
    if holder.server == me {
        match asking_ack(alloc, contract, current, store, asking)? {
            Some(ack) => Ok(Some(ack)),
            None => Ok(execution_ack(contract, executions)),
        }
    } else {
        match waiting_ack(contract, holder.server, waiting) {
            Some(ack) => Ok(Some(ack)),
            None => Ok(following_ack(contract, holder.server, followings)),
        }
    }
}

/// Sends an ack, if there is one, to the leader, if one is known.
fn say_to(
    leader: Option<NodeId>,
    contract: &Contract,
    ack: Option<Ack>,
    out: &mut Outputs,
) -> Result<(), OutOfMemory>
    ensures { OnOk result (out.new ≡ out.old ++ says_to leader contract.now ack) }
{
    let Some(to) = leader else {
        return Ok(());
    };
    let Some(ack) = ack else {
        return Ok(());
    };
    out.push(Output::Message {
        to,
        message: Message::Say {
            contract: contract.id,
            ack,
        },
    })?;
    Ok(())
}

/// A secondary that joined tells the primary of a contract how far it came.
fn acknowledge(
    contract: &Contract,
    view: u64,
    followings: &[Following],
    out: &mut Outputs,
) -> Result<(), OutOfMemory>
    ensures { OnOk result (out.new ≡ out.old ++ acknowledges contract.now view followings.now contract.now.primary) }
{
    let Some(holder) = contract.primary else {
        return Ok(());
    };
    for following in followings {
        if is_following_under(contract, holder.server, following) {
            following.acknowledge(view, out)?;
        }
    }
    Ok(())
}

/// What a node says of one contract, where it is one of its replicas.
fn say_under(
    alloc: Global,
    me: NodeId,
    leader: Option<NodeId>,
    current: &RegionMap<Id>,
    store: &PlainStore,
    view: u64,
    asking: &[Asking],
    executions: &[Primary],
    waiting: &[Waiting],
    followings: &[Following],
    contract: &Contract,
    out: &mut Outputs,
) -> Result<(), OutOfMemory>
    ensures { OnOk result (out.new ≡ out.old ++ says_under me leader current.now store.now.versions view
        (record { asking = asking.now; executions = executions.now; waiting = waiting.now; followings = followings.now })
        contract.now) }
{
    if !contract.replicas.has(me) {
        return Ok(());
    }
    let ack = ack_under(
        alloc, me, current, store, asking, executions, waiting, followings, contract,
    )?;
    say_to(leader, contract, ack, out)?;
    acknowledge(contract, view, followings, out)?;
    Ok(())
}

/// What a node says of each contract of which it is a replica, in table order.
pub fn say_all(
    alloc: Global,
    me: NodeId,
    leader: Option<NodeId>,
    current: &RegionMap<Id>,
    store: &PlainStore,
    view: u64,
    asking: &[Asking],
    executions: &[Primary],
    waiting: &[Waiting],
    followings: &[Following],
    contracts: &[Contract],
    out: &mut Outputs,
) -> Result<(), OutOfMemory>
    ensures { OnOk result (out.new ≡ out.old ++ says_all me leader current.now store.now.versions view
        (record { asking = asking.now; executions = executions.now; waiting = waiting.now; followings = followings.now })
        contracts.now) }
{
    for contract in contracts {
        say_under(
            alloc, me, leader, current, store, view, asking, executions, waiting, followings,
            contract, out,
        )?;
    }
    Ok(())
}
