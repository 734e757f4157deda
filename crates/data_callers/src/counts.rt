//! Counts of acks.
ghost use Rattle.std.specs.Prelude.{◌≡◌, ◌<◌, ◌*◌, ◌^◌, [], ◌∷◌, length, Some, None, IfOk, IfSome, OnOk, IsFalse};
ghost use Rattle.register_laws.specs.declared.operation.Reply.TheVariants.{Kept, Swapped};
ghost use Rattle.write_dispatch.specs.Dispatch.{with_ack};

use contract_types::{Contract, Counts};
use memory::OutOfMemory;
use region_map::NodeId;
use register_laws::{OpId, Reply};
use std::alloc::Global;
use write_dispatch::{Pending, are_majorities, repeated_ack_changes_nothing};

/// Half of the voters are no majority.
pub fn are_half_enough(counted: u8) -> bool
    requires { 2 * counted < 2 ^ 8 }
    ensures { IsFalse result }
{
    are_majorities(&Counts {
        voters: counted,
        of: 2 * counted,
        temp: None,
    })
}

/// Of no voters none is counted, whatever the replicas acknowledged.
pub fn count_of_none(pending: &Pending, at: u64, contract: &Contract, me: NodeId) -> u8
    requires { contract.now.voters ≡ [] }
    ensures { result ≡ 0 }
{
    pending.counts(at, contract, me).voters
}

/// An ack that comes twice is kept once.
pub fn count_twice(pending: &mut Pending, server: NodeId, view: u64, at: u64)
    requires { server.0 < length pending.old.acks }
    ensures { pending.new.acks ≡ with_ack pending.old.acks server.0 view at }
{
    repeated_ack_changes_nothing();
    pending.count_ack(server, view, at);
    pending.count_ack(server, view, at);
}

/// What waits keeps the reply that it got when it was dispatched.
pub fn dispatch_two(pending: &mut Pending, first: OpId, second: OpId) -> Result<(), OutOfMemory>
    requires { pending.old.waiting ≡ [] }
    ensures { OnOk result (pending.new.waiting
        ≡ record { op = Some first; at = 1; reply = Swapped } ∷ record { op = Some second; at = 2; reply = Kept None } ∷ []) }
{
    pending.dispatch(Some(first), 1, Reply::Swapped)?;
    pending.dispatch(Some(second), 2, Reply::Kept(None))?;
    Ok(())
}

/// Of two of one operation the first is given up.
pub fn left_of_two(
    alloc: Global,
    op: OpId,
    contract: &Contract,
    me: NodeId,
) -> Result<Option<u64>, OutOfMemory>
    ensures { IfOk result (λ left. IfSome left (λ at. at ≡ 2)) }
{
    let mut pending = Pending::new(alloc);
    pending.dispatch(Some(op), 1, Reply::Swapped)?;
    pending.dispatch(Some(op), 2, Reply::Swapped)?;
    match pending.give_up(op, contract, me) {
        Err(_) => Ok(None),
        Ok(_) => Ok(Some(pending.pending()[0].at)),
    }
}
