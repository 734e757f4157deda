//! Pending reads: each is pending as an operation, and its value stands apart until it is answered.
ghost use Rattle.std.specs.Prelude.{◌≡◌, ℕ, ◌+◌, Some, option_map, OnOk, OnErr, IsTrue};
ghost use Rattle.write_dispatch.specs.declared.decided.Decided.{Decided};
ghost use Rattle.write_dispatch.specs.Dispatch.{with_pending, pending_of, without_op, give_up_answer, all_below};
ghost use Rattle.majority_read.specs.Reads.{first_upto, behind_upto};
ghost use Rattle.primary_exec.specs.Reads.{with_read, with_reads, are_reads_of, IsKept, dispatch_with, without_read_at};

use contract_types::{Contract, Counts};
use majority_read::Reads;
use memory::OutOfMemory;
use region_map::NodeId;
use register_laws::{Op, OpId, Reply};
use write_dispatch::{Decided, GiveUpRefused, Pending};

/// An operation that took a timestamp above all earlier ones waits, with the register's reply. Of a read the value
/// stands with the reads.
pub fn dispatch(
    pending: &mut Pending,
    reads: &mut Reads,
    op: OpId,
    at: u64,
    what: &Op,
    reply: Reply,
) -> Result<(), OutOfMemory>
    requires { IsKept at pending.old.waiting reads.old }
    ensures pending { OnOk result (dispatch_with pending.new reads.new
        ≡ with_pending (dispatch_with pending.old reads.old) (Some op) at reply) }
    ensures kept { IsKept (at + 1) pending.new.waiting reads.new }
{
    match (what, reply) {
        (Op::Read, Reply::Was(value)) => {
            pending.dispatch(Some(op), at, Reply::Was(None))?;
            reads.ask(op, at, value)?;
            Ok(())
        }
        (_, reply) => {
            pending.dispatch(Some(op), at, reply)?;
            Ok(())
        }
    }
}

/// An operation that was decided, with its reply: the value of a read is taken from the reads.
pub fn with_its_read(done: Decided, reads: &mut Reads) -> Decided
    ensures done { result ≡ with_read done (first_upto done.at reads.old) }
    ensures reads { reads.new ≡ behind_upto done.at reads.old }
{
    match reads.take_upto(done.at) {
        None => done,
        Some((_, _, value)) => Decided {
            op: done.op,
            at: done.at,
            reply: Reply::Was(value),
        },
    }
}

/// The timestamp of the least pending one of an operation.
fn least_of(pending: &[Decided], op: OpId) -> Option<u64>
    ensures { result ≡ option_map (λ (d : Decided). d.at) (pending_of pending.now op) }
{
    for one in pending {
        if one.op == Some(op) {
            return Some(one.at);
        }
    }
    None
}

/// Drops the least read of an operation, where it took this timestamp.
fn drop_read_at(reads: &mut Reads, op: OpId, at: Option<u64>)
    ensures { reads.new ≡ without_read_at op at reads.old }
{
    if reads.sync_of(op) == at {
        let _ = reads.drop_read(op);
    }
}

/// Takes out the least pending one of an operation, with the value of a read, and answers its counts, which are no
/// majorities.
pub fn give_up(
    pending: &mut Pending,
    reads: &mut Reads,
    op: OpId,
    contract: &Contract,
    me: NodeId,
) -> Result<Counts, GiveUpRefused>
    requires { IsTrue (are_reads_of pending.old.waiting reads.old) }
    ensures answer { result
        ≡ give_up_answer pending.old.acks contract.now me.0 (pending_of (with_reads pending.old.waiting reads.old) op) }
    ensures ok { OnOk result (dispatch_with pending.new reads.new
        ≡ record pending.old { waiting = without_op (with_reads pending.old.waiting reads.old) op }) }
    ensures err { OnErr result (dispatch_with pending.new reads.new ≡ dispatch_with pending.old reads.old) }
    ensures below { (at : ℕ) → IsTrue (all_below at pending.old.waiting) → IsTrue (all_below at pending.new.waiting) }
    ensures reads { IsTrue (are_reads_of pending.new.waiting reads.new) }
{
    let at = least_of(pending.pending(), op);
    let counts = pending.give_up(op, contract, me)?;
    drop_read_at(reads, op, at);
    Ok(counts)
}
