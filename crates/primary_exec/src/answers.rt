//! Answers to pending operations.
ghost use Rattle.std.specs.Prelude.{◌≡◌, ℕ, ◌++◌, OnOk, IsTrue};
ghost use Rattle.write_dispatch.specs.Dispatch.{is_decided, pending_of, all_below};
ghost use Rattle.primary_exec.specs.Execution.{answers, answers_under, undecided_under, given_up, without_given_up};
ghost use Rattle.primary_exec.specs.Reads.{with_reads, are_reads_of, dispatch_with};

use crate::reads::{give_up, with_its_read};
use contract_types::Contract;
use exec_types::{Outcome, Output, Outputs};
use majority_read::Reads;
use memory::OutOfMemory;
use region_map::{Id, NodeId};
use register_laws::OpId;
use write_dispatch::{Decided, Pending, are_majorities};

/// Whether a timestamp is decided under a contract.
pub fn is_decided(pending: &Pending, at: u64, contract: &Contract, me: NodeId) -> bool
    ensures { result ≡ is_decided pending.now.acks contract.now me.0 at }
{
    let counts = pending.counts(at, contract, me);
    are_majorities(&counts)
}

/// Answers one operation that was decided; a sync has none to answer.
fn answer(done: Decided, branch: Id, out: &mut Outputs) -> Result<(), OutOfMemory>
    ensures { OnOk result (out.new ≡ out.old ++ answers branch done done.op) }
{
    match done.op {
        None => Ok(()),
        Some(op) => {
            out.push(Output::Answer {
                op,
                outcome: Outcome::Done {
                    reply: done.reply,
                    branch,
                    timestamp: done.at,
                },
            })?;
            Ok(())
        }
    }
}

/// Answers each pending operation that is decided, in the order of their timestamps.
pub fn answer_decided(
    pending: &mut Pending,
    reads: &mut Reads,
    contract: &Contract,
    me: NodeId,
    branch: Id,
    out: &mut Outputs,
) -> Result<(), OutOfMemory>
    requires { IsTrue (are_reads_of pending.old.waiting reads.old) }
    ensures pending { OnOk result (dispatch_with pending.new reads.new
        ≡ record pending.old { waiting = undecided_under pending.old.acks contract.now me.0 (with_reads pending.old.waiting reads.old) }) }
    ensures out { OnOk result (out.new
        ≡ out.old ++ answers_under pending.old.acks contract.now me.0 branch (with_reads pending.old.waiting reads.old)) }
    ensures below { (at : ℕ) → IsTrue (all_below at pending.old.waiting) → IsTrue (all_below at pending.new.waiting) }
    ensures reads { IsTrue (are_reads_of pending.new.waiting reads.new) }
{
    let _rising = pending.pending();
    while let Some(done) = pending.take_decided(contract, me) {
        let done = with_its_read(done, reads);
        answer(done, branch, out)?;
    }
    Ok(())
}

/// Answers a pending operation, that its client gave up, with its counts.
pub fn answer_given_up(
    pending: &mut Pending,
    reads: &mut Reads,
    contract: &Contract,
    me: NodeId,
    op: OpId,
    out: &mut Outputs,
) -> Result<(), OutOfMemory>
    requires { IsTrue (are_reads_of pending.old.waiting reads.old) }
    ensures pending { OnOk result (dispatch_with pending.new reads.new
        ≡ without_given_up (dispatch_with pending.old reads.old) contract.now me.0 op (pending_of (with_reads pending.old.waiting reads.old) op)) }
    ensures out { OnOk result (out.new
        ≡ out.old ++ given_up pending.old.acks contract.now me.0 op (pending_of (with_reads pending.old.waiting reads.old) op)) }
    ensures below { (at : ℕ) → IsTrue (all_below at pending.old.waiting) → IsTrue (all_below at pending.new.waiting) }
    ensures reads { IsTrue (are_reads_of pending.new.waiting reads.new) }
{
    match give_up(pending, reads, op, contract, me) {
        Err(_) => Ok(()),
        Ok(counts) => {
            out.push(Output::Answer {
                op,
                outcome: Outcome::NoMajority(counts),
            })?;
            Ok(())
        }
    }
}
