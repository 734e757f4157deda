//! The rows of a node's step that its log takes.
ghost use Rattle.std.specs.Prelude.{◌≡◌, ◌≤◌, ◌++◌, IfOk, OnOk, IsErrOf, IsTrue, false, if◌then◌else◌};
ghost use Rattle.raft_node.specs.Rows.{ends_numbers};
ghost use Rattle.table_log.specs.Logs.{may_take, log_step, table_of};
ghost use Rattle.coordinator.specs.Proposals.{proposals_of, after_proposals};
ghost use Rattle.node_core.specs.Step.{coordinates, leads, propose_one, propose_all, acks_after, raft_outs, unseen_after};

use contract_types::Change;
use coordinator::Acks;
use exec_types::{Message, Output, Outputs};
use memory::OutOfMemory;
use raft_node::RaftInput;
use raft_vote::RaftMessage;
use region_map::{NodeId, NodeSet, StepRefused};
use std::alloc::Global;
use table_log::TableLog;

/// Which nodes a node does not see, once it is told that it sees another one or not. It always sees itself, and does
/// not heed what is no node of the table.
pub fn unseen_after(me: NodeId, nodes: u8, other: NodeId, up: bool, unseen: NodeSet) -> NodeSet
    requires { nodes ≤ 64 }
    ensures { result ≡ unseen_after me nodes other up unseen }
{
    if other == me || other.0 >= nodes {
        return unseen;
    }
    if up {
        unseen.without(&NodeSet::empty().with(other))
    } else {
        unseen.with(other)
    }
}

/// What the log sends goes out.
fn send_all(sent: Vec<(NodeId, RaftMessage<Change>)>, out: &mut Outputs) -> Result<(), OutOfMemory>
    ensures { OnOk result (out.new ≡ out.old ++ raft_outs sent.items) }
{
    for (to, message) in sent {
        out.push(Output::Message {
            to,
            message: Message::Raft(message),
        })?;
    }
    Ok(())
}

/// The log takes one step, and what it sends goes out. A node that comes to lead begins without acks, and one that
/// does not lead keeps none.
pub fn step_log(
    alloc: Global,
    log: TableLog,
    acks: &mut Acks,
    input: RaftInput<Change>,
    out: &mut Outputs,
) -> Result<TableLog, StepRefused>
    requires { IsTrue (may_take log input) }
    ensures log { IfOk result (λ after. after ≡ (log_step log input).log) }
    ensures acks { IfOk result (λ after. acks.new ≡ acks_after log after acks.old) }
    ensures out { OnOk result (out.new ≡ out.old ++ raft_outs (log_step log input).sent) }
    ensures ends { IsErrOf result StepRefused.NumbersEnd → IsTrue (ends_numbers log.raft input) }
    ensures goes { OnOk result (ends_numbers log.raft input ≡ false) }
{
    let led = log.is_leader();
    let (after, sent) = log.step(alloc, input)?;
    if !(led && after.is_leader()) {
        acks.clear();
    }
    send_all(sent, out)?;
    Ok(after)
}

/// Proposes a change, where its maps have as many hashes as the table and the log is not full.
fn propose_one(log: &mut TableLog, change: Change) -> Result<(), OutOfMemory>
    requires { IsTrue (leads log.old) }
    ensures proposed { OnOk result (log.new ≡ propose_one log.old change) }
    ensures leads { OnOk result (IsTrue (leads log.new)) }
{
    if log.fits(&change) && !log.is_full() {
        match log.propose(change) {
            Ok(_) => Ok(()),
            // it leads and its log has room, so it is refused for want of memory alone
            Err(_) => Err(OutOfMemory),
        }
    } else {
        Ok(())
    }
}

/// A leader that acts on all of its log proposes what is planned by its acks; those that the plans rest on are
/// forgotten.
pub fn propose_all(alloc: Global, log: &mut TableLog, acks: &mut Acks) -> Result<(), OutOfMemory>
    ensures log { OnOk result (log.new
        ≡ (if coordinates log.old then propose_all log.old (proposals_of acks.old (table_of log.old)) else log.old)) }
    ensures acks { OnOk result (acks.new
        ≡ (if coordinates log.old then after_proposals acks.old (table_of log.old) else acks.old)) }
{
    if !(log.is_leader() && log.view() == log.last_index()) {
        return Ok(());
    }
    let changes = acks.proposals(alloc, log.table())?;
    for change in changes {
        propose_one(log, change)?;
    }
    Ok(())
}
