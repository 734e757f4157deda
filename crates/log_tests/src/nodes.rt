//! A node of the log as the tests drive it and see it.
ghost use Rattle.std.specs.Prelude.{◌<◌, ◌≤◌};

use crate::change::Set;
use memory::OutOfMemory;
use raft_node::{ProposeRefused, RaftInput, RaftKept, RaftNode};
use raft_vote::{Log, LogEntry, RaftMessage};
use region_map::{NodeId, NodeSet, StepRefused};
use std::alloc::Global;

pub type Sent = Vec<(NodeId, RaftMessage<Set>)>;

/// A log whose entries have these terms.
pub fn log_of(alloc: Global, terms: &[u64]) -> Result<Log<Set>, OutOfMemory> {
    let mut log = Log::new(alloc);
    for term in terms {
        log.push(LogEntry {
            term: *term,
            change: Set(*term),
        })?;
    }
    Ok(log)
}

/// A node of `nodes` that comes up in a term, with a log of these terms.
pub fn node(
    alloc: Global,
    me: u8,
    nodes: u8,
    term: u64,
    terms: &[u64],
) -> Result<RaftNode<Set>, OutOfMemory>
    requires me { me < nodes }
    requires nodes { nodes ≤ 64 }
{
    let kept = RaftKept {
        term,
        vote: None,
        log: log_of(alloc, terms)?,
        view: 0,
    };
    RaftNode::begin(alloc, NodeId(me), nodes, kept)
}

pub fn tick(alloc: Global, node: &mut RaftNode<Set>) -> Result<Sent, StepRefused> {
    node.step(
        alloc,
        RaftInput::Tick {
            unseen: NodeSet::empty(),
        },
    )
}

/// A message that a node may be given is given to it.
pub fn give(
    alloc: Global,
    node: &mut RaftNode<Set>,
    from: u8,
    message: RaftMessage<Set>,
) -> Result<Sent, StepRefused> {
    let from = NodeId(from);
    if !node.takes(from, &message) {
        return Ok(Vec::new(alloc));
    }
    node.step(alloc, RaftInput::Deliver { from, message })
}

/// Whether a step was taken, and sends so many messages.
pub fn sends(sent: Result<Sent, StepRefused>, count: usize) -> bool {
    match sent {
        Ok(sent) => sent.len() == count,
        Err(_) => false,
    }
}

/// Another node grants its vote.
pub fn granted(term: u64) -> RaftMessage<Set> {
    RaftMessage::VoteSay {
        term,
        granted: true,
    }
}

/// Another node has taken a leader's entries.
pub fn said(term: u64, upto: u64) -> RaftMessage<Set> {
    RaftMessage::AppendSay {
        term,
        ok: true,
        upto,
    }
}

/// Whether a change is appended at this index.
pub fn appends(node: &mut RaftNode<Set>, change: u64, index: u64) -> bool {
    matches!(node.propose(Set(change)), Ok(new) if new == index)
}

/// Whether a change comes back since the log is full.
pub fn is_full(node: &mut RaftNode<Set>, change: u64) -> bool {
    matches!(node.propose(Set(change)), Err(ProposeRefused::LogFull(back)) if back == Set(change))
}

/// Whether a change comes back since the node does not lead.
pub fn is_no_leader(node: &mut RaftNode<Set>, change: u64) -> bool {
    matches!(node.propose(Set(change)), Err(ProposeRefused::NotLeader(back)) if back == Set(change))
}

/// The terms of a node's log, in one number: two digits for each entry.
pub fn terms_of(node: &RaftNode<Set>) -> u64 {
    let mut digits: u64 = 0;
    for entry in node.log() {
        digits = digits.wrapping_mul(100).wrapping_add(entry.term);
    }
    digits
}

/// Whether a node's log has so many entries, and it acts on so many of them.
pub fn has(node: &RaftNode<Set>, length: usize, committed: u64) -> bool {
    node.log().len() == length && node.committed() == committed
}
