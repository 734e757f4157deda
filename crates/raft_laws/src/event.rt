//! What may happen to a node in a run.
use raft_vote::RaftMessage;
use region_map::{NodeId, NodeSet};

/// An event at one node. A loss is a delivery that never comes.
#[derive(Drop)]
pub enum RaftEvent<E> {
    /// Time passes, and these nodes are held to be down.
    Tick { unseen: NodeSet },
    /// A change is put to the node.
    Propose(E),
    /// The message of this number comes. The first that was ever sent has number 1, and each may come any number of times.
    Deliver(u64),
    /// The node stops, and keeps its term, vote, log and view.
    Crash,
    /// The node comes up again with what it kept.
    Restart,
}

/// A message that was sent.
#[derive(Drop)]
pub struct Sent<E> {
    pub from: NodeId,
    pub to: NodeId,
    pub message: RaftMessage<E>,
}
