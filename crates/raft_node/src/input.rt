//! What a node of the log is given.
use raft_vote::RaftMessage;
use region_map::{NodeId, NodeSet};

#[derive(Drop)]
pub enum RaftInput<E> {
    /// Time passes, and these nodes are held to be down.
    Tick {
        unseen: NodeSet,
    },
    /// A message comes from a node.
    Deliver {
        from: NodeId,
        message: RaftMessage<E>,
    },
}
