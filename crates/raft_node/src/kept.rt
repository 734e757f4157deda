//! What a node of the log keeps over a crash.
use raft_vote::Log;
use region_map::NodeId;

/// The durable part: its term, its vote there, its log, and how far it acts on it.
#[derive(Drop)]
pub struct RaftKept<E> {
    pub term: u64,
    pub vote: Option<NodeId>,
    pub log: Log<E>,
    pub view: u64,
}
