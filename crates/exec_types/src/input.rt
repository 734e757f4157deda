//! What a node is given.
use region_map::{Key, NodeId};
use register_laws::{Op, OpId};

/// One input of a node.
#[derive(Drop)]
pub enum Input {
    /// A client asks for an operation on a key.
    Request { op: OpId, key: Key, what: Op },
    /// The client no longer waits for its operation.
    GiveUp { op: OpId },
    /// The node is told that it sees another node, or sees it no longer. It holds one that it does not see to be down.
    See { other: NodeId, up: bool },
    /// Time passes.
    Tick,
    /// The network brings the message of this number; messages are numbered from 1 over the whole journal.
    Deliver { message: u64 },
    /// The node goes down, and loses what it does not keep.
    Crash,
    /// A node that is down comes up, with what it kept.
    Restart,
}
