//! Messages on their way.
use exec_types::Message;
use region_map::NodeId;

/// A message with its sender and the node that it is for.
#[derive(Drop)]
pub struct Envelope {
    pub from: NodeId,
    pub to: NodeId,
    pub message: Message,
}
