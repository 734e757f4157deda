//! What is pending, and what a server acknowledged.
use register_laws::{OpId, Reply};

/// An operation that took a timestamp and was not yet answered, or a sync, which has no operation.
#[derive(Debug, Drop)]
pub struct Decided {
    pub op: Option<OpId>,
    pub at: u64,
    pub reply: Reply,
}

/// The greatest pair that one ack of a server gave, by view first: the view that it acted on, and the timestamp
/// at which all of the region stood there.
#[derive(Clone, Copy, Debug, PartialEq, Eq)]
pub struct KeptAck {
    pub view: u64,
    pub at: u64,
}
