//! A read that waits.
use register_laws::{OpId, Value};

/// A read with the timestamp of its sync, and the value that it found when it was asked.
#[derive(Debug, Drop)]
pub struct WaitingRead {
    pub op: OpId,
    pub at: u64,
    pub value: Option<Value>,
}
