//! What a client is told of its operation.
use contract_types::Counts;
use region_map::Id;
use register_laws::Reply;

/// What became of an operation.
#[derive(Drop)]
pub enum Outcome {
    /// It was done: its reply, and the point at which it took effect.
    Done {
        reply: Reply,
        branch: Id,
        timestamp: u64,
    },
    /// The node that was asked did not serve the key.
    NotServing,
    /// It was given up before enough voters were counted for it; it may still take effect.
    NoMajority(Counts),
}
