//! What is planned for a contract.
use contract_types::Change;

/// What the leader does for a contract.
#[derive(Drop)]
pub enum Plan {
    /// Nothing: the contract is as it should be, or more acks have to come first.
    Keep,
    /// The leader proposes this change to the log.
    Propose(Change),
}
