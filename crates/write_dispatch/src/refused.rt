//! Why an operation was not given up.
use contract_types::Counts;
use thiserror::Error;

/// Why an operation was not given up.
#[derive(Clone, Copy, Debug, PartialEq, Eq, Error)]
pub enum GiveUpRefused {
    /// Nothing of that operation waits.
    #[error("the operation is not pending")]
    NotPending,
    /// The operation is decided: these are its counts. It is to be taken and answered.
    #[error("the operation is decided")]
    StillDecided(Counts),
}
