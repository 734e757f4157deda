//! The answer of one call that failed.
use thiserror::Error;

/// This call of `read` or `write` failed, and moved no byte.
#[derive(Clone, Copy, Debug, PartialEq, Eq, Error)]
#[error("the call failed")]
pub struct Failed;
