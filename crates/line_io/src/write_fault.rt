//! Why a piece was not written whole.
use crate::Failed;
use thiserror::Error;

/// A write failed before the whole piece was taken.
#[derive(Clone, Copy, Debug, PartialEq, Eq, Error)]
#[error("a write failed")]
pub struct WriteFault;

impl From<Failed> for WriteFault {
    fn from(_failed: Failed) -> WriteFault {
        WriteFault
    }
}
