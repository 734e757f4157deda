//! Why a script was not read.
use crate::Reason;
use memory::OutOfMemory;
use std::alloc::{AllocError, AllocFailed};
use thiserror::Error;

/// Why a script was not read.
#[derive(Clone, Copy, Debug, PartialEq, Eq, Error)]
pub enum ScriptRefused {
    /// The first line that is refused, counted from 1, and why.
    #[error("line {0} is refused")]
    Line(u64, Reason),
    /// A line before any refused one has more than 65,536 bytes without its LF.
    #[error("a line is too long")]
    LineTooLong,
    #[error("out of memory")]
    OutOfMemory,
}
