//! A node of the log: elections and appends joined in one step.
//!
//! Above: the laws of every run, and the nodes of a table. Below: `raft_append`, `raft_vote`.
//! Promise: `step` and `propose` equal the rows of the log; what a node acts on never goes back.
#![tactic(auto)]

pub use input::RaftInput;
pub use kept::RaftKept;
pub use node::{LOG_LIMIT, ProposeRefused, RaftNode};

pub mod input;
pub mod kept;
pub mod node;
